//! The law of readings, for the proofs of callers.

ghost use Rattle.std.specs.Prelude.{ℕ, List};
ghost use Rattle.net_reader.specs.Laws.{HasOneReading};

/// Bytes have one reading at most, but for want of memory: one network or one refusal. A call does
/// nothing; it gives its caller's proof this law.
pub fn network_readings_are_one()
    ensures { (bytes : List ℕ) → HasOneReading bytes }
{}
