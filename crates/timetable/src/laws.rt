//! The law of readings, for the proofs of callers.

ghost use Rattle.std.specs.Prelude.{ℕ, List};
ghost use Rattle.rail_net.specs.Refusals.{IsNet};
ghost use Rattle.rail_net.specs.declared.parts.NetParts.{NetParts};
ghost use Rattle.timetable.specs.Laws.{HasOneTimeReading};

/// For a network bytes have one reading at most, but for want of memory: one timetable or one refusal.
/// A call does nothing; it gives its caller's proof this law.
pub fn timetable_readings_are_one()
    ensures { (p : NetParts) (bytes : List ℕ) → IsNet p → HasOneTimeReading p bytes }
{}
