//! The law of rebased logs.
ghost use Rattle.log_rebase.specs.Rebasing.{RebasedRefutes};

/// A log that refutes a formula with units refutes, when it is rebased, the formula with the last of them. A call does
/// nothing; it gives its caller's proof this law.
pub fn rebased_logs_refute()
    ensures { RebasedRefutes }
{}
