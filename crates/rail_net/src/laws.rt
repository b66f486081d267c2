//! Laws of the definitions, for the proofs of callers.

ghost use Rattle.rail_net.specs.Laws.{BrokenIsNoNet, HasOneBrokenRule};
ghost use Rattle.rail_net.specs.declared.parts.NetParts.{NetParts};

/// One refusal at most tells the first rule that parts break, and then they are no network. A call
/// does nothing; it gives its caller's proof these laws.
pub fn net_refusals_are_one()
    ensures one { (p : NetParts) → HasOneBrokenRule p }
    ensures none { (p : NetParts) → BrokenIsNoNet p }
{}
