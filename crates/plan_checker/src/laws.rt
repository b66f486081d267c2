//! The law of breaches, for the proofs of callers.

ghost use Rattle.std.specs.Prelude.{List};
ghost use Rattle.cell_net.specs.declared.ids.CandidateId.{CandidateId};
ghost use Rattle.cell_net.specs.declared.parts.InstanceParts.{InstanceParts};
ghost use Rattle.cell_net.specs.declared.plans.Plan.{Plan};
ghost use Rattle.plan_checker.specs.Laws.{HasOneFirstBreach};

/// A plan has one first breach at most. A call does nothing; it gives its caller's proof this law.
pub fn first_breaches_are_one()
    ensures { (p : InstanceParts) (borders : List CandidateId) (plan : Plan) → HasOneFirstBreach p borders plan }
{}
