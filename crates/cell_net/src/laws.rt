//! Laws of the definitions, for the proofs of callers.

ghost use Rattle.std.specs.Prelude.{List};
ghost use Rattle.cell_net.specs.Laws.{HasOneLayoutRefusal, HasOneRefusal, LinksBack, LinksItself, LinksOn, RefusesNoInstance, RefusesNoLayout};
ghost use Rattle.cell_net.specs.declared.ids.CandidateId.{CandidateId};
ghost use Rattle.cell_net.specs.declared.parts.InstanceParts.{InstanceParts};

/// Linked is an equivalence of cells, under any borders. A call does nothing; it gives its caller's
/// proof these laws.
pub fn linked_is_an_equivalence()
    ensures reflexive { (p : InstanceParts) (borders : List CandidateId) → LinksItself p borders }
    ensures symmetric { (p : InstanceParts) (borders : List CandidateId) → LinksBack p borders }
    ensures transitive { (p : InstanceParts) (borders : List CandidateId) → LinksOn p borders }
{}

/// A refusal of parts excludes that they are an instance, and every other refusal. A call does
/// nothing; it gives its caller's proof these laws.
pub fn refusals_are_exclusive()
    ensures instance { (p : InstanceParts) → RefusesNoInstance p }
    ensures one { (p : InstanceParts) → HasOneRefusal p }
{}

/// A refusal of borders excludes that they are a border set, and every other refusal. A call does
/// nothing; it gives its caller's proof these laws.
pub fn layout_refusals_are_exclusive()
    ensures borders { (p : InstanceParts) (borders : List CandidateId) → RefusesNoLayout p borders }
    ensures one { (p : InstanceParts) (borders : List CandidateId) → HasOneLayoutRefusal p borders }
{}
