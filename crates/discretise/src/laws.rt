//! Laws of scenes, for the proofs of callers.

ghost use Rattle.rail_net.specs.declared.parts.NetParts.{NetParts};
ghost use Rattle.timetable.specs.declared.parts.Timetable.{Timetable};
ghost use Rattle.discretise.specs.Laws.{HasOneScene, MakesInstances};

/// The parts of every scene keep every rule of an instance, and its labels are those of the instance. A
/// call does nothing; it gives its caller's proof this law.
pub fn scenes_are_instances()
    ensures { (p : NetParts) (t : Timetable) → MakesInstances p t }
{}

/// A network and a timetable have one scene or one refusal, other than want of memory. A call does
/// nothing; it gives its caller's proof this law.
pub fn scenes_are_one()
    ensures { (p : NetParts) (t : Timetable) → HasOneScene p t }
{}
