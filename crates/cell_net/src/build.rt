//! Building an instance: the tests of its parts, in their order.

ghost use Rattle.std.specs.Prelude.{◌≡◌, ◌<◌, ◌^◌, ◌↔◌, IsTrue, MatchResult, length};
ghost use Rattle.cell_net.specs.Rules.{HasFewStops, HasGoodSteps, IsInstance};
ghost use Rattle.cell_net.specs.Refusals.{IsRefusal};
ghost use Rattle.cell_net.specs.declared.build.BuildRefusal.TheVariants.{Memory};

use crate::limits::STEPS;
use crate::parts::InstanceParts;
use crate::rules::{
    first_bad_candidate, first_bad_cell, first_bad_join, first_bad_kept, first_bad_section,
    first_bad_station, first_bad_train,
};
use crate::segments::segments_of;
use node_groups::sorted_ends;
use std::alloc::{AllocError, Global};

/// Why the parts are no instance: the first rule in this order that one of them breaks, and the
/// lowest place at which it is broken.
#[derive(Clone, Copy, Debug, PartialEq, Eq)]
pub enum BuildRefusal {
    /// The number of steps is 0 or above 400.
    BadSteps,
    /// A cell past the first 1,000, with a node or section out of range, with both nodes equal, or
    /// with a limit that isn't 1 to 20.
    BadCell(u32),
    /// A join of a cell out of range, of an end with itself, or of ends at different nodes.
    BadJoin(u32),
    /// The cells of the section are not connected by shared nodes.
    BadSection(u32),
    /// A candidate past the first 512, not above the one before, out of range, or not the node of
    /// exactly two cell ends, of two cells of one section.
    BadCandidate(u32),
    /// A kept candidate not above the one before, or out of range.
    BadKept(u32),
    /// A station without a cell, or with a cell out of range.
    BadStation(u32),
    /// A train past the first 32; with a length that isn't 1 to 64 or an advance that isn't 1 to
    /// 20; with a cell out of range; whose latest entry is before its first or after its last step, or
    /// whose last step is past the horizon; or with a stop whose station is out of range, whose dwell is
    /// 0 or whose window is too short.
    BadTrain(u32),
    /// Want of memory, where steps, cells and joins are good.
    Memory,
}

impl From<AllocError> for BuildRefusal {
    ghost from_gives = { λ _ refusal. refusal ≡ Memory };

    fn from(_: AllocError) -> BuildRefusal {
        BuildRefusal::Memory
    }
}

/// Tests every rule, in the order of the refusals.
pub(crate) fn test_rules(alloc: Global, parts: &InstanceParts) -> Result<(), BuildRefusal>
    requires cells { length parts.now.cells < 2 ^ 32 }
    requires joins { length parts.now.joins < 2 ^ 32 }
    requires candidates { length parts.now.candidates < 2 ^ 32 }
    requires kept { length parts.now.kept < 2 ^ 32 }
    requires stations { length parts.now.stations < 2 ^ 32 }
    requires trains { length parts.now.trains < 2 ^ 32 }
    requires stops { HasFewStops parts.now }
    ensures { MatchResult result (λ _. IsInstance parts.now) (IsRefusal parts.now) }
{
    if !has_good_steps(parts) {
        return Err(BuildRefusal::BadSteps);
    }
    if let Some(place) = first_bad_cell(parts) {
        return Err(BuildRefusal::BadCell(place));
    }
    if let Some(place) = first_bad_join(parts) {
        return Err(BuildRefusal::BadJoin(place));
    }
    let segments = segments_of(alloc, parts)?;
    let ends = sorted_ends(alloc, &segments)?;
    if let Some(place) = first_bad_section(alloc, parts, &segments, &ends)? {
        return Err(BuildRefusal::BadSection(place));
    }
    if let Some(place) = first_bad_candidate(parts, &ends) {
        return Err(BuildRefusal::BadCandidate(place));
    }
    if let Some(place) = first_bad_kept(parts) {
        return Err(BuildRefusal::BadKept(place));
    }
    if let Some(place) = first_bad_station(parts) {
        return Err(BuildRefusal::BadStation(place));
    }
    if let Some(place) = first_bad_train(parts) {
        return Err(BuildRefusal::BadTrain(place));
    }
    Ok(())
}

fn has_good_steps(parts: &InstanceParts) -> bool
    ensures { IsTrue result ↔ HasGoodSteps parts.now }
{
    0 < parts.steps && parts.steps <= STEPS
}
