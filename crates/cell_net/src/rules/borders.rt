//! The rules of border sets.

ghost use Rattle.std.specs.Prelude.{◌<◌, ◌^◌, MatchOption, length};
ghost use Rattle.vss_lists.specs.Breaks.{HoldsOfEach, BreaksFirstAt};
ghost use Rattle.cell_net.specs.Borders.{IsCandidate, RisesAt};

use super::rising::is_above_last;
use crate::ids::CandidateId;
use crate::parts::InstanceParts;
use vss_lists::{Rule, first_break};

/// The place of the first border that isn't above the one before it.
pub(crate) fn first_not_rising(borders: &[CandidateId]) -> Option<u32>
    requires { length borders.now < 2 ^ 32 }
    ensures { MatchOption result (HoldsOfEach (RisesAt borders.now) borders.now) (BreaksFirstAt (RisesAt borders.now) borders.now) }
{
    first_break(&RisingRule { borders }, borders)
}

#[derive(Clone, Copy)]
struct RisingRule<'a> {
    borders: &'a [CandidateId],
}

impl<'a> Rule<CandidateId> for RisingRule<'a> {
    ghost holds = { λ r place border. RisesAt r.borders.now place border };

    fn holds(&self, place: u32, border: &CandidateId) -> bool {
        is_above_last(self.borders, place, border)
    }
}

/// The place of the first border that is no candidate of the instance.
pub(crate) fn first_out_of_range(parts: &InstanceParts, borders: &[CandidateId]) -> Option<u32>
    requires { length borders.now < 2 ^ 32 }
    ensures { MatchOption result (HoldsOfEach (IsCandidate parts.now) borders.now) (BreaksFirstAt (IsCandidate parts.now) borders.now) }
{
    first_break(&RangeRule { parts }, borders)
}

#[derive(Clone, Copy)]
struct RangeRule<'a> {
    parts: &'a InstanceParts,
}

impl<'a> Rule<CandidateId> for RangeRule<'a> {
    ghost holds = { λ r place border. IsCandidate r.parts.now place border };

    fn holds(&self, _place: u32, border: &CandidateId) -> bool {
        (border.0 as usize) < self.parts.candidates.len()
    }
}
