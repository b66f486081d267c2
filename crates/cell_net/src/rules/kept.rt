//! The rule of kept candidates.

ghost use Rattle.std.specs.Prelude.{◌<◌, ◌^◌, length, MatchOption};
ghost use Rattle.vss_lists.specs.Breaks.{HoldsOfEach, BreaksFirstAt};
ghost use Rattle.cell_net.specs.Rules.{IsGoodKept};

use super::rising::is_above_last;
use crate::ids::CandidateId;
use crate::parts::InstanceParts;
use vss_lists::{Rule, first_break};

/// The place of the first kept candidate that breaks its rule.
pub(crate) fn first_bad_kept(parts: &InstanceParts) -> Option<u32>
    requires { length parts.now.kept < 2 ^ 32 }
    ensures { MatchOption result (HoldsOfEach (IsGoodKept parts.now) parts.now.kept) (BreaksFirstAt (IsGoodKept parts.now) parts.now.kept) }
{
    first_break(&KeptRule { parts }, parts.kept.as_slice())
}

#[derive(Clone, Copy)]
struct KeptRule<'a> {
    parts: &'a InstanceParts,
}

impl<'a> Rule<CandidateId> for KeptRule<'a> {
    ghost holds = { λ r place kept. IsGoodKept r.parts.now place kept };

    fn holds(&self, place: u32, kept: &CandidateId) -> bool {
        is_above_last(self.parts.kept.as_slice(), place, kept)
            && (kept.0 as usize) < self.parts.candidates.len()
    }
}
