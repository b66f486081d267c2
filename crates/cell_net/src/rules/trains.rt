//! The rule of trains.

ghost use Rattle.std.specs.Prelude.{◌↔◌, All, IsTrue, ◌<◌, ◌^◌, length, MatchOption};
ghost use Rattle.vss_lists.specs.Breaks.{HoldsOfEach, BreaksFirstAt};
ghost use Rattle.cell_net.specs.Rules.{IsGoodStop, IsGoodTrain};

use super::cells::is_cell;
use crate::limits::{ADVANCE, LENGTH, TRAINS};
use crate::parts::InstanceParts;
use crate::trains::{StopSpec, TrainSpec};
use vss_lists::{Rule, first_break};

/// The place of the first train that breaks its rule.
pub(crate) fn first_bad_train(parts: &InstanceParts) -> Option<u32>
    requires { length parts.now.trains < 2 ^ 32 }
    ensures { MatchOption result (HoldsOfEach (IsGoodTrain parts.now) parts.now.trains) (BreaksFirstAt (IsGoodTrain parts.now) parts.now.trains) }
{
    first_break(&TrainRule { parts }, parts.trains.as_slice())
}

#[derive(Clone, Copy)]
struct TrainRule<'a> {
    parts: &'a InstanceParts,
}

impl<'a> Rule<TrainSpec> for TrainRule<'a> {
    ghost holds = { λ r place train. IsGoodTrain r.parts.now place train };

    fn holds(&self, place: u32, train: &TrainSpec) -> bool {
        let parts = self.parts;
        place < TRAINS
            && 0 < train.length
            && train.length <= LENGTH
            && 0 < train.advance
            && train.advance <= ADVANCE
            && is_cell(parts, train.entry.cell)
            && is_cell(parts, train.goal.cell)
            && train.start <= train.latest
            && train.latest <= train.by
            && train.by < parts.steps
            && are_good_stops(parts, train.stops.as_slice())
    }
}

fn are_good_stops(parts: &InstanceParts, stops: &[StopSpec]) -> bool
    ensures { IsTrue result ↔ All (IsGoodStop parts.now) stops.now }
{
    stops.iter().all(|stop| is_good_stop(parts, *stop))
}

fn is_good_stop(parts: &InstanceParts, stop: StopSpec) -> bool
    ensures { IsTrue result ↔ IsGoodStop parts.now stop }
{
    let from = u64::from(stop.from);
    let dwell = u64::from(stop.dwell);
    (stop.station.0 as usize) < parts.stations.len()
        && 0 < stop.dwell
        && from + dwell <= u64::from(stop.until)
}
