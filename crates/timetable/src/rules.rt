//! The rules of timetables, tested in their order.

ghost use Rattle.std.specs.Prelude.{◌≡◌, ◌↔◌, false, All, IsTrue, IfErr, IfOk, MatchOption};
ghost use Rattle.std.specs.List.{AllZip};
ghost use Rattle.vss_lists.specs.Breaks.{BreaksFirstAt, HoldsOfEach};
ghost use Rattle.vss_lists.specs.Orders.{AreKept};
ghost use Rattle.vss_names.specs.Names.{IsName};
ghost use Rattle.timetable.specs.Document.{HasFewEntries};
ghost use Rattle.timetable.specs.Places.{IsBetweenEnds, IsTrainFor};
ghost use Rattle.timetable.specs.Ranges.{IsGoodIfThere};
ghost use Rattle.timetable.specs.Rules.{HasGoodNumbers, HasGoodStepEntries, HasGoodTimes, Tells, told_in as refusal_in, in_train as refusal_of_train, time_rules};

use crate::entries::{Entries, StopEntry, TrainEntry};
use crate::parts::TrainPart;
use crate::places::{is_end, trains_of};
use crate::refusal::TimeFault;
use rail_net::{Break, ListKind, Net, Spot, index_of};
use std::alloc::Global;
use vss_lists::{Items, Rule, first_break};
use vss_names::is_name;

/// The greatest step of space, in metres.
const LONGEST_STEP_M: u64 = 100_000;

/// The greatest step of time, in seconds.
const LONGEST_STEP_S: u64 = 86_400;

/// The latest time, in seconds.
const LATEST_S: u64 = 10_000_000;

/// The greatest length of a train, in metres.
const LONGEST_M: u64 = 1_000_000;

/// The greatest speed of a train, in kilometres per hour.
const FASTEST_KMH: u64 = 500;

/// Why entries keep no timetable.
#[derive(Clone, Copy, Debug)]
pub(crate) enum RuleRefusal {
    /// The first rule that is broken, and where.
    Named { kind: TimeFault, spot: Spot },
    /// Want of memory.
    Memory,
}

/// Tests every rule, in the order of the refusals; on the way the trains get the numbers of their nodes
/// and stations. Linear in trains and stops but for hashed look-ups of names.
pub(crate) fn test_rules(
    alloc: Global,
    net: &Net,
    entries: &Entries,
) -> Result<Items<TrainPart>, RuleRefusal>
    requires { HasFewEntries entries.now }
    ensures trains { IfOk result (AllZip (IsTrainFor net.now) entries.now.trains) }
    ensures kept { IfOk result (λ _. AreKept (time_rules net.now entries.now)) }
    ensures refusal { IfErr result (Tells (time_rules net.now entries.now)) }
{
    let all = entries.trains.as_slice();
    match first_bad_name(entries) {
        None => {}
        Some(train) => return Err(in_train(TimeFault::BadName, train)),
    }
    match first_with_legs(entries) {
        None => {}
        Some(train) => return Err(in_train(TimeFault::ReverseNotYet, train)),
    }
    match index_of(alloc, all) {
        Ok(_) => {}
        Err(Break::At(train)) => return Err(in_train(TimeFault::DuplicateName, train)),
        Err(Break::Memory) => return Err(RuleRefusal::Memory),
    }
    let trains = match trains_of(alloc, net, all) {
        Ok(trains) => trains,
        Err(Break::At(train)) => return Err(in_train(TimeFault::UnknownName, train)),
        Err(Break::Memory) => return Err(RuleRefusal::Memory),
    };
    match first_without_ends(net, entries) {
        None => {}
        Some(train) => return Err(in_train(TimeFault::EndWanted, train)),
    }
    if !has_good_steps(entries) {
        return Err(in_list(TimeFault::StepRange, ListKind::Document, 0));
    }
    match first_out_of_range(entries) {
        None => Ok(trains),
        Some(train) => Err(in_train(TimeFault::TrainRange, train)),
    }
}

/// The refusal of an item.
fn in_list(kind: TimeFault, list: ListKind, item: u32) -> RuleRefusal
    ensures { result ≡ refusal_in kind list item }
{
    RuleRefusal::Named {
        kind,
        spot: Spot { list, item },
    }
}

/// The refusal of a train.
fn in_train(kind: TimeFault, train: u32) -> RuleRefusal
    ensures { result ≡ refusal_of_train kind train }
{
    in_list(kind, ListKind::Trains, train)
}

/// The first train whose name is none.
fn first_bad_name(entries: &Entries) -> Option<u32>
    requires { HasFewEntries entries.now }
    ensures { MatchOption result (HoldsOfEach (λ train t. IsName t.name) entries.now.trains) (BreaksFirstAt (λ train t. IsName t.name) entries.now.trains) }
{
    first_break(&NameRule, entries.trains.as_slice())
}

/// The name of a train is a name.
#[derive(Clone, Copy)]
struct NameRule;

impl Rule<TrainEntry> for NameRule {
    ghost holds = { λ r train t. IsName t.name };

    fn holds(&self, _train: u32, item: &TrainEntry) -> bool {
        is_name(item.name.as_str())
    }
}

/// The first train with legs.
fn first_with_legs(entries: &Entries) -> Option<u32>
    requires { HasFewEntries entries.now }
    ensures { MatchOption result (HoldsOfEach (λ train t. t.has_legs ≡ false) entries.now.trains) (BreaksFirstAt (λ train t. t.has_legs ≡ false) entries.now.trains) }
{
    first_break(&NoLegsRule, entries.trains.as_slice())
}

/// A train has no legs.
#[derive(Clone, Copy)]
struct NoLegsRule;

impl Rule<TrainEntry> for NoLegsRule {
    ghost holds = { λ r train t. t.has_legs ≡ false };

    fn holds(&self, _train: u32, item: &TrainEntry) -> bool {
        !item.has_legs
    }
}

/// The first train that doesn't begin and end at end nodes.
fn first_without_ends(net: &Net, entries: &Entries) -> Option<u32>
    requires { HasFewEntries entries.now }
    ensures { MatchOption result (HoldsOfEach (λ train t. IsBetweenEnds net.now t) entries.now.trains) (BreaksFirstAt (λ train t. IsBetweenEnds net.now t) entries.now.trains) }
{
    first_break(&EndsRule { net }, entries.trains.as_slice())
}

/// A train begins and ends at end nodes of the network.
#[derive(Clone, Copy)]
struct EndsRule<'a> {
    net: &'a Net,
}

impl<'a> Rule<TrainEntry> for EndsRule<'a> {
    ghost holds = { λ r train t. IsBetweenEnds r.net.now t };

    fn holds(&self, _train: u32, item: &TrainEntry) -> bool {
        is_end(self.net, item.from.as_str()) && is_end(self.net, item.to.as_str())
    }
}

/// Whether the steps are in their ranges.
fn has_good_steps(entries: &Entries) -> bool
    ensures { IsTrue result ↔ HasGoodStepEntries entries.now }
{
    let space_fits = 1 <= entries.space_step_m && entries.space_step_m <= LONGEST_STEP_M;
    let time_fits = 1 <= entries.time_step_s && entries.time_step_s <= LONGEST_STEP_S;
    let end_fits = entries.time_step_s <= entries.horizon_s && entries.horizon_s <= LATEST_S;
    space_fits && time_fits && end_fits
}

/// The first train with a number out of its range.
fn first_out_of_range(entries: &Entries) -> Option<u32>
    requires { HasFewEntries entries.now }
    ensures { MatchOption result (HoldsOfEach (λ train t. HasGoodNumbers t) entries.now.trains) (BreaksFirstAt (λ train t. HasGoodNumbers t) entries.now.trains) }
{
    first_break(&RangeRule, entries.trains.as_slice())
}

/// The numbers of a train and of its stops are in their ranges.
#[derive(Clone, Copy)]
struct RangeRule;

impl Rule<TrainEntry> for RangeRule {
    ghost holds = { λ r train t. HasGoodNumbers t };

    fn holds(&self, _train: u32, item: &TrainEntry) -> bool {
        let length_fits = 1 <= item.length_m && item.length_m <= LONGEST_M;
        let speed_fits = 1 <= item.speed_kmh && item.speed_kmh <= FASTEST_KMH;
        let entry_fits = item.entry_s <= LATEST_S;
        length_fits
            && speed_fits
            && entry_fits
            && is_good_if_there(item.arrive_s)
            && is_good_if_there(item.entry_until_s)
            && have_good_times(item.stops.as_slice())
    }
}

/// Whether the time, where there is one, isn't past the latest.
fn is_good_if_there(time: Option<u64>) -> bool
    ensures { IsTrue result ↔ IsGoodIfThere time }
{
    match time {
        Some(time) => time <= LATEST_S,
        None => true,
    }
}

/// Whether no time of the stops is past the latest.
fn have_good_times(stops: &[StopEntry]) -> bool
    ensures { IsTrue result ↔ All HasGoodTimes stops.now }
{
    stops.iter().all(|stop| {
        stop.dwell_s <= LATEST_S && stop.from_s <= LATEST_S && stop.until_s <= LATEST_S
    })
}
