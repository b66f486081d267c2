//! The rules of tracks, borders and trains on the grid, tested in their order.

ghost use Rattle.std.specs.Prelude.{◌≡◌, ◌<◌, ◌≤◌, ◌^◌, ◌↔◌, ℕ, All, IfErr, IfOk, IsTrue, MatchOption, length};
ghost use Rattle.vss_lists.specs.Breaks.{BreaksFirstAt, HoldsOfEach};
ghost use Rattle.vss_lists.specs.Orders.{AreKept};
ghost use Rattle.rail_net.specs.Rules.{IsGoodLimit};
ghost use Rattle.timetable.specs.declared.parts.Timetable.{Timetable};
ghost use Rattle.discretise.specs.Refusals.{ArrivesInTime, AreWholeSteps, EntersInTime, HasSomeLimit, HasTimeForStops, HasTimeToStop, HasWindow, IsNotTooFast, IsNotTooLong, IsNotTooSlow, IsOnGrid, RefusesCut, cut_at, track_rules, train_rules};
ghost use Rattle.discretise.specs.Rounding.{HasStepUntil, HasSteps};

use crate::refusal::{CutFault, CutRefusal};
use crate::rounding::{
    advance_of, cells_of, dwell_steps, last_step, limit_of, step_count, step_from, steps_until,
};
use cell_net::limits::{ADVANCE, LENGTH};
use rail_net::{BorderPart, ListKind, NetParts, Spot, TrackPart};
use timetable::{StopPart, Timetable, TrainPart};

/// Tests that a train may advance on each track, and that borders stand at cuts.
pub(crate) fn test_tracks(parts: &NetParts, timetable: &Timetable) -> Result<(), CutRefusal>
    requires steps { HasSteps timetable.now }
    requires limits { All (λ track. IsGoodLimit track.limit_kmh) parts.now.tracks }
    requires tracks { length parts.now.tracks < 2 ^ 32 }
    requires borders { length parts.now.borders < 2 ^ 32 }
    ensures kept { IfOk result (λ _. AreKept (track_rules parts.now timetable.now)) }
    ensures refusal { IfErr result (RefusesCut (track_rules parts.now timetable.now)) }
{
    match first_off(&SomeLimit, timetable, parts.tracks.as_slice()) {
        None => {}
        Some(item) => return Err(named(CutFault::LimitTooLow, ListKind::Tracks, item)),
    }
    match first_off(&OnGrid, timetable, parts.borders.as_slice()) {
        None => {}
        Some(item) => return Err(named(CutFault::BorderOffGrid, ListKind::Borders, item)),
    }
    Ok(())
}

/// Tests that trains fit the grid.
pub(crate) fn test_trains(timetable: &Timetable) -> Result<(), CutRefusal>
    requires steps { HasSteps timetable.now }
    requires slow { All (λ x. x.speed_kmh ≤ 500) timetable.now.trains }
    requires few { length timetable.now.trains < 2 ^ 32 }
    ensures kept { IfOk result (λ _. AreKept (train_rules timetable.now)) }
    ensures refusal { IfErr result (RefusesCut (train_rules timetable.now)) }
{
    let trains = timetable.trains.as_slice();
    match first_off(&NotTooSlow, timetable, trains) {
        None => {}
        Some(item) => return Err(named(CutFault::TooSlow, ListKind::Trains, item)),
    }
    match first_off(&NotTooFast, timetable, trains) {
        None => {}
        Some(item) => return Err(named(CutFault::StepTooCoarse, ListKind::Trains, item)),
    }
    match first_off(&NotTooLong, timetable, trains) {
        None => {}
        Some(item) => return Err(named(CutFault::TrainTooLong, ListKind::Trains, item)),
    }
    match first_off(&Enters, timetable, trains) {
        None => {}
        Some(item) => return Err(named(CutFault::EntryPastHorizon, ListKind::Trains, item)),
    }
    match first_off(&Arrives, timetable, trains) {
        None => {}
        Some(item) => return Err(named(CutFault::ArrivalBeforeEntry, ListKind::Trains, item)),
    }
    match first_off(&Window, timetable, trains) {
        None => {}
        Some(item) => return Err(named(CutFault::WindowEmpty, ListKind::Trains, item)),
    }
    match first_off(&Stops, timetable, trains) {
        None => {}
        Some(item) => return Err(named(CutFault::StopWindow, ListKind::Trains, item)),
    }
    Ok(())
}

/// The refusal of an item.
pub(crate) fn named(kind: CutFault, list: ListKind, item: u32) -> CutRefusal
    ensures { result ≡ cut_at kind list item }
{
    CutRefusal::Named {
        kind,
        spot: Spot { list, item },
    }
}

/// A rule that each item of a list keeps or breaks on the timetable's grid, whatever its place.
trait GridRule<T> {
    /// What is known of the item.
    ghost takes: { Self → T → Type 0 };

    ghost holds: { Self → Timetable → ℕ → T → Type 0 };

    fn holds(&self, timetable: &Timetable, item: &T) -> bool
        requires steps { HasSteps timetable.now }
        requires item { takes self.now item.now }
        ensures { (place : ℕ) → IsTrue result ↔ holds self.now timetable.now place item.now };
}

/// The first place at which the rule is broken; linear in the items up to there.
fn first_off<T, R: GridRule<T>>(rule: &R, timetable: &Timetable, items: &[T]) -> Option<u32>
    requires steps { HasSteps timetable.now }
    requires few { length items.now < 2 ^ 32 }
    requires items { All (R.takes rule.now) items.now }
    ensures { MatchOption result (HoldsOfEach (R.holds rule.now timetable.now) items.now) (BreaksFirstAt (R.holds rule.now timetable.now) items.now) }
{
    for place in 0..items.len() {
        if !rule.holds(timetable, &items[place]) {
            return Some(place as u32);
        }
    }
    None
}

/// A train may advance on the track.
#[derive(Clone, Copy)]
struct SomeLimit;

impl GridRule<TrackPart> for SomeLimit {
    ghost takes = { λ r track. IsGoodLimit track.limit_kmh };

    ghost holds = { λ r t place track. HasSomeLimit t place track };

    fn holds(&self, timetable: &Timetable, track: &TrackPart) -> bool {
        0 < limit_of(timetable, track.limit_kmh)
    }
}

/// A border within a track stands at a cut.
#[derive(Clone, Copy)]
struct OnGrid;

impl GridRule<BorderPart> for OnGrid {
    ghost use Rattle.std.specs.Prelude.{⊤};

    ghost takes = { λ r border. ⊤ };

    ghost holds = { λ r t place border. IsOnGrid t place border };

    fn holds(&self, timetable: &Timetable, border: &BorderPart) -> bool {
        match border {
            BorderPart::Cut { at_m, .. } => are_whole_steps(timetable, *at_m),
            BorderPart::Joint { .. } => true,
        }
    }
}

fn are_whole_steps(timetable: &Timetable, metres: u64) -> bool
    requires { HasSteps timetable.now }
    ensures { IsTrue result ↔ AreWholeSteps timetable.now metres }
{
    metres % timetable.space_step_m == 0
}

/// The train advances in a step.
#[derive(Clone, Copy)]
struct NotTooSlow;

impl GridRule<TrainPart> for NotTooSlow {
    ghost takes = { λ r x. x.speed_kmh ≤ 500 };

    ghost holds = { λ r t place x. IsNotTooSlow t place x };

    fn holds(&self, timetable: &Timetable, train: &TrainPart) -> bool {
        0 < advance_of(timetable, train.speed_kmh)
    }
}

/// The train advances no further than a train may.
#[derive(Clone, Copy)]
struct NotTooFast;

impl GridRule<TrainPart> for NotTooFast {
    ghost takes = { λ r x. x.speed_kmh ≤ 500 };

    ghost holds = { λ r t place x. IsNotTooFast t place x };

    fn holds(&self, timetable: &Timetable, train: &TrainPart) -> bool {
        advance_of(timetable, train.speed_kmh) <= u64::from(ADVANCE)
    }
}

/// The train isn't longer than a train may be.
#[derive(Clone, Copy)]
struct NotTooLong;

impl GridRule<TrainPart> for NotTooLong {
    ghost takes = { λ r x. x.speed_kmh ≤ 500 };

    ghost holds = { λ r t place x. IsNotTooLong t place x };

    fn holds(&self, timetable: &Timetable, train: &TrainPart) -> bool {
        cells_of(timetable, train.length_m) <= u64::from(LENGTH)
    }
}

/// The train enters before the horizon.
#[derive(Clone, Copy)]
struct Enters;

impl GridRule<TrainPart> for Enters {
    ghost takes = { λ r x. x.speed_kmh ≤ 500 };

    ghost holds = { λ r t place x. EntersInTime t place x };

    fn holds(&self, timetable: &Timetable, train: &TrainPart) -> bool {
        step_from(timetable, train.entry_s) < step_count(timetable)
    }
}

/// The train may arrive in time.
#[derive(Clone, Copy)]
struct Arrives;

impl GridRule<TrainPart> for Arrives {
    ghost takes = { λ r x. x.speed_kmh ≤ 500 };

    ghost holds = { λ r t place x. ArrivesInTime t x };

    fn holds(&self, timetable: &Timetable, train: &TrainPart) -> bool {
        has_step_until(timetable, train.arrive_s)
            && step_from(timetable, train.entry_s) <= last_step(timetable, train.arrive_s)
    }
}

fn has_step_until(timetable: &Timetable, time_s: Option<u64>) -> bool
    requires { HasSteps timetable.now }
    ensures { IsTrue result ↔ HasStepUntil timetable.now time_s }
{
    match time_s {
        Some(time_s) => 1 <= steps_until(timetable, time_s),
        None => true,
    }
}

/// The train's window of entry isn't over before it may enter.
#[derive(Clone, Copy)]
struct Window;

impl GridRule<TrainPart> for Window {
    ghost takes = { λ r x. x.speed_kmh ≤ 500 };

    ghost holds = { λ r t place x. HasWindow t place x };

    fn holds(&self, timetable: &Timetable, train: &TrainPart) -> bool {
        match train.entry_until_s {
            Some(entry_until_s) => {
                step_from(timetable, train.entry_s) <= steps_until(timetable, entry_until_s)
            }
            None => true,
        }
    }
}

/// Each stop of the train fits between its times.
#[derive(Clone, Copy)]
struct Stops;

impl GridRule<TrainPart> for Stops {
    ghost takes = { λ r x. x.speed_kmh ≤ 500 };

    ghost holds = { λ r t place x. HasTimeForStops t place x };

    fn holds(&self, timetable: &Timetable, train: &TrainPart) -> bool {
        have_time(timetable, train.stops.as_slice())
    }
}

fn have_time(timetable: &Timetable, stops: &[StopPart]) -> bool
    requires { HasSteps timetable.now }
    ensures { IsTrue result ↔ All (HasTimeToStop timetable.now) stops.now }
{
    stops.iter().all(|stop| has_time_to_stop(timetable, *stop))
}

fn has_time_to_stop(timetable: &Timetable, stop: StopPart) -> bool
    requires { HasSteps timetable.now }
    ensures { IsTrue result ↔ HasTimeToStop timetable.now stop }
{
    let dwell = dwell_steps(timetable, stop.dwell_s);
    let until = steps_until(timetable, stop.until_s);
    dwell <= until && step_from(timetable, stop.from_s) <= until - dwell
}
