//! The numbers of a train's variables.
ghost use Rattle.std.specs.Prelude.{◌≡◌, ◌+◌, ◌-◌, ◌<◌, ◌≤◌, length, slice_index, nat_eq, min, max, true, false, IsNone, OnSome, IfSome};
ghost use Rattle.std.specs.List.{list_any};
ghost use Rattle.clause_list.specs.Numbers.{CodedTrain, cone, sweep, touch, run_ended, waits, behind_train};
ghost use Rattle.clause_list.specs.StopClauses.{stop_at, meets};
ghost use Rattle.clause_encoder.specs.TrainStore.{IsRising, IsKeptTrain};

use crate::place::place_in;
use cell_net::StopSpec;
use std::marker::Model;
use vss_lists::Items;
use vss_rows::Rows;

/// The numbers of a train's variables. Storage is four bytes an item of a cone, four a step, and 20 a stop. No call takes
/// memory.
#[derive(Debug, Drop)]
pub struct TrainNumbers {
    pub(crate) start: u32,
    pub(crate) latest: u32,
    pub(crate) by: u32,
    pub(crate) cells: u32,
    pub(crate) stops: Items<StopSpec>,
    pub(crate) cones: Rows<u32>,
    /// The first number of each step's items.
    pub(crate) of_steps: Vec<u32>,
    /// The first number of each stop's beginnings.
    pub(crate) of_stops: Vec<u32>,
    pub(crate) first: u32,
    pub(crate) first_touch: u32,
    pub(crate) first_ended: u32,
    pub(crate) first_waits: u32,
    pub(crate) behind: u32,
}

impl Model for TrainNumbers {
    ghost use Rattle.clause_list.specs.Numbers.{CodedTrain};
    ghost use Rattle.clause_encoder.specs.TrainStore.{IsTrainStore};

    ghost Value = { CodedTrain };

    ghost view = { λ a. record { start = a.start; latest = a.latest; by = a.by; stops = a.stops; cones = a.cones; cells = a.cells; first = a.first } };

    ghost invariant = { λ a. IsTrainStore (record { start = a.start; latest = a.latest; by = a.by; stops = a.stops; cones = a.cones; cells = a.cells; first = a.first }) a.of_steps.items a.of_stops.items a.first_touch a.first_ended a.first_waits a.behind };
}

impl TrainNumbers {
    /// The first step at which the train may enter.
    pub fn start(&self) -> u32
        ensures value { result ≡ self.now.start }
        ensures kept { IsKeptTrain self.now }
    {
        self.start
    }

    /// The last step at which the train may enter.
    pub fn latest(&self) -> u32
        ensures value { result ≡ self.now.latest }
        ensures kept { IsKeptTrain self.now }
    {
        self.latest
    }

    /// The last step at which the train may be there.
    pub fn by(&self) -> u32
        ensures value { result ≡ self.now.by }
        ensures kept { IsKeptTrain self.now }
    {
        self.by
    }

    /// How many cells there are.
    pub fn cells(&self) -> u32
        ensures { result ≡ self.now.cells }
    {
        self.cells
    }

    /// The number behind those of the train.
    pub fn behind(&self) -> u32
        ensures { result ≡ behind_train self.now }
    {
        self.behind
    }

    /// The items that the train can have at a step, rising.
    pub fn cone(&self, step: u32) -> &[u32]
        requires after { self.now.start ≤ step }
        requires before { step ≤ self.now.by }
        ensures value { result.now ≡ cone self.now step }
        ensures rising { IsRising (cone self.now step) }
    {
        self.cones.row((step - self.start) as usize)
    }

    /// The variable of the item with that place in the cone of the step.
    pub fn sweep_at(&self, step: u32, place: usize) -> u32
        requires after { self.now.start ≤ step }
        requires before { step ≤ self.now.by }
        requires within { place < length (cone self.now step) }
        ensures { result ≡ sweep self.now step (slice_index (cone self.now step) place) }
    {
        self.of_steps[(step - self.start) as usize] + place as u32
    }

    /// The variable of the item at the step, if the train can have it there; logarithmic in the cone.
    pub fn sweep(&self, step: u32, item: u32) -> Option<u32>
        requires after { self.now.start ≤ step }
        requires before { step ≤ self.now.by }
        ensures none { IsNone result → list_any (nat_eq item) (cone self.now step) ≡ false }
        ensures some { OnSome result (list_any (nat_eq item) (cone self.now step) ≡ true) }
        ensures value { IfSome result (λ number. number ≡ sweep self.now step item) }
    {
        match place_in(self.cone(step), item) {
            Some(place) => Some(self.sweep_at(step, place)),
            None => None,
        }
    }

    /// The variable of touching the cell at the step.
    pub fn touch(&self, step: u32, cell: u32) -> u32
        requires after { self.now.start ≤ step }
        requires before { step ≤ self.now.by }
        requires within { cell < self.now.cells }
        ensures { result ≡ touch self.now step cell }
    {
        self.first_touch + (step - self.start) * self.cells + cell
    }

    /// The variable of having ended before the step.
    pub fn ended(&self, step: u32) -> u32
        requires after { self.now.start < step }
        requires before { step ≤ self.now.by }
        ensures { result ≡ run_ended self.now step }
    {
        self.first_ended + (step - (self.start + 1))
    }

    /// The variable of entering after the step.
    pub fn waits(&self, step: u32) -> u32
        requires after { self.now.start ≤ step }
        requires before { step < self.now.latest }
        ensures { result ≡ waits self.now step }
    {
        self.first_waits + (step - self.start)
    }

    /// How many stops the train has.
    pub fn stop_count(&self) -> usize
        ensures { result ≡ length self.now.stops }
    {
        self.stops.len()
    }

    /// The stop of that place.
    pub fn stop(&self, place: usize) -> StopSpec
        requires { place < length self.now.stops }
        ensures { result ≡ stop_at self.now place }
    {
        self.stops.as_slice()[place]
    }

    /// The variable of meeting the stop of that place from the step on.
    pub fn met(&self, place: usize, step: u32) -> u32
        requires within { place < length self.now.stops }
        requires after { max (stop_at self.now place).from self.now.start ≤ step }
        requires before { step < min (stop_at self.now place).until (self.now.by + 1) + 1 - (stop_at self.now place).dwell }
        ensures { result ≡ meets self.now place step }
    {
        let from = later(self.stop(place).from, self.start);
        self.of_stops[place] + (step - from)
    }
}

/// The later of two steps.
pub(crate) fn later(one: u32, other: u32) -> u32
    ensures { result ≡ max one other }
{
    if one < other { other } else { one }
}

/// The earlier of two steps.
pub(crate) fn earlier(one: u32, other: u32) -> u32
    ensures { result ≡ min one other }
{
    if one < other { one } else { other }
}
