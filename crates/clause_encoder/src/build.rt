//! How the numbers of a train's variables are made.
ghost use Rattle.std.specs.Prelude.{◌≡◌, ◌<◌, ◌≤◌, ◌+◌, ◌-◌, map, sum_by, take, length, All, IfOk, IfErr};
ghost use Rattle.clause_list.specs.Ranges.{from_below};
ghost use Rattle.clause_list.specs.Numbers.{behind_train};
ghost use Rattle.clause_list.specs.Coding.{coded};
ghost use Rattle.clause_encoder.specs.declared.limits.TheConstants.{VARIABLES};
ghost use Rattle.clause_encoder.specs.TrainStore.{IsRising, beginning_count, step_number, stop_number};
ghost use Rattle.clause_encoder.specs.TrainFaults.{IsNumberFault, IsInWindow, coded_over};

use crate::gather::{GatherFault, gather_cones};
use crate::limits::VARIABLES;
use crate::train::{TrainNumbers, earlier, later};
use cell_net::{Instance, StopSpec, TrainSpec};
use std::alloc::{AllocError, Global};
use sweep_table::Moves;
use vss_lists::Items;
use vss_rows::Rows;

/// Why a train has no numbers: they would be above 2,000,000, or for want of memory.
#[derive(Clone, Copy, Debug, PartialEq, Eq)]
pub enum NumberFault {
    TooMany,
    Memory,
}

impl TrainNumbers {
    /// The numbers of the train's variables from `first` on, by the table of its moves. Beside gathering its cones, linear in
    /// its steps and stops.
    pub fn build<M: Moves>(
        alloc: Global,
        inst: &Instance,
        table: &M,
        train: &TrainSpec,
        first: u32,
    ) -> Result<TrainNumbers, NumberFault>
        requires made_for { M.is_made_for table.now inst.now }
        requires window { IsInWindow train.now }
        requires first { (1 ≤ first) × (first ≤ VARIABLES + 1) }
        ensures ok { IfOk result (λ a. a ≡ coded inst.now first (M.table table.now inst.now) train.now) }
        ensures few { IfOk result (λ a. behind_train a ≤ VARIABLES + 1) }
        ensures err { IfErr result (IsNumberFault (behind_train (coded inst.now first (M.table table.now inst.now) train.now))) }
    {
        let window = train.latest - train.start;
        let last = train.by - train.start;
        match gather_cones(alloc, inst, table, window, last) {
            Ok(cones) => numbered(alloc, inst, train, first, cones),
            Err(GatherFault::TooMany) => Err(NumberFault::TooMany),
            Err(GatherFault::Memory) => Err(NumberFault::Memory),
        }
    }
}

// The numbers of the train's variables, where its cones are known.
fn numbered(
    alloc: Global,
    inst: &Instance,
    train: &TrainSpec,
    first: u32,
    cones: Rows<u32>,
) -> Result<TrainNumbers, NumberFault>
    requires window { IsInWindow train.now }
    requires first { (1 ≤ first) × (first ≤ VARIABLES + 1) }
    requires for_each { length cones ≡ train.now.by + 1 - train.now.start }
    requires rising { All IsRising cones }
    requires few { sum_by length cones ≤ VARIABLES }
    ensures ok { IfOk result (λ a. a ≡ coded_over inst.now first cones train.now) }
    ensures few { IfOk result (λ a. behind_train a ≤ VARIABLES + 1) }
    ensures err { IfErr result (IsNumberFault (behind_train (coded_over inst.now first cones train.now))) }
{
    let last = train.by - train.start;
    let (of_steps, first_touch) = match steps_of(alloc, &cones, first) {
        Ok(steps) => steps,
        Err(_) => return Err(NumberFault::Memory),
    };
    let first_ended = first_touch + (last + 1) * inst.cell_count();
    let (of_stops, first_waits) = match stops_of(alloc, train, first_ended + last) {
        Ok(stops) => stops,
        Err(fault) => return Err(fault),
    };
    let behind = first_waits + (train.latest - train.start);
    if behind > VARIABLES + 1 {
        return Err(NumberFault::TooMany);
    }
    let stops = match copied(alloc, train.stops.as_slice()) {
        Ok(stops) => stops,
        Err(_) => return Err(NumberFault::Memory),
    };
    Ok(TrainNumbers {
        start: train.start,
        latest: train.latest,
        by: train.by,
        cells: inst.cell_count(),
        stops,
        cones,
        of_steps,
        of_stops,
        first,
        first_touch,
        first_ended,
        first_waits,
        behind,
    })
}

// The stops once more.
fn copied(alloc: Global, stops: &[StopSpec]) -> Result<Items<StopSpec>, AllocError>
    ensures { IfOk result (λ copy. copy ≡ stops.now) }
{
    let mut copy = Vec::new(alloc);
    copy.extend_from_slice(stops)?;
    Ok(Items::from_vec(copy))
}

// For each step the number of its first variable, and the number behind them all.
fn steps_of(alloc: Global, cones: &Rows<u32>, first: u32) -> Result<(Vec<u32>, u32), AllocError>
    requires first { first ≤ VARIABLES + 1 }
    requires few { sum_by length cones.now ≤ VARIABLES }
    ensures steps { IfOk result (λ steps. steps.0.items ≡ map (step_number first cones.now) (from_below 0 (length cones.now))) }
    ensures behind { IfOk result (λ steps. steps.1 ≡ first + sum_by length cones.now) }
{
    let mut numbers = Vec::new(alloc);
    let mut next = first;
    for step in 0..cones.len() {
        numbers.push(next)?;
        next += size_of(cones, step);
    }
    Ok((numbers, next))
}

// How many items there are at the step.
fn size_of(cones: &Rows<u32>, step: usize) -> u32
    requires within { step < length cones.now }
    requires few { sum_by length cones.now ≤ VARIABLES }
    ensures few { sum_by length (take step cones.now) + result ≤ sum_by length cones.now }
    ensures more { sum_by length (take (step + 1) cones.now) ≡ sum_by length (take step cones.now) + result }
{
    cones.row(step).len() as u32
}

// For each stop the number of its first variable, and the number behind them all.
fn stops_of(alloc: Global, train: &TrainSpec, first: u32) -> Result<(Vec<u32>, u32), NumberFault>
    requires window { IsInWindow train.now }
    ensures stops { IfOk result (λ stops. stops.0.items ≡ map (stop_number train.now.start train.now.by first train.now.stops) (from_below 0 (length train.now.stops))) }
    ensures behind { IfOk result (λ stops. stops.1 ≡ first + sum_by (beginning_count train.now.start train.now.by) train.now.stops) }
    ensures few { IfOk result (λ stops. stops.1 ≤ VARIABLES + 1) }
    ensures err { IfErr result (IsNumberFault (first + sum_by (beginning_count train.now.start train.now.by) train.now.stops)) }
{
    if first > VARIABLES + 1 {
        return Err(NumberFault::TooMany);
    }
    let mut numbers = Vec::new(alloc);
    let mut next = first;
    let stops = train.stops.as_slice();
    for place in 0..stops.len() {
        match numbers.push(next) {
            Ok(()) => {}
            Err(_) => return Err(NumberFault::Memory),
        }
        let count = count_of(train.start, train.by, stops[place]);
        if count > VARIABLES + 1 - next {
            return Err(NumberFault::TooMany);
        }
        next += count;
    }
    Ok((numbers, next))
}

// How many steps there are from which on the stop can be met.
fn count_of(start: u32, by: u32, stop: StopSpec) -> u32
    requires { by < 400 }
    ensures { result ≡ beginning_count start by stop }
{
    let end = (earlier(stop.until, by + 1) + 1).saturating_sub(stop.dwell);
    end.saturating_sub(later(stop.from, start))
}
