//! The clauses that a train stands in the station while it meets a stop.
ghost use Rattle.std.specs.Prelude.{◌≡◌, ◌<◌, ◌≤◌, ◌^◌, ◌+◌, length, OnOk, IfErr};
ghost use Rattle.clause_list.specs.StopClauses.{stand_clauses};
ghost use Rattle.clause_encoder.specs.Writing.{AreClauses, Takes, IsCause};
ghost use Rattle.clause_encoder.specs.Fitting.{Fits, HasStations};

use crate::beginnings::{end_of_beginnings_of, first_beginning_of};
use crate::literals::is_not;
use crate::part::{Part, write_each, write_range};
use crate::train::TrainNumbers;
use crate::writer::{ClauseWriter, WriteFault};
use cell_net::Instance;
use sweep_table::{Moves, SweepId};

/// Writes the clauses that while a stop is met the train has no item that doesn't stand in its station.
#[tactic(auto, unfolding(clause_list::specs::StopClauses::stand_clauses))]
pub(crate) fn write_stand<M: Moves>(
    inst: &Instance,
    table: &M,
    train: &TrainNumbers,
    writer: &mut ClauseWriter,
) -> Result<(), WriteFault>
    requires fits { Fits (M.items table.now) (M.table table.now inst.now) train.now }
    requires stations { HasStations (length inst.now.stations) train.now }
    requires few { length train.now.stops < 2 ^ 32 }
    requires clauses { AreClauses writer.old.vars (stand_clauses (M.table table.now inst.now) train.now) }
    ensures ok { OnOk result (Takes writer.old (stand_clauses (M.table table.now inst.now) train.now) writer.new) }
    ensures err { IfErr result (IsCause writer.old (stand_clauses (M.table table.now inst.now) train.now)) }
{
    let of_stop = Stand { inst, table, train };
    write_range(&of_stop, 0, train.stop_count() as u32, writer)
}

// by stop
#[derive(Drop)]
struct Stand<'a, M> {
    inst: &'a Instance,
    table: &'a M,
    train: &'a TrainNumbers,
}

impl<'a, M: Moves> Part for Stand<'a, M> {
    ghost use Rattle.std.specs.Prelude.{◌<◌, length};
    ghost use Rattle.clause_list.specs.StopClauses.{stands_while};
    ghost use Rattle.clause_encoder.specs.Fitting.{Fits, HasStations};

    ghost clauses = { λ p i. stands_while (M.table p.table.now p.inst.now) p.train.now i };

    ghost fits = { λ p place i. Fits (M.items p.table.now) (M.table p.table.now p.inst.now) p.train.now × HasStations (length p.inst.now.stations) p.train.now × (i < length p.train.now.stops) };

    #[tactic(auto, unfolding(clause_list::specs::StopClauses::stands_while))]
    fn write(&self, _place: usize, stop: u32, writer: &mut ClauseWriter) -> Result<(), WriteFault> {
        let place = stop as usize;
        let from = StandFrom {
            inst: self.inst,
            table: self.table,
            train: self.train,
            place,
        };
        write_range(
            &from,
            first_beginning_of(self.train, place),
            end_of_beginnings_of(self.train, place),
            writer,
        )
    }
}

// by beginning of the stop
#[derive(Drop)]
struct StandFrom<'a, M> {
    inst: &'a Instance,
    table: &'a M,
    train: &'a TrainNumbers,
    place: usize,
}

impl<'a, M: Moves> Part for StandFrom<'a, M> {
    ghost use Rattle.std.specs.Prelude.{◌<◌, ◌≤◌, length};
    ghost use Rattle.clause_list.specs.StopClauses.{stop_at, stands_from};
    ghost use Rattle.clause_encoder.specs.Meeting.{first_beginning, end_of_beginnings};
    ghost use Rattle.clause_encoder.specs.Fitting.{Fits, HasStations};

    ghost clauses = { λ p s. stands_from (M.table p.table.now p.inst.now) p.train.now p.place s };

    ghost fits = { λ p place s. Fits (M.items p.table.now) (M.table p.table.now p.inst.now) p.train.now × HasStations (length p.inst.now.stations) p.train.now × (p.place < length p.train.now.stops) × (first_beginning p.train.now (stop_at p.train.now p.place) ≤ s) × (s < end_of_beginnings p.train.now (stop_at p.train.now p.place)) };

    #[tactic(auto, unfolding(clause_list::specs::StopClauses::stands_from))]
    fn write(&self, _place: usize, step: u32, writer: &mut ClauseWriter) -> Result<(), WriteFault> {
        let _by = self.train.by();
        let at_step = StandAt {
            inst: self.inst,
            table: self.table,
            train: self.train,
            place: self.place,
            from: step,
        };
        let behind = step + self.train.stop(self.place).dwell;
        write_range(&at_step, step, behind, writer)
    }
}

// by step of the stop
#[derive(Drop)]
struct StandAt<'a, M> {
    inst: &'a Instance,
    table: &'a M,
    train: &'a TrainNumbers,
    place: usize,
    from: u32,
}

impl<'a, M: Moves> Part for StandAt<'a, M> {
    ghost use Rattle.std.specs.Prelude.{◌<◌, ◌≤◌, length};
    ghost use Rattle.clause_list.specs.StopClauses.{stop_at, stands_at};
    ghost use Rattle.clause_encoder.specs.Meeting.{first_beginning, end_of_beginnings};
    ghost use Rattle.clause_encoder.specs.Fitting.{Fits, HasStations};

    ghost clauses = { λ p t. stands_at (M.table p.table.now p.inst.now) p.train.now p.place p.from t };

    ghost fits = { λ p place t. Fits (M.items p.table.now) (M.table p.table.now p.inst.now) p.train.now × HasStations (length p.inst.now.stations) p.train.now × (p.place < length p.train.now.stops) × (first_beginning p.train.now (stop_at p.train.now p.place) ≤ p.from) × (p.from < end_of_beginnings p.train.now (stop_at p.train.now p.place)) × (p.train.now.start ≤ t) × (t ≤ p.train.now.by) };

    fn write(&self, _place: usize, step: u32, writer: &mut ClauseWriter) -> Result<(), WriteFault> {
        let of_item = StandOf {
            inst: self.inst,
            table: self.table,
            train: self.train,
            place: self.place,
            from: self.from,
            step,
        };
        write_each(&of_item, self.train.cone(step), writer)
    }
}

// by item of the step
#[derive(Drop)]
struct StandOf<'a, M> {
    inst: &'a Instance,
    table: &'a M,
    train: &'a TrainNumbers,
    place: usize,
    from: u32,
    step: u32,
}

impl<'a, M: Moves> Part for StandOf<'a, M> {
    ghost use Rattle.std.specs.Prelude.{◌≡◌, ◌<◌, ◌≤◌, length, slice_index};
    ghost use Rattle.clause_list.specs.Numbers.{cone};
    ghost use Rattle.clause_list.specs.StopClauses.{stop_at};
    ghost use Rattle.clause_encoder.specs.Meeting.{first_beginning, end_of_beginnings, stand_at};

    ghost clauses = { λ p w. stand_at (M.table p.table.now p.inst.now) p.train.now p.place p.from p.step w };

    ghost fits = { λ p place w. (w < M.items p.table.now) × ((stop_at p.train.now p.place).station.0 < length p.inst.now.stations) × (p.place < length p.train.now.stops) × (first_beginning p.train.now (stop_at p.train.now p.place) ≤ p.from) × (p.from < end_of_beginnings p.train.now (stop_at p.train.now p.place)) × (p.train.now.start ≤ p.step) × (p.step ≤ p.train.now.by) × (place < length (cone p.train.now p.step)) × (slice_index (cone p.train.now p.step) place ≡ w) };

    #[tactic(auto, unfolding(crate::specs::Meeting::stand_at, clause_list::specs::StopClauses::stand))]
    fn write(&self, place: usize, item: u32, writer: &mut ClauseWriter) -> Result<(), WriteFault> {
        let station = self.train.stop(self.place).station;
        if self.table.stands_in(SweepId(item), self.inst, station) {
            Ok(())
        } else {
            writer.take(&[
                is_not(self.train.met(self.place, self.from)),
                is_not(self.train.sweep_at(self.step, place)),
            ])
        }
    }
}
