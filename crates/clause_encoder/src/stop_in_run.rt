//! The clauses that a stop is met by a run that has entered and not ended.
ghost use Rattle.std.specs.Prelude.{◌<◌, ◌≤◌, ◌^◌, ◌+◌, ◌-◌, length, OnOk, IfErr};
ghost use Rattle.clause_list.specs.StopClauses.{stop_in_run_clauses, stop_after_entry_clauses};
ghost use Rattle.clause_encoder.specs.Writing.{AreClauses, Takes, IsCause};

use crate::beginnings::{end_of_beginnings_of, first_beginning_of};
use crate::literals::is_not;
use crate::part::{Part, write_range};
use crate::train::TrainNumbers;
use crate::writer::{ClauseWriter, WriteFault};

/// Writes the clauses that at the last step of a stop the run has not ended.
#[tactic(auto, unfolding(clause_list::specs::StopClauses::stop_in_run_clauses))]
pub(crate) fn write_stop_in_run(
    train: &TrainNumbers,
    writer: &mut ClauseWriter,
) -> Result<(), WriteFault>
    requires few { length train.now.stops < 2 ^ 32 }
    requires clauses { AreClauses writer.old.vars (stop_in_run_clauses train.now) }
    ensures ok { OnOk result (Takes writer.old (stop_in_run_clauses train.now) writer.new) }
    ensures err { IfErr result (IsCause writer.old (stop_in_run_clauses train.now)) }
{
    let of_stop = StopInRun { train };
    write_range(&of_stop, 0, train.stop_count() as u32, writer)
}

// by stop
#[derive(Drop)]
struct StopInRun<'a> {
    train: &'a TrainNumbers,
}

impl<'a> Part for StopInRun<'a> {
    ghost use Rattle.std.specs.Prelude.{◌<◌, length};
    ghost use Rattle.clause_list.specs.StopClauses.{stops_in_run};

    ghost clauses = { λ p i. stops_in_run p.train.now i };

    ghost fits = { λ p place i. i < length p.train.now.stops };

    fn write(&self, _place: usize, stop: u32, writer: &mut ClauseWriter) -> Result<(), WriteFault> {
        let place = stop as usize;
        let from = StopInRunFrom {
            train: self.train,
            place,
        };
        write_range(
            &from,
            first_beginning_of(self.train, place),
            end_of_beginnings_of(self.train, place),
            writer,
        )
    }
}

// by beginning of the stop
#[derive(Drop)]
struct StopInRunFrom<'a> {
    train: &'a TrainNumbers,
    place: usize,
}

impl<'a> Part for StopInRunFrom<'a> {
    ghost use Rattle.std.specs.Prelude.{◌<◌, ◌≤◌, length};
    ghost use Rattle.clause_list.specs.StopClauses.{stop_at};
    ghost use Rattle.clause_encoder.specs.Meeting.{first_beginning, end_of_beginnings, in_run_at};

    ghost clauses = { λ p s. in_run_at p.train.now p.place s };

    ghost fits = { λ p place s. (p.place < length p.train.now.stops) × (first_beginning p.train.now (stop_at p.train.now p.place) ≤ s) × (s < end_of_beginnings p.train.now (stop_at p.train.now p.place)) };

    #[tactic(auto, unfolding(crate::specs::Meeting::in_run_at, clause_list::specs::StopClauses::stop_in_run))]
    fn write(&self, _place: usize, step: u32, writer: &mut ClauseWriter) -> Result<(), WriteFault> {
        let _by = self.train.by();
        let behind = step + self.train.stop(self.place).dwell;
        if self.train.start() + 1 < behind {
            writer.take(&[
                is_not(self.train.met(self.place, step)),
                is_not(self.train.ended(behind - 1)),
            ])
        } else {
            Ok(())
        }
    }
}

/// Writes the clauses that a stop is not met from a step on after which the run begins.
#[tactic(auto, unfolding(clause_list::specs::StopClauses::stop_after_entry_clauses))]
pub(crate) fn write_stop_after_entry(
    train: &TrainNumbers,
    writer: &mut ClauseWriter,
) -> Result<(), WriteFault>
    requires few { length train.now.stops < 2 ^ 32 }
    requires clauses { AreClauses writer.old.vars (stop_after_entry_clauses train.now) }
    ensures ok { OnOk result (Takes writer.old (stop_after_entry_clauses train.now) writer.new) }
    ensures err { IfErr result (IsCause writer.old (stop_after_entry_clauses train.now)) }
{
    let of_stop = StopAfterEntry { train };
    write_range(&of_stop, 0, train.stop_count() as u32, writer)
}

// by stop
#[derive(Drop)]
struct StopAfterEntry<'a> {
    train: &'a TrainNumbers,
}

impl<'a> Part for StopAfterEntry<'a> {
    ghost use Rattle.std.specs.Prelude.{◌<◌, length};
    ghost use Rattle.clause_list.specs.StopClauses.{entered_before};

    ghost clauses = { λ p i. entered_before p.train.now i };

    ghost fits = { λ p place i. i < length p.train.now.stops };

    fn write(&self, _place: usize, stop: u32, writer: &mut ClauseWriter) -> Result<(), WriteFault> {
        let place = stop as usize;
        let from = StopAfterEntryFrom {
            train: self.train,
            place,
        };
        write_range(
            &from,
            first_beginning_of(self.train, place),
            end_of_beginnings_of(self.train, place),
            writer,
        )
    }
}

// by beginning of the stop
#[derive(Drop)]
struct StopAfterEntryFrom<'a> {
    train: &'a TrainNumbers,
    place: usize,
}

impl<'a> Part for StopAfterEntryFrom<'a> {
    ghost use Rattle.std.specs.Prelude.{◌<◌, ◌≤◌, length};
    ghost use Rattle.clause_list.specs.StopClauses.{stop_at};
    ghost use Rattle.clause_encoder.specs.Meeting.{first_beginning, end_of_beginnings, entered_at};

    ghost clauses = { λ p s. entered_at p.train.now p.place s };

    ghost fits = { λ p place s. (p.place < length p.train.now.stops) × (first_beginning p.train.now (stop_at p.train.now p.place) ≤ s) × (s < end_of_beginnings p.train.now (stop_at p.train.now p.place)) };

    #[tactic(auto, unfolding(crate::specs::Meeting::entered_at, clause_list::specs::StopClauses::entered))]
    fn write(&self, _place: usize, step: u32, writer: &mut ClauseWriter) -> Result<(), WriteFault> {
        if step < self.train.latest() {
            writer.take(&[
                is_not(self.train.met(self.place, step)),
                is_not(self.train.waits(step)),
            ])
        } else {
            Ok(())
        }
    }
}
