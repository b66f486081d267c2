//! The clauses that each stop is met.
ghost use Rattle.std.specs.Prelude.{◌≡◌, ◌<◌, ◌^◌, length, OnOk, IfErr};
ghost use Rattle.clause_list.specs.StopClauses.{stop_at, stop_met, stop_met_clauses};
ghost use Rattle.clause_encoder.specs.Writing.{AreClauses, Takes, Adds, IsCause};
ghost use Rattle.clause_encoder.specs.Meeting.{first_beginning, end_of_beginnings, met_from};

use crate::beginnings::{end_of_beginnings_of, first_beginning_of};
use crate::literals::is;
use crate::part::{Part, write_range};
use crate::train::TrainNumbers;
use crate::writer::{ClauseWriter, WriteFault};

/// Writes the clauses that each stop is met from some step on.
#[tactic(auto, unfolding(clause_list::specs::StopClauses::stop_met_clauses))]
pub(crate) fn write_stop_met(
    train: &TrainNumbers,
    writer: &mut ClauseWriter,
) -> Result<(), WriteFault>
    requires few { length train.now.stops < 2 ^ 32 }
    requires clauses { AreClauses writer.old.vars (stop_met_clauses train.now) }
    ensures ok { OnOk result (Takes writer.old (stop_met_clauses train.now) writer.new) }
    ensures err { IfErr result (IsCause writer.old (stop_met_clauses train.now)) }
{
    let of_stop = StopMet { train };
    write_range(&of_stop, 0, train.stop_count() as u32, writer)
}

// by stop
#[derive(Drop)]
struct StopMet<'a> {
    train: &'a TrainNumbers,
}

impl<'a> Part for StopMet<'a> {
    ghost use Rattle.std.specs.Prelude.{◌<◌, [], ◌∷◌, length};
    ghost use Rattle.clause_list.specs.StopClauses.{stop_met};

    ghost clauses = { λ p i. stop_met p.train.now i ∷ [] };

    ghost fits = { λ p place i. i < length p.train.now.stops };

    #[tactic(auto, unfolding(crate::specs::Writing::IsCause))]
    fn write(&self, _place: usize, stop: u32, writer: &mut ClauseWriter) -> Result<(), WriteFault> {
        match put_beginnings(self.train, stop as usize, writer) {
            Ok(()) => writer.finish(),
            Err(_) => Err(WriteFault::Memory),
        }
    }
}

// Puts the clause of the stop together.
#[tactic(auto, unfolding(clause_list::specs::StopClauses::stop_met))]
fn put_beginnings(
    train: &TrainNumbers,
    place: usize,
    writer: &mut ClauseWriter,
) -> Result<(), WriteFault>
    requires { place < length train.now.stops }
    ensures ok { OnOk result (writer.new ≡ record writer.old { open_lits = stop_met train.now place }) }
    ensures err { IfErr result (λ fault. fault ≡ WriteFault.Memory) }
{
    writer.start();
    add_beginnings(
        train,
        place,
        first_beginning_of(train, place),
        end_of_beginnings_of(train, place),
        writer,
    )
}

// Adds that the stop is met from each of the steps on.
fn add_beginnings(
    train: &TrainNumbers,
    place: usize,
    first: u32,
    end: u32,
    writer: &mut ClauseWriter,
) -> Result<(), WriteFault>
    requires place { place < length train.now.stops }
    requires first { first ≡ first_beginning train.now (stop_at train.now place) }
    requires end { end ≡ end_of_beginnings train.now (stop_at train.now place) }
    ensures ok { OnOk result (Adds writer.old (met_from train.now place first end) writer.new) }
    ensures err { IfErr result (λ fault. fault ≡ WriteFault.Memory) }
{
    for step in first..end {
        writer.add(is(train.met(place, step)))?;
    }
    Ok(())
}
