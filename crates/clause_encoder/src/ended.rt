//! The clauses of a run that has ended: it stays ended, and has no item.
ghost use Rattle.std.specs.Prelude.{◌≡◌, ◌<◌, ◌≤◌, ◌+◌, OnOk, IfErr};
ghost use Rattle.clause_list.specs.RunClauses.{stay_ended_clauses, gone_clauses};
ghost use Rattle.clause_encoder.specs.Writing.{AreClauses, Takes, IsCause};

use crate::literals::{is, is_not};
use crate::part::{Part, write_each, write_range};
use crate::train::TrainNumbers;
use crate::writer::{ClauseWriter, WriteFault};

/// Writes the clauses by which an ended run stays ended.
#[tactic(auto, unfolding(clause_list::specs::RunClauses::stay_ended_clauses))]
pub(crate) fn write_stay_ended(
    train: &TrainNumbers,
    writer: &mut ClauseWriter,
) -> Result<(), WriteFault>
    requires clauses { AreClauses writer.old.vars (stay_ended_clauses train.now) }
    ensures ok { OnOk result (Takes writer.old (stay_ended_clauses train.now) writer.new) }
    ensures err { IfErr result (IsCause writer.old (stay_ended_clauses train.now)) }
{
    let at_step = StayEndedAt { train };
    write_range(&at_step, train.start() + 1, train.by(), writer)
}

// by step
#[derive(Drop)]
struct StayEndedAt<'a> {
    train: &'a TrainNumbers,
}

impl<'a> Part for StayEndedAt<'a> {
    ghost use Rattle.std.specs.Prelude.{◌<◌, [], ◌∷◌};
    ghost use Rattle.clause_list.specs.RunClauses.{stay_ended};

    ghost clauses = { λ p t. stay_ended p.train.now t ∷ [] };

    ghost fits = { λ p place t. (p.train.now.start < t) × (t < p.train.now.by) };

    #[tactic(auto, unfolding(clause_list::specs::RunClauses::stay_ended))]
    fn write(&self, _place: usize, step: u32, writer: &mut ClauseWriter) -> Result<(), WriteFault> {
        let _by = self.train.by();
        writer.take(&[
            is_not(self.train.ended(step)),
            is(self.train.ended(step + 1)),
        ])
    }
}

/// Writes the clauses by which an ended run has no item.
#[tactic(auto, unfolding(clause_list::specs::RunClauses::gone_clauses))]
pub(crate) fn write_gone(train: &TrainNumbers, writer: &mut ClauseWriter) -> Result<(), WriteFault>
    requires clauses { AreClauses writer.old.vars (gone_clauses train.now) }
    ensures ok { OnOk result (Takes writer.old (gone_clauses train.now) writer.new) }
    ensures err { IfErr result (IsCause writer.old (gone_clauses train.now)) }
{
    let at_step = GoneAt { train };
    write_range(&at_step, train.start() + 1, train.by() + 1, writer)
}

// by step
#[derive(Drop)]
struct GoneAt<'a> {
    train: &'a TrainNumbers,
}

impl<'a> Part for GoneAt<'a> {
    ghost use Rattle.std.specs.Prelude.{◌<◌, ◌≤◌};
    ghost use Rattle.clause_list.specs.RunClauses.{gone_at};

    ghost clauses = { λ p t. gone_at p.train.now t };

    ghost fits = { λ p place t. (p.train.now.start < t) × (t ≤ p.train.now.by) };

    #[tactic(auto, unfolding(clause_list::specs::RunClauses::gone_at))]
    fn write(&self, _place: usize, step: u32, writer: &mut ClauseWriter) -> Result<(), WriteFault> {
        let of_item = Gone {
            train: self.train,
            step,
        };
        write_each(&of_item, self.train.cone(step), writer)
    }
}

// by item of the step
#[derive(Drop)]
struct Gone<'a> {
    train: &'a TrainNumbers,
    step: u32,
}

impl<'a> Part for Gone<'a> {
    ghost use Rattle.std.specs.Prelude.{◌≡◌, ◌<◌, ◌≤◌, [], ◌∷◌, length, slice_index};
    ghost use Rattle.clause_list.specs.Numbers.{cone};
    ghost use Rattle.clause_list.specs.RunClauses.{gone};

    ghost clauses = { λ p w. gone p.train.now p.step w ∷ [] };

    ghost fits = { λ p place w. (p.train.now.start < p.step) × (p.step ≤ p.train.now.by) × (place < length (cone p.train.now p.step)) × (slice_index (cone p.train.now p.step) place ≡ w) };

    #[tactic(auto, unfolding(clause_list::specs::RunClauses::gone))]
    fn write(&self, place: usize, _item: u32, writer: &mut ClauseWriter) -> Result<(), WriteFault> {
        writer.take(&[
            is_not(self.train.ended(self.step)),
            is_not(self.train.sweep_at(self.step, place)),
        ])
    }
}
