//! The clauses by which an item touches its cells.
ghost use Rattle.std.specs.Prelude.{◌≡◌, ◌<◌, ◌≤◌, All, length, OnOk, IfErr};
ghost use Rattle.cell_net.specs.declared.cells.DirCell.{DirCell};
ghost use Rattle.clause_list.specs.RunClauses.{touch_clauses};
ghost use Rattle.clause_encoder.specs.Writing.{AreClauses, Takes, IsCause};
ghost use Rattle.clause_encoder.specs.Fitting.{Fits, touching_all, touching_one};

use crate::literals::{is, is_not};
use crate::part::{Part, write_each, write_range};
use crate::train::TrainNumbers;
use crate::writer::{ClauseWriter, WriteFault};
use cell_net::{DirCell, Instance};
use sweep_table::{Moves, SweepId};

/// Writes the clauses by which items touch their cells.
#[tactic(auto, unfolding(clause_list::specs::RunClauses::touch_clauses))]
pub(crate) fn write_touches<M: Moves>(
    inst: &Instance,
    table: &M,
    train: &TrainNumbers,
    writer: &mut ClauseWriter,
) -> Result<(), WriteFault>
    requires fits { Fits (M.items table.now) (M.table table.now inst.now) train.now }
    requires clauses { AreClauses writer.old.vars (touch_clauses (M.table table.now inst.now) train.now) }
    ensures ok { OnOk result (Takes writer.old (touch_clauses (M.table table.now inst.now) train.now) writer.new) }
    ensures err { IfErr result (IsCause writer.old (touch_clauses (M.table table.now inst.now) train.now)) }
{
    let at_step = TouchesAt { inst, table, train };
    write_range(&at_step, train.start(), train.by() + 1, writer)
}

// by step
#[derive(Drop)]
struct TouchesAt<'a, M> {
    inst: &'a Instance,
    table: &'a M,
    train: &'a TrainNumbers,
}

impl<'a, M: Moves> Part for TouchesAt<'a, M> {
    ghost use Rattle.std.specs.Prelude.{◌≤◌};
    ghost use Rattle.clause_list.specs.RunClauses.{touches_at};
    ghost use Rattle.clause_encoder.specs.Fitting.{Fits};

    ghost clauses = { λ p t. touches_at (M.table p.table.now p.inst.now) p.train.now t };

    ghost fits = { λ p place t. Fits (M.items p.table.now) (M.table p.table.now p.inst.now) p.train.now × (p.train.now.start ≤ t) × (t ≤ p.train.now.by) };

    #[tactic(auto, unfolding(clause_list::specs::RunClauses::touches_at))]
    fn write(&self, _place: usize, step: u32, writer: &mut ClauseWriter) -> Result<(), WriteFault> {
        let of_item = TouchesOf {
            inst: self.inst,
            table: self.table,
            train: self.train,
            step,
        };
        write_each(&of_item, self.train.cone(step), writer)
    }
}

// by item of the step
#[derive(Drop)]
struct TouchesOf<'a, M> {
    inst: &'a Instance,
    table: &'a M,
    train: &'a TrainNumbers,
    step: u32,
}

impl<'a, M: Moves> Part for TouchesOf<'a, M> {
    ghost use Rattle.std.specs.Prelude.{◌≡◌, ◌<◌, ◌≤◌, length, slice_index};
    ghost use Rattle.clause_list.specs.Numbers.{cone};
    ghost use Rattle.clause_list.specs.RunClauses.{touches_of};
    ghost use Rattle.clause_encoder.specs.Fitting.{Fits};

    ghost clauses = { λ p w. touches_of (M.table p.table.now p.inst.now) p.train.now p.step w };

    ghost fits = { λ p place w. Fits (M.items p.table.now) (M.table p.table.now p.inst.now) p.train.now × (p.train.now.start ≤ p.step) × (p.step ≤ p.train.now.by) × (place < length (cone p.train.now p.step)) × (slice_index (cone p.train.now p.step) place ≡ w) };

    #[tactic(auto, unfolding(clause_list::specs::RunClauses::touches_of, clause_list::specs::RunClauses::touching))]
    fn write(&self, place: usize, item: u32, writer: &mut ClauseWriter) -> Result<(), WriteFault> {
        let sweep = self.train.sweep_at(self.step, place);
        write_touched(
            self.train,
            self.step,
            sweep,
            self.table.cells(SweepId(item)),
            writer,
        )
    }
}

// Writes that the item of that variable touches each of the cells at the step.
fn write_touched(
    train: &TrainNumbers,
    step: u32,
    sweep: u32,
    cells: &[DirCell],
    writer: &mut ClauseWriter,
) -> Result<(), WriteFault>
    requires after { train.now.start ≤ step }
    requires before { step ≤ train.now.by }
    requires cells { All (λ d. d.cell.0 < train.now.cells) cells.now }
    requires clauses { AreClauses writer.old.vars (touching_all train.now step sweep cells.now) }
    ensures ok { OnOk result (Takes writer.old (touching_all train.now step sweep cells.now) writer.new) }
    ensures err { IfErr result (IsCause writer.old (touching_all train.now step sweep cells.now)) }
{
    for at in 0..cells.len() {
        match write_touching(train, step, sweep, cells[at], writer) {
            Ok(()) => {}
            Err(fault) => return Err(fault),
        }
    }
    Ok(())
}

// Writes that the item of that variable touches the cell at the step.
fn write_touching(
    train: &TrainNumbers,
    step: u32,
    sweep: u32,
    directed: DirCell,
    writer: &mut ClauseWriter,
) -> Result<(), WriteFault>
    requires after { train.now.start ≤ step }
    requires before { step ≤ train.now.by }
    requires cell { directed.cell.0 < train.now.cells }
    requires clauses { AreClauses writer.old.vars (touching_one train.now step sweep directed) }
    ensures ok { OnOk result (Takes writer.old (touching_one train.now step sweep directed) writer.new) }
    ensures err { IfErr result (IsCause writer.old (touching_one train.now step sweep directed)) }
{
    writer.take(&[is_not(sweep), is(train.touch(step, directed.cell.0))])
}
