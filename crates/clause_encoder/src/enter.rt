//! The clauses by which a train enters.
ghost use Rattle.std.specs.Prelude.{◌≡◌, ◌<◌, ◌≤◌, ◌+◌, ◌-◌, ◌∷◌, [], nat_lt, length, slice_index, OnOk, IfErr};
ghost use Rattle.clause_list.specs.Numbers.{cone, waits, is as is_lit, is_not as is_not_lit};
ghost use Rattle.clause_list.specs.RunClauses.{enter, enter_clauses, where_};
ghost use Rattle.clause_encoder.specs.Writing.{AreClauses, Takes, Adds, IsCause};
ghost use Rattle.clause_encoder.specs.Fitting.{Fits, entering};

use crate::literals::{is, is_not};
use crate::part::{Part, write_range};
use crate::train::TrainNumbers;
use crate::writer::{ClauseWriter, WriteFault};
use cell_net::Instance;
use sweep_table::{Moves, SweepId};

/// Writes the clauses by which a train enters.
#[tactic(auto, unfolding(clause_list::specs::RunClauses::enter_clauses))]
pub(crate) fn write_enter<M: Moves>(
    inst: &Instance,
    table: &M,
    train: &TrainNumbers,
    writer: &mut ClauseWriter,
) -> Result<(), WriteFault>
    requires fits { Fits (M.items table.now) (M.table table.now inst.now) train.now }
    requires clauses { AreClauses writer.old.vars (enter_clauses (M.table table.now inst.now) train.now) }
    ensures ok { OnOk result (Takes writer.old (enter_clauses (M.table table.now inst.now) train.now) writer.new) }
    ensures err { IfErr result (IsCause writer.old (enter_clauses (M.table table.now inst.now) train.now)) }
{
    let at_step = EnterAt { inst, table, train };
    write_range(&at_step, train.start(), train.latest() + 1, writer)
}

// by step
#[derive(Drop)]
struct EnterAt<'a, M> {
    inst: &'a Instance,
    table: &'a M,
    train: &'a TrainNumbers,
}

impl<'a, M: Moves> Part for EnterAt<'a, M> {
    ghost use Rattle.std.specs.Prelude.{◌≤◌, ◌∷◌, []};
    ghost use Rattle.clause_list.specs.RunClauses.{enter};
    ghost use Rattle.clause_encoder.specs.Fitting.{Fits};

    ghost clauses = { λ p t. enter (M.table p.table.now p.inst.now) p.train.now t ∷ [] };

    ghost fits = { λ p place t. Fits (M.items p.table.now) (M.table p.table.now p.inst.now) p.train.now × (p.train.now.start ≤ t) × (t ≤ p.train.now.latest) };

    #[tactic(auto, unfolding(crate::specs::Writing::IsCause))]
    fn write(&self, _place: usize, step: u32, writer: &mut ClauseWriter) -> Result<(), WriteFault> {
        match self.put(step, writer) {
            Ok(()) => writer.finish(),
            Err(_) => Err(WriteFault::Memory),
        }
    }
}

impl<'a, M: Moves> EnterAt<'a, M> {
    // Puts the clause of the step together.
    #[tactic(auto, unfolding(clause_list::specs::RunClauses::enter))]
    fn put(&self, step: u32, writer: &mut ClauseWriter) -> Result<(), WriteFault>
        requires fits { Fits (M.items self.now.table.now) (M.table self.now.table.now self.now.inst.now) self.now.train.now }
        requires after { self.now.train.now.start ≤ step }
        requires before { step ≤ self.now.train.now.latest }
        ensures ok { OnOk result (writer.new ≡ record writer.old { open_lits = enter (M.table self.now.table.now self.now.inst.now) self.now.train.now step }) }
        ensures err { IfErr result (λ fault. fault ≡ WriteFault.Memory) }
    {
        writer.start();
        add_waited(self.train, step, writer)?;
        add_entries(self.inst, self.table, self.train, step, writer)?;
        add_waits(self.train, step, writer)
    }
}

// Adds that the train did not wait after the step before, if it could.
fn add_waited(train: &TrainNumbers, step: u32, writer: &mut ClauseWriter) -> Result<(), WriteFault>
    requires { step ≤ train.now.latest }
    ensures ok { OnOk result (Adds writer.old (where_ (nat_lt train.now.start step) (is_not_lit (waits train.now (step - 1)))) writer.new) }
    ensures err { IfErr result (λ fault. fault ≡ WriteFault.Memory) }
{
    if train.start() < step {
        writer.add(is_not(train.waits(step - 1)))
    } else {
        Ok(())
    }
}

// Adds that the train waits after the step, if it can.
fn add_waits(train: &TrainNumbers, step: u32, writer: &mut ClauseWriter) -> Result<(), WriteFault>
    requires { train.now.start ≤ step }
    ensures ok { OnOk result (Adds writer.old (where_ (nat_lt step train.now.latest) (is_lit (waits train.now step))) writer.new) }
    ensures err { IfErr result (λ fault. fault ≡ WriteFault.Memory) }
{
    if step < train.latest() {
        writer.add(is(train.waits(step)))
    } else {
        Ok(())
    }
}

// Adds the entries that the train can have at the step.
fn add_entries<M: Moves>(
    inst: &Instance,
    table: &M,
    train: &TrainNumbers,
    step: u32,
    writer: &mut ClauseWriter,
) -> Result<(), WriteFault>
    requires fits { Fits (M.items table.now) (M.table table.now inst.now) train.now }
    requires after { train.now.start ≤ step }
    requires before { step ≤ train.now.by }
    ensures ok { OnOk result (Adds writer.old (entering (M.table table.now inst.now) train.now step (cone train.now step)) writer.new) }
    ensures err { IfErr result (λ fault. fault ≡ WriteFault.Memory) }
{
    let items = train.cone(step);
    for place in 0..items.len() {
        add_entry(inst, table, train, step, place, items[place], writer)?;
    }
    Ok(())
}

// Adds the item with that place in the cone, if it is an entry.
fn add_entry<M: Moves>(
    inst: &Instance,
    table: &M,
    train: &TrainNumbers,
    step: u32,
    place: usize,
    item: u32,
    writer: &mut ClauseWriter,
) -> Result<(), WriteFault>
    requires item { item < M.items table.now }
    requires after { train.now.start ≤ step }
    requires before { step ≤ train.now.by }
    requires within { place < length (cone train.now step) }
    requires there { slice_index (cone train.now step) place ≡ item }
    ensures ok { OnOk result (Adds writer.old (entering (M.table table.now inst.now) train.now step (item ∷ [])) writer.new) }
    ensures err { IfErr result (λ fault. fault ≡ WriteFault.Memory) }
{
    if table.is_entry(SweepId(item)) {
        writer.add(is(train.sweep_at(step, place)))
    } else {
        Ok(())
    }
}
