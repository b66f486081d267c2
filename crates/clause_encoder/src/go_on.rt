//! The clauses by which a run goes on: after an item comes one of those that may, or it is a goal and the run ends.
ghost use Rattle.std.specs.Prelude.{◌≡◌, ◌<◌, ◌≤◌, ◌∷◌, [], ◌+◌, length, slice_index, OnOk, IfErr};
ghost use Rattle.clause_list.specs.Numbers.{cone, sweep, is as is_lit};
ghost use Rattle.clause_list.specs.RunClauses.{go_on, go_on_clauses, where_, followers};
ghost use Rattle.clause_encoder.specs.Writing.{AreClauses, Takes, Adds, IsCause};
ghost use Rattle.clause_encoder.specs.Fitting.{Fits};

use crate::literals::{is, is_not};
use crate::part::{Part, write_each, write_range};
use crate::train::TrainNumbers;
use crate::writer::{ClauseWriter, WriteFault};
use cell_net::Instance;
use sweep_table::{Moves, SweepId};

/// Writes the clauses by which a train goes on.
#[tactic(auto, unfolding(clause_list::specs::RunClauses::go_on_clauses))]
pub(crate) fn write_go_on<M: Moves>(
    inst: &Instance,
    table: &M,
    train: &TrainNumbers,
    writer: &mut ClauseWriter,
) -> Result<(), WriteFault>
    requires fits { Fits (M.items table.now) (M.table table.now inst.now) train.now }
    requires clauses { AreClauses writer.old.vars (go_on_clauses (M.table table.now inst.now) train.now) }
    ensures ok { OnOk result (Takes writer.old (go_on_clauses (M.table table.now inst.now) train.now) writer.new) }
    ensures err { IfErr result (IsCause writer.old (go_on_clauses (M.table table.now inst.now) train.now)) }
{
    let at_step = GoOnAt { inst, table, train };
    write_range(&at_step, train.start(), train.by(), writer)
}

// by step
#[derive(Drop)]
struct GoOnAt<'a, M> {
    inst: &'a Instance,
    table: &'a M,
    train: &'a TrainNumbers,
}

impl<'a, M: Moves> Part for GoOnAt<'a, M> {
    ghost use Rattle.std.specs.Prelude.{◌≤◌, ◌<◌};
    ghost use Rattle.clause_list.specs.RunClauses.{goes_on_at};
    ghost use Rattle.clause_encoder.specs.Fitting.{Fits};

    ghost clauses = { λ p t. goes_on_at (M.table p.table.now p.inst.now) p.train.now t };

    ghost fits = { λ p place t. Fits (M.items p.table.now) (M.table p.table.now p.inst.now) p.train.now × (p.train.now.start ≤ t) × (t < p.train.now.by) };

    #[tactic(auto, unfolding(clause_list::specs::RunClauses::goes_on_at))]
    fn write(&self, _place: usize, step: u32, writer: &mut ClauseWriter) -> Result<(), WriteFault> {
        let of_item = GoOn {
            inst: self.inst,
            table: self.table,
            train: self.train,
            step,
        };
        write_each(&of_item, self.train.cone(step), writer)
    }
}

// by item of the step
#[derive(Drop)]
struct GoOn<'a, M> {
    inst: &'a Instance,
    table: &'a M,
    train: &'a TrainNumbers,
    step: u32,
}

impl<'a, M: Moves> Part for GoOn<'a, M> {
    ghost use Rattle.std.specs.Prelude.{◌≡◌, ◌<◌, ◌≤◌, [], ◌∷◌, length, slice_index};
    ghost use Rattle.clause_list.specs.Numbers.{cone};
    ghost use Rattle.clause_list.specs.RunClauses.{go_on};
    ghost use Rattle.clause_encoder.specs.Fitting.{Fits};

    ghost clauses = { λ p w. go_on (M.table p.table.now p.inst.now) p.train.now p.step w ∷ [] };

    ghost fits = { λ p place w. Fits (M.items p.table.now) (M.table p.table.now p.inst.now) p.train.now × (p.train.now.start ≤ p.step) × (p.step < p.train.now.by) × (place < length (cone p.train.now p.step)) × (slice_index (cone p.train.now p.step) place ≡ w) };

    #[tactic(auto, unfolding(crate::specs::Writing::IsCause))]
    fn write(&self, place: usize, item: u32, writer: &mut ClauseWriter) -> Result<(), WriteFault> {
        match self.put(place, item, writer) {
            Ok(()) => writer.finish(),
            Err(_) => Err(WriteFault::Memory),
        }
    }
}

impl<'a, M: Moves> GoOn<'a, M> {
    // Puts the clause of the item together.
    #[tactic(auto, unfolding(clause_list::specs::RunClauses::go_on))]
    fn put(&self, place: usize, item: u32, writer: &mut ClauseWriter) -> Result<(), WriteFault>
        requires fits { Fits (M.items self.now.table.now) (M.table self.now.table.now self.now.inst.now) self.now.train.now }
        requires after { self.now.train.now.start ≤ self.now.step }
        requires before { self.now.step < self.now.train.now.by }
        requires within { place < length (cone self.now.train.now self.now.step) }
        requires there { slice_index (cone self.now.train.now self.now.step) place ≡ item }
        ensures ok { OnOk result (writer.new ≡ record writer.old { open_lits = go_on (M.table self.now.table.now self.now.inst.now) self.now.train.now self.now.step item }) }
        ensures err { IfErr result (λ fault. fault ≡ WriteFault.Memory) }
    {
        let id = SweepId(item);
        writer.start();
        writer.add(is_not(self.train.sweep_at(self.step, place)))?;
        add_followers(self.train, self.step + 1, self.table.next_of(id), writer)?;
        add_where(
            self.table.is_goal(id),
            self.train.ended(self.step + 1),
            writer,
        )
    }
}

// Adds those of the items that the train can have at the step.
fn add_followers(
    train: &TrainNumbers,
    step: u32,
    items: &[SweepId],
    writer: &mut ClauseWriter,
) -> Result<(), WriteFault>
    requires after { train.now.start ≤ step }
    requires before { step ≤ train.now.by }
    ensures ok { OnOk result (Adds writer.old (followers train.now step items.now) writer.new) }
    ensures err { IfErr result (λ fault. fault ≡ WriteFault.Memory) }
{
    for at in 0..items.len() {
        add_follower(train, step, items[at], writer)?;
    }
    Ok(())
}

// Adds the item, if the train can have it at the step.
fn add_follower(
    train: &TrainNumbers,
    step: u32,
    item: SweepId,
    writer: &mut ClauseWriter,
) -> Result<(), WriteFault>
    requires after { train.now.start ≤ step }
    requires before { step ≤ train.now.by }
    ensures ok { OnOk result (Adds writer.old (followers train.now step (item ∷ [])) writer.new) }
    ensures err { IfErr result (λ fault. fault ≡ WriteFault.Memory) }
{
    match train.sweep(step, item.0) {
        Some(number) => writer.add(is(number)),
        None => Ok(()),
    }
}

// Adds the variable of that number, if the test holds.
fn add_where(test: bool, number: u32, writer: &mut ClauseWriter) -> Result<(), WriteFault>
    ensures ok { OnOk result (Adds writer.old (where_ test (is_lit number)) writer.new) }
    ensures err { IfErr result (λ fault. fault ≡ WriteFault.Memory) }
{
    if test { writer.add(is(number)) } else { Ok(()) }
}
