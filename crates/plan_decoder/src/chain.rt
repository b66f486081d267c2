//! The chain of one train, item by item.
ghost use Rattle.std.specs.Prelude.{◌≡◌, ◌<◌, ◌≤◌, ◌-◌, ◌∷◌, ◌&&◌, All, IfOk};
ghost use Rattle.sweep_table.specs.Tables.{is_entry};
ghost use Rattle.clause_list.specs.Values.{value};
ghost use Rattle.clause_list.specs.Numbers.{cone};
ghost use Rattle.plan_laws.specs.Telling.{entry_at, first_told, follow, is_told, told_step};

use crate::values::value_of;
use cell_net::Instance;
use clause_encoder::TrainNumbers;
use std::alloc::{AllocError, Global};
use sweep_table::{Moves, SweepId};

/// The first step of the train's run: the first of its window after which it does not wait, or the last.
pub(crate) fn first_step(values: &[bool], train: &TrainNumbers) -> u32
    ensures value { result ≡ told_step values.now train.now }
    ensures after { train.now.start ≤ result }
    ensures before { result ≤ train.now.by }
{
    for step in train.start()..train.latest() {
        if !value_of(values, train.waits(step)) {
            return step;
        }
    }
    train.latest()
}

/// The first entry of the cone of the step whose variable is true; linear in the cone.
pub(crate) fn entry_at<M: Moves>(
    inst: &Instance,
    values: &[bool],
    table: &M,
    train: &TrainNumbers,
    step: u32,
) -> SweepId
    requires after { train.now.start ≤ step }
    requires before { step ≤ train.now.by }
    requires items { All (λ w. w < M.items table.now) (cone train.now step) }
    ensures { result ≡ entry_at values.now (M.table table.now inst.now) train.now step }
{
    let cone = train.cone(step);
    for place in 0..cone.len() {
        let item = SweepId(cone[place]);
        if is_entry_there(inst, values, table, train.sweep_at(step, place), item) {
            return item;
        }
    }
    SweepId(0)
}

/// Whether the item is an entry and the variable of that number is true.
fn is_entry_there<M: Moves>(
    inst: &Instance,
    values: &[bool],
    table: &M,
    number: u32,
    item: SweepId,
) -> bool
    requires { item.0 < M.items table.now }
    ensures { result ≡ (is_entry (M.table table.now inst.now) item.0 && value values.now number) }
{
    table.is_entry(item) && value_of(values, number)
}

/// The first of the items that is in the cone of the step and whose variable is true.
pub(crate) fn first_told(
    values: &[bool],
    train: &TrainNumbers,
    step: u32,
    items: &[SweepId],
) -> SweepId
    requires after { train.now.start ≤ step }
    requires before { step ≤ train.now.by }
    ensures { result ≡ first_told values.now train.now step items.now }
{
    for place in 0..items.len() {
        if is_told(values, train, step, items[place]) {
            return items[place];
        }
    }
    SweepId(0)
}

/// Whether the item is in the cone of the step and its variable is true; logarithmic in the cone.
#[tactic(auto, unfolding(plan_laws::specs::Telling::is_told))]
fn is_told(values: &[bool], train: &TrainNumbers, step: u32, item: SweepId) -> bool
    requires after { train.now.start ≤ step }
    requires before { step ≤ train.now.by }
    ensures { result ≡ is_told values.now train.now step item.0 }
{
    match train.sweep(step, item.0) {
        Some(number) => value_of(values, number),
        None => false,
    }
}

/// The items of the chain from its first one on, at that step: linear in the items that may come next.
pub(crate) fn chain_from<M: Moves>(
    alloc: Global,
    inst: &Instance,
    values: &[bool],
    table: &M,
    train: &TrainNumbers,
    step: u32,
    entry: SweepId,
) -> Result<Vec<SweepId>, AllocError>
    requires made_for { M.is_made_for table.now inst.now }
    requires after { train.now.start ≤ step }
    requires before { step ≤ train.now.by }
    requires inside { entry.0 < M.items table.now }
    ensures chain { IfOk result (λ items. items.items ≡ entry ∷ follow values.now (M.table table.now inst.now) train.now (train.now.by - step) step entry) }
    ensures inside { IfOk result (λ items. All (λ v. v.0 < M.items table.now) items.items) }
{
    let _count = table.len();
    let mut items = Vec::new(alloc);
    let mut last = entry;
    items.push(last)?;
    for now in step..train.by() {
        if value_of(values, train.ended(now + 1)) {
            return Ok(items);
        }
        last = first_told(values, train, now + 1, table.next_of(last));
        items.push(last)?;
    }
    Ok(items)
}
