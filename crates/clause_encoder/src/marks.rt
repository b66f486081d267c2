//! Marks of the items of a table that lie ahead at a step, or lead home from it.
ghost use Rattle.std.specs.Prelude.{◌≡◌, ◌<◌, ◌+◌, map, IfOk};
ghost use Rattle.clause_list.specs.Ranges.{from_below};
ghost use Rattle.clause_list.specs.Cones.{home, is_ahead_by, leads_home_by, ahead_after, home_before, has_marked};

use cell_net::Instance;
use std::alloc::{AllocError, Global};
use sweep_table::{Moves, SweepId};
use vss_bits::Bits;

/// Marks of what is ahead a step later; linear in the items and in what they may come after. The table is the one of
/// that instance.
pub fn ahead_marks<M: Moves>(
    alloc: Global,
    inst: &Instance,
    table: &M,
    may_enter: bool,
    marks: &Bits,
) -> Result<Bits, AllocError>
    ensures { IfOk result (λ new. new ≡ ahead_after (M.table table.now inst.now) may_enter marks.now) }
{
    let mut new = Bits::with_room(alloc, table.len())?;
    for item in 0..table.len() {
        new.push(is_ahead(inst, table, may_enter, marks, item))?;
    }
    Ok(new)
}

#[tactic(auto, unfolding(clause_list::specs::Cones::is_ahead_by))]
fn is_ahead<M: Moves>(inst: &Instance, table: &M, may_enter: bool, marks: &Bits, item: u32) -> bool
    requires { item < M.items table.now }
    ensures { result ≡ is_ahead_by (M.table table.now inst.now) may_enter marks.now item }
{
    may_enter && table.is_entry(SweepId(item)) || is_any_marked(marks, table.prev_of(SweepId(item)))
}

/// Marks of what leads home a step before; linear in the items and in what may come after them.
pub fn home_marks<M: Moves>(
    alloc: Global,
    inst: &Instance,
    table: &M,
    marks: &Bits,
) -> Result<Bits, AllocError>
    ensures { IfOk result (λ new. new ≡ home_before (M.table table.now inst.now) marks.now) }
{
    let mut new = Bits::with_room(alloc, table.len())?;
    for item in 0..table.len() {
        new.push(is_home(inst, table, marks, item))?;
    }
    Ok(new)
}

#[tactic(auto, unfolding(clause_list::specs::Cones::leads_home_by))]
fn is_home<M: Moves>(inst: &Instance, table: &M, marks: &Bits, item: u32) -> bool
    requires { item < M.items table.now }
    ensures { result ≡ leads_home_by (M.table table.now inst.now) marks.now item }
{
    table.is_goal(SweepId(item)) || is_any_marked(marks, table.next_of(SweepId(item)))
}

// Whether one of the items is marked.
fn is_any_marked(marks: &Bits, items: &[SweepId]) -> bool
    ensures { result ≡ has_marked marks.now items.now }
{
    items.iter().any(|item| marks.get(item.0))
}

/// The marks of the entries.
pub fn entry_marks<M: Moves>(alloc: Global, inst: &Instance, table: &M) -> Result<Bits, AllocError>
    requires { M.is_made_for table.now inst.now }
    ensures { IfOk result (λ marks. marks ≡ (M.table table.now inst.now).entries) }
{
    let count = table.len();
    let mut marks = Bits::with_room(alloc, count)?;
    for item in 0..count {
        marks.push(table.is_entry(SweepId(item)))?;
    }
    Ok(marks)
}

/// The marks of the goals.
pub fn goal_marks<M: Moves>(alloc: Global, inst: &Instance, table: &M) -> Result<Bits, AllocError>
    requires { M.is_made_for table.now inst.now }
    ensures { IfOk result (λ marks. marks ≡ (M.table table.now inst.now).goals) }
{
    let count = table.len();
    let mut marks = Bits::with_room(alloc, count)?;
    for item in 0..count {
        marks.push(table.is_goal(SweepId(item)))?;
    }
    Ok(marks)
}

/// For each number of steps up to `last`, the marks of what leads home in so many.
pub fn homes_of<M: Moves>(
    alloc: Global,
    inst: &Instance,
    table: &M,
    last: u32,
) -> Result<Vec<Bits>, AllocError>
    requires made_for { M.is_made_for table.now inst.now }
    requires few { last < 400 }
    ensures { IfOk result (λ homes. homes.items ≡ map (home (M.table table.now inst.now)) (from_below 0 (last + 1))) }
{
    let mut marks = goal_marks(alloc, inst, table)?;
    let mut homes = Vec::new(alloc);
    for step in 0..last {
        let before = home_marks(alloc, inst, table, &marks)?;
        homes.push(marks)?;
        marks = before;
    }
    homes.push(marks)?;
    Ok(homes)
}
