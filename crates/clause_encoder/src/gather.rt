//! The cones of all steps of a train, in one row.
ghost use Rattle.std.specs.Prelude.{◌≡◌, ◌<◌, ◌≤◌, ◌+◌, ◌-◌, ◌++◌, ◌∷◌, [], map, filter, sum_by, length, OnOk, IfOk, IfErr};
ghost use Rattle.clause_list.specs.Ranges.{from_below};
ghost use Rattle.clause_list.specs.Cones.{home, cones_of, marked_by_both, is_in_both};
ghost use Rattle.clause_encoder.specs.Gathering.{IsGatherFault};

use crate::marks::{ahead_marks, entry_marks, homes_of};
use cell_net::Instance;
use std::alloc::{AllocError, Global};
use sweep_table::Moves;
use vss_bits::Bits;
use vss_rows::Rows;

/// Why cones were not gathered: all together they have more than 2,000,000 items, or for want of memory.
#[derive(Clone, Copy, Debug, PartialEq, Eq)]
pub enum GatherFault {
    TooMany,
    Memory,
}

/// The cones of a train that may enter for `window` steps after its first one, and may be there for `last`: one pass
/// back and one forward over the table, each linear in the steps times the items and what may come after them. Kept are
/// four bytes an item of a cone; the passes take a bit for each item and step. The table is the one of that instance.
pub fn gather_cones<M: Moves>(
    alloc: Global,
    inst: &Instance,
    table: &M,
    window: u32,
    last: u32,
) -> Result<Rows<u32>, GatherFault>
    requires made_for { M.is_made_for table.now inst.now }
    requires few { last < 400 }
    ensures cones { IfOk result (λ c. c ≡ cones_of (M.table table.now inst.now) window last) }
    ensures few { IfOk result (λ c. sum_by length c ≤ 2000000) }
    ensures err { IfErr result (IsGatherFault (M.table table.now inst.now) window last) }
{
    let homes = match homes_of(alloc, inst, table, last) {
        Ok(homes) => homes,
        Err(_) => return Err(GatherFault::Memory),
    };
    let first = match entry_marks(alloc, inst, table) {
        Ok(first) => first,
        Err(_) => return Err(GatherFault::Memory),
    };
    gather_ahead(alloc, inst, table, window, last, first, homes.as_slice())
}

// The pass forward, from the marks of the entries, over the marks of what leads home.
fn gather_ahead<M: Moves>(
    alloc: Global,
    inst: &Instance,
    table: &M,
    window: u32,
    last: u32,
    first: Bits,
    homes: &[Bits],
) -> Result<Rows<u32>, GatherFault>
    requires first { first ≡ (M.table table.now inst.now).entries }
    requires homes { homes.now ≡ map (home (M.table table.now inst.now)) (from_below 0 (last + 1)) }
    requires few { last < 400 }
    ensures cones { IfOk result (λ c. c ≡ cones_of (M.table table.now inst.now) window last) }
    ensures few { IfOk result (λ c. sum_by length c ≤ 2000000) }
    ensures err { IfErr result (IsGatherFault (M.table table.now inst.now) window last) }
{
    let mut marks = first;
    let mut cones = Rows::new(alloc);
    let mut count: usize = 0;
    for step in 0..last + 1 {
        let home = &homes[(last - step) as usize];
        let cone = match marked_items(alloc, table.len(), &marks, home) {
            Ok(cone) => cone,
            Err(_) => return Err(GatherFault::Memory),
        };
        if cone.len() > 2_000_000 - count {
            return Err(GatherFault::TooMany);
        }
        count += cone.len();
        match cones.push(&cone) {
            Ok(()) => {}
            Err(_) => return Err(GatherFault::Memory),
        }
        match ahead_marks(alloc, inst, table, step < window, &marks) {
            Ok(new) => marks = new,
            Err(_) => return Err(GatherFault::Memory),
        }
    }
    Ok(cones)
}

// The items that both mark, rising.
fn marked_items(alloc: Global, count: u32, one: &Bits, other: &Bits) -> Result<Vec<u32>, AllocError>
    ensures { IfOk result (λ items. items.items ≡ marked_by_both count one.now other.now) }
{
    let mut items = Vec::new(alloc);
    for item in 0..count {
        push_if_both(one, other, item, &mut items)?;
    }
    Ok(items)
}

// Appends the item, if both mark it.
#[tactic(auto, unfolding(clause_list::specs::Cones::is_in_both))]
fn push_if_both(one: &Bits, other: &Bits, item: u32, items: &mut Vec<u32>) -> Result<(), AllocError>
    ensures { OnOk result (items.new.items ≡ items.old.items ++ filter (is_in_both one.now other.now) (item ∷ [])) }
{
    if one.get(item) && other.get(item) {
        items.push(item)?;
    }
    Ok(())
}
