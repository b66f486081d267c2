//! Items grouped by their keys.
ghost use Rattle.std.specs.Prelude.{◌≡◌, ◌<◌, ◌^◌, ◌++◌, ◌∷◌, [], List, All, IfOk, OnOk, length, slice_index_or, slice_set};
ghost use Rattle.sweep_table.specs.Groups.{AreGroups};
ghost use Rattle.sweep_table.specs.declared.ids.SweepId.{SweepId};

use crate::ids::SweepId;
use std::alloc::{AllocError, Global};
use vss_lists::Items;
use vss_rows::Rows;

/// For each key below the count of keys, the places that have it, rising; linear in the keys.
pub(crate) fn grouped(alloc: Global, keys: &[u32]) -> Result<Rows<SweepId>, AllocError>
    requires few { length keys.now < 2 ^ 32 }
    requires in_range { All (λ k. k < length keys.now) keys.now }
    ensures { IfOk result (AreGroups keys.now) }
{
    let groups = groups_of(alloc, keys)?;
    rows_of(alloc, &groups)
}

/// The lists as rows.
pub(crate) fn rows_of<T: Copy + Drop>(
    alloc: Global,
    lists: &[Items<T>],
) -> Result<Rows<T>, AllocError>
    ensures { IfOk result (λ rows. rows ≡ lists.now) }
{
    let mut rows = Rows::new(alloc);
    for place in 0..lists.len() {
        rows.push(lists[place].as_slice())?;
    }
    Ok(rows)
}

fn groups_of(alloc: Global, keys: &[u32]) -> Result<Vec<Items<SweepId>>, AllocError>
    requires few { length keys.now < 2 ^ 32 }
    requires in_range { All (λ k. k < length keys.now) keys.now }
    ensures { IfOk result (λ groups. AreGroups keys.now groups.items) }
{
    let mut groups = none_of(alloc, keys.len())?;
    for place in 0..keys.len() {
        put(&mut groups, keys[place] as usize, SweepId(place as u32))?;
    }
    Ok(groups)
}

/// So many empty lists.
pub(crate) fn none_of<T: Drop>(alloc: Global, count: usize) -> Result<Vec<Items<T>>, AllocError>
    ensures count { IfOk result (λ lists. length lists.items ≡ count) }
    ensures none { IfOk result (λ lists. All (λ g. g ≡ []) lists.items) }
{
    let mut lists = Vec::with_capacity(alloc, count)?;
    for _ in 0..count {
        lists.push(Items::new(alloc))?;
    }
    Ok(lists)
}

fn put(groups: &mut Vec<Items<SweepId>>, group: usize, id: SweepId) -> Result<(), AllocError>
    requires { group < length groups.old.items }
    ensures { (d : List SweepId) → OnOk result (groups.new.items ≡ slice_set groups.old.items group (slice_index_or groups.old.items group d ++ id ∷ [])) }
{
    groups[group].push(id)?;
    Ok(())
}
