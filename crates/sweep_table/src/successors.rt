//! For each directed cell, those that follow it: gathered from the joins.
ghost use Rattle.std.specs.Prelude.{◌≡◌, ◌<◌, ◌*◌, ◌++◌, ◌∷◌, [], true, false, All, IfOk, IsPermutation, OnOk, length, slice_index_or, slice_set};
ghost use Rattle.std.specs.List.Sorted.{IsNonDecreasingBy};
ghost use Rattle.cell_net.specs.Space.{opposite};
ghost use Rattle.sweep_table.specs.Growing.{AreAfter, lowward, highward};
ghost use Rattle.sweep_table.specs.Order.{directed_number};
ghost use Rattle.sweep_table.specs.Parts.{ends_with};
ghost use Rattle.sweep_table.specs.Successions.{AreSuccessorLists, AreSuccessionsOf, coming_from, heading_to};

use crate::groups::{none_of, rows_of};
use crate::order::directed_number;
use crate::table::ends_with;
use cell_net::{CellEnd, CellId, DirCell, End, Instance, JoinSpec};
use std::alloc::{AllocError, Global};
use vss_lists::Items;
use vss_rows::Rows;

/// A directed cell, and one that follows it.
#[derive(Clone, Copy, Debug)]
pub(crate) struct Succession {
    pub before: DirCell,
    pub after: DirCell,
}

/// For each directed cell, by its number, those that follow it, by theirs; linear in the cells and in
/// the joins, up to the sorting of these.
pub(crate) fn successors_of(alloc: Global, inst: &Instance) -> Result<Rows<DirCell>, AllocError>
    ensures { IfOk result (AreAfter inst.now) }
{
    let successions = successions_of(alloc, inst.parts().joins.as_slice())?;
    let lists = gathered(alloc, &successions, 2 * inst.cell_count() as usize)?;
    rows_of(alloc, &lists)
}

/// The successions of the joins, both ways, by the directed cells that follow.
fn successions_of(alloc: Global, joins: &[JoinSpec]) -> Result<Vec<Succession>, AllocError>
    ensures are { IfOk result (λ found. AreSuccessionsOf joins.now found.items) }
    ensures rising { IfOk result (λ found. IsNonDecreasingBy (λ s. directed_number s.after) found.items) }
{
    let mut successions = both_ways(alloc, joins)?;
    sort_successions(&mut successions);
    Ok(successions)
}

/// The successions of the joins, both ways.
fn both_ways(alloc: Global, joins: &[JoinSpec]) -> Result<Vec<Succession>, AllocError>
    ensures { IfOk result (λ found. AreSuccessionsOf joins.now found.items) }
{
    let mut successions = Vec::new(alloc);
    for join in joins {
        successions.push(succession_over(join.one, join.other))?;
        successions.push(succession_over(join.other, join.one))?;
    }
    Ok(successions)
}

/// What heads to the one end, and what comes from the other.
fn succession_over(one: CellEnd, other: CellEnd) -> Succession
    ensures { result ≡ record { before = heading_to one; after = coming_from other } }
{
    Succession {
        before: DirCell {
            cell: one.cell,
            end: one.end,
        },
        after: DirCell {
            cell: other.cell,
            end: opposite(other.end),
        },
    }
}

fn opposite(end: End) -> End
    ensures { result ≡ opposite end }
{
    match end {
        End::Low => End::High,
        End::High => End::Low,
    }
}

fn sort_successions(successions: &mut Vec<Succession>)
    ensures same { IsPermutation successions.old.items successions.new.items }
    ensures rising { IsNonDecreasingBy (λ s. directed_number s.after) successions.new.items }
{
    successions.sort_unstable_by_key(|succession| directed_number(succession.after));
}

/// For each directed cell of numbers below this one, what follows it in the successions, each once, by
/// number.
fn gathered(
    alloc: Global,
    successions: &[Succession],
    count: usize,
) -> Result<Vec<Items<DirCell>>, AllocError>
    requires rising { IsNonDecreasingBy (λ s. directed_number s.after) successions.now }
    requires in_range { All (λ s. directed_number s.before < count) successions.now }
    ensures { IfOk result (λ lists. AreSuccessorLists successions.now count lists.items) }
{
    let mut lists = none_of(alloc, count)?;
    for place in 0..successions.len() {
        let succession = successions[place];
        put_new(
            &mut lists,
            directed_number(succession.before),
            succession.after,
        )?;
    }
    Ok(lists)
}

/// Appends the directed cell to the list, unless the list ends with it.
fn put_new(
    lists: &mut Vec<Items<DirCell>>,
    list: usize,
    directed: DirCell,
) -> Result<(), AllocError>
    requires { list < length lists.old.items }
    ensures there { ends_with directed (slice_index_or lists.old.items list []) ≡ true → lists.new.items ≡ lists.old.items }
    ensures new { ends_with directed (slice_index_or lists.old.items list []) ≡ false → OnOk result (lists.new.items ≡ slice_set lists.old.items list (slice_index_or lists.old.items list [] ++ directed ∷ [])) }
{
    if ends_with(directed, lists[list].as_slice()) {
        return Ok(());
    }
    lists[list].push(directed)?;
    Ok(())
}

/// The cell towards its low end.
pub(crate) fn lowward(cell: u32) -> DirCell
    ensures { result ≡ lowward cell }
{
    DirCell {
        cell: CellId(cell),
        end: End::Low,
    }
}

/// The cell towards its high end.
pub(crate) fn highward(cell: u32) -> DirCell
    ensures { result ≡ highward cell }
{
    DirCell {
        cell: CellId(cell),
        end: End::High,
    }
}
