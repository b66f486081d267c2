//! The index of joins by cell end.

ghost use Rattle.std.specs.Prelude.{◌≡◌, ◌+◌, ◌<◌, ◌≤◌, ◌↔◌, length, All, Contains, IsTrue, IfOk, IsPermutation};
ghost use Rattle.std.specs.List.Sorted.{IsNonDecreasingBy};
ghost use Rattle.cell_net.specs.Passages.{end_number, end_place, passage_between, ArePassagesOf, AreStarts, HasPlace, HasPlaces, IsIndexed, Splits};

use super::cells::{CellEnd, End, JoinSpec, is_same_end};
use super::limits::CELLS;
use super::parts::InstanceParts;
use std::alloc::{AllocError, Global};

/// A way from one cell end into another, at the node of both.
#[derive(Clone, Copy, Debug)]
pub(crate) struct Passage {
    /// The place of the end that it comes from, in the row of all ends.
    pub from: u32,
    pub to: CellEnd,
}

/// The place of an end in the row of all ends.
pub(crate) fn end_place(end: CellEnd) -> u32
    requires { HasPlace end }
    ensures { result ≡ end_place end }
{
    2 * end.cell.0 + end_number(end.end)
}

fn end_number(end: End) -> u32
    ensures { result ≡ end_number end }
{
    match end {
        End::Low => 0,
        End::High => 1,
    }
}

/// The passages of the joins, in both directions, by rising ends; and for each end of each cell, and
/// one end past the last, how many of them come from an end before it.
pub(crate) fn index_of(
    alloc: Global,
    parts: &InstanceParts,
) -> Result<(Vec<Passage>, Vec<usize>), AllocError>
    requires cells { length parts.now.cells ≤ CELLS }
    requires joins { All HasPlaces parts.now.joins }
    ensures { IfOk result (λ index. IsIndexed parts.now index.0.items index.1.items) }
{
    let passages = passages_of(alloc, parts.joins.as_slice())?;
    let ends = 2 * parts.cells.len() as u32;
    let starts = starts_of(alloc, &passages, ends + 1)?;
    Ok((passages, starts))
}

/// The passages of the joins, in both directions, by rising ends.
fn passages_of(alloc: Global, joins: &[JoinSpec]) -> Result<Vec<Passage>, AllocError>
    requires { All HasPlaces joins.now }
    ensures { IfOk result (λ passages. ArePassagesOf joins.now passages.items × IsNonDecreasingBy (λ p. p.from) passages.items) }
{
    let mut passages = both_ways(alloc, joins)?;
    sort_passages(&mut passages);
    Ok(passages)
}

/// The passages of the joins, in both directions.
fn both_ways(alloc: Global, joins: &[JoinSpec]) -> Result<Vec<Passage>, AllocError>
    requires { All HasPlaces joins.now }
    ensures { IfOk result (λ passages. ArePassagesOf joins.now passages.items) }
{
    let mut passages = Vec::new(alloc);
    for join in joins {
        passages.push(passage_of(join.one, join.other))?;
        passages.push(passage_of(join.other, join.one))?;
    }
    Ok(passages)
}

fn passage_of(one: CellEnd, other: CellEnd) -> Passage
    requires { HasPlace one }
    ensures { result ≡ passage_between one other }
{
    Passage {
        from: end_place(one),
        to: other,
    }
}

fn sort_passages(passages: &mut Vec<Passage>)
    ensures same { IsPermutation passages.old.items passages.new.items }
    ensures rising { IsNonDecreasingBy (λ p. p.from) passages.new.items }
{
    passages.sort_unstable_by_key(|passage| passage.from);
}

/// How many of the passages, which rise, come from an end before this one.
fn start_of(passages: &[Passage], end: u32) -> usize
    requires { IsNonDecreasingBy (λ p. p.from) passages.now }
    ensures within { result ≤ length passages.now }
    ensures split { Splits passages.now end result }
{
    passages.partition_point(|passage| passage.from < end)
}

/// That count for each of so many ends.
fn starts_of(alloc: Global, passages: &[Passage], ends: u32) -> Result<Vec<usize>, AllocError>
    requires { IsNonDecreasingBy (λ p. p.from) passages.now }
    ensures { IfOk result (λ starts. AreStarts passages.now starts.items × (length starts.items ≡ ends)) }
{
    let mut starts = Vec::new(alloc);
    for end in 0..ends {
        starts.push(start_of(passages, end))?;
    }
    Ok(starts)
}

/// Whether a passage leads from the one end to the other.
pub(crate) fn leads(passages: &[Passage], starts: &[usize], one: CellEnd, other: CellEnd) -> bool
    requires here { HasPlace one }
    requires starts { AreStarts passages.now starts.now }
    requires within { end_place one + 1 < length starts.now }
    ensures { IsTrue result ↔ Contains passages.now (passage_between one other) }
{
    let end = end_place(one) as usize;
    for place in starts[end]..starts[end + 1] {
        if is_same_end(passages[place].to, other) {
            return true;
        }
    }
    false
}
