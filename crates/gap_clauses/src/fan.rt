//! The walks from one cell, with the list of those to each cell.
ghost use Rattle.std.specs.Prelude.{◌≡◌, ◌<◌, ◌≤◌, ◌++◌, ◌∷◌, [], ℕ, false, All, List, IfErr, IfOk, OnErr, OnOk, length, nat_eq, slice_index_or, slice_set};
ghost use Rattle.gap_clauses.specs.Fans.{FanParts, IsStop, ends_over, has_node, walk_at, walks_to};
ghost use Rattle.cell_net.specs.declared.ids.CellId.{CellId};
ghost use Rattle.gap_clauses.specs.Searched.{AreCandidateNodes, AreMarks};
ghost use Rattle.gap_clauses.specs.Spans.{IsSpanOf};
ghost use Rattle.gap_clauses.specs.Walks.{end_of};

use crate::candidates::CandidateNodes;
use crate::marks::Span;
use crate::tree::WalkTree;
use cell_net::{CellId, NodeId};
use std::alloc::{AllocError, Global};
use std::marker::Model;
use vss_lists::Items;

/// No pair of cells has more walks.
const WALKS: usize = 64;

/// Why a search stops.
#[derive(Clone, Copy, Debug)]
pub(crate) enum Stop {
    /// Some cell has more than 64 walks.
    TooMany,
    Memory,
}

/// The walks from one cell, and for each cell the places of those that lead to it, rising, at most 64.
/// Sixteen bytes a walk and 24 a cell.
#[derive(Debug, Drop)]
pub(crate) struct Fan {
    first: CellId,
    tree: WalkTree,
    lists: Vec<Items<u32>>,
}

impl Model for Fan {
    ghost use Rattle.std.specs.Prelude.{length};
    ghost use Rattle.gap_clauses.specs.Fans.{AreListsOf, FanParts};

    ghost Value = { FanParts };

    ghost view = { λ f. record { first = f.first; cells = length f.lists.items; walks = f.tree } };

    ghost invariant = { λ f. AreListsOf f.first f.tree f.lists.items };
}

impl Fan {
    /// The walk without a step alone, from the first cell, among so many cells.
    pub(crate) fn new(alloc: Global, first: CellId, cells: u32) -> Result<Fan, AllocError>
        requires { first.0 < cells }
        ensures { IfOk result (λ fan. fan ≡ record { first = first; cells = cells; walks = [] ∷ [] }) }
    {
        let mut lists = none_of(alloc, cells as usize)?;
        push_place(&mut lists, first.0 as usize, 0)?;
        Ok(Fan {
            first,
            tree: WalkTree::new(alloc),
            lists,
        })
    }

    /// How many walks there are.
    pub(crate) fn len(&self) -> usize
        ensures { result ≡ length self.now.walks }
    {
        self.tree.len()
    }

    /// The cell to which the walk leads.
    pub(crate) fn last_cell(&self, place: usize) -> CellId
        requires { place < length self.now.walks }
        ensures { result ≡ end_of self.now.first (walk_at self.now.walks place) }
    {
        self.tree.last_cell(self.first, place)
    }

    /// Whether the walk goes over the node; linear in its steps.
    pub(crate) fn has_node(&self, place: usize, node: NodeId) -> bool
        requires { place < length self.now.walks }
        ensures { result ≡ has_node node (walk_at self.now.walks place) }
    {
        self.tree.has_node(place, node)
    }

    /// Whether the last step of the walk goes over the node.
    pub(crate) fn ends_over(&self, place: usize, node: NodeId) -> bool
        requires { place < length self.now.walks }
        ensures { result ≡ ends_over node (walk_at self.now.walks place) }
    {
        self.tree.ends_over(place, node)
    }

    /// Whether the walks begin with the cell.
    pub(crate) fn begins_with(&self, cell: CellId) -> bool
        ensures { result ≡ nat_eq self.now.first.0 cell.0 }
    {
        self.first.0 == cell.0
    }

    /// Appends the walk at that place with one step more, unless its last cell has 64 walks. After any
    /// other answer than Ok the walks are as they were.
    pub(crate) fn push(&mut self, before: usize, node: NodeId, cell: CellId) -> Result<(), Stop>
        requires before { before < length self.old.walks }
        requires cell { cell.0 < self.old.cells }
        ensures first { self.new.first ≡ self.old.first }
        ensures cells { self.new.cells ≡ self.old.cells }
        ensures ok { OnOk result (self.new.walks ≡ self.old.walks ++ (walk_at self.old.walks before ++ record { node = node; cell = cell } ∷ []) ∷ []) }
        ensures err { IfErr result (IsStop self.old.first (self.old.walks ++ (walk_at self.old.walks before ++ record { node = node; cell = cell } ∷ []) ∷ [])) }
    {
        if self.lists[cell.0 as usize].len() >= WALKS {
            return Err(Stop::TooMany);
        }
        match self.add(before, node, cell) {
            Ok(()) => Ok(()),
            Err(_) => Err(Stop::Memory),
        }
    }

    /// Appends the walk at that place with one step more, whose last cell has fewer than 64. After want of
    /// memory the walks are as they were.
    fn add(&mut self, before: usize, node: NodeId, cell: CellId) -> Result<(), AllocError>
        requires before { before < length self.old.walks }
        requires cell { cell.0 < self.old.cells }
        requires room { length (walks_to self.old.first self.old.walks cell) < 64 }
        ensures first { self.new.first ≡ self.old.first }
        ensures cells { self.new.cells ≡ self.old.cells }
        ensures ok { OnOk result (self.new.walks ≡ self.old.walks ++ (walk_at self.old.walks before ++ record { node = node; cell = cell } ∷ []) ∷ []) }
    {
        let place = as_place(self.tree.len())?;
        push_place(&mut self.lists, cell.0 as usize, place)?;
        match self.tree.lengthen(before as u32, node, cell) {
            Ok(()) => Ok(()),
            Err(fault) => {
                drop_place(&mut self.lists, cell.0 as usize);
                Err(fault)
            }
        }
    }

    /// How many walks lead to the cell, at most 64; none to a cell that isn't there.
    pub(crate) fn count_to(&self, f: CellId) -> u32
        ensures there { f.0 < self.now.cells → result ≡ length (walks_to self.now.first self.now.walks f) }
        ensures elsewhere { self.now.cells ≤ f.0 → result ≡ 0 }
    {
        match self.lists.get(f.0 as usize) {
            Some(list) => list.len() as u32,
            None => 0,
        }
    }

    /// Marks each of the candidates that is at a node of that walk to the cell, and tells from which one
    /// to which one marks stand; linear in its steps, where nodes are looked up.
    pub(crate) fn mark(
        &self,
        f: CellId,
        walk: u32,
        candidates: &CandidateNodes,
        marks: &mut [bool],
    ) -> Span
        requires cell { f.0 < self.now.cells }
        requires walk { walk < length (walks_to self.now.first self.now.walks f) }
        requires nodes { AreCandidateNodes candidates.now }
        requires few { length candidates.now ≤ length marks.old }
        requires none { All (λ m. m ≡ false) marks.old }
        ensures marks { AreMarks candidates.now (walk_at (walks_to self.now.first self.now.walks f) walk) marks.new }
        ensures span { IsSpanOf (length candidates.now) marks.new result }
    {
        let place = self.lists[f.0 as usize].as_slice()[walk as usize];
        self.tree.mark(place as usize, candidates, marks)
    }

    /// No cell has more than 64 walks. A call does nothing; it gives its caller's proof this fact.
    pub(crate) fn is_few(&self)
        ensures { (f : CellId) → f.0 < self.now.cells → length (walks_to self.now.first self.now.walks f) ≤ 64 }
    {
        let _lists = &self.lists;
    }
}

/// The place of the next walk; refused above what 32 bits can tell.
fn as_place(len: usize) -> Result<u32, AllocError>
    ensures { IfOk result (λ place. place ≡ len) }
{
    u32::try_from(len).map_err(|_| AllocError)
}

/// So many empty lists.
fn none_of(alloc: Global, count: usize) -> Result<Vec<Items<u32>>, AllocError>
    ensures count { IfOk result (λ lists. length lists.items ≡ count) }
    ensures none { IfOk result (λ lists. All (λ g. g ≡ []) lists.items) }
{
    let mut lists = Vec::with_capacity(alloc, count)?;
    for _ in 0..count {
        lists.push(Items::new(alloc))?;
    }
    Ok(lists)
}

/// Appends the place to the list.
fn push_place(lists: &mut Vec<Items<u32>>, list: usize, place: u32) -> Result<(), AllocError>
    requires { list < length lists.old.items }
    ensures ok { (d : List ℕ) → OnOk result (lists.new.items ≡ slice_set lists.old.items list (slice_index_or lists.old.items list d ++ place ∷ [])) }
    ensures err { OnErr result (lists.new.items ≡ lists.old.items) }
{
    lists[list].push(place)?;
    Ok(())
}

/// Drops the last place of the list.
fn drop_place(lists: &mut Vec<Items<u32>>, list: usize)
    requires { list < length lists.old.items }
    ensures { (d places : List ℕ) (place : ℕ) → slice_index_or lists.old.items list d ≡ places ++ place ∷ [] → lists.new.items ≡ slice_set lists.old.items list places }
{
    let count = lists[list].len();
    if count > 0 {
        lists[list].truncate(count - 1);
    }
}
