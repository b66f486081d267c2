//! Walks from one cell, each kept as one step behind the walk that it lengthens.
ghost use Rattle.std.specs.Prelude.{◌≡◌, ◌<◌, ◌≤◌, ◌++◌, ◌∷◌, [], All, OnErr, OnOk, false, length, slice_index_or};
ghost use Rattle.gap_clauses.specs.Fans.{ends_over, has_node, walk_at};
ghost use Rattle.gap_clauses.specs.Searched.{AreCandidateNodes, AreMarks};
ghost use Rattle.gap_clauses.specs.Spans.{IsSpanOf};
ghost use Rattle.gap_clauses.specs.Walks.{Step, end_of};

use crate::candidates::CandidateNodes;
use crate::marks::{Span, mark_at};
use cell_net::{CellId, NodeId};
use std::alloc::{AllocError, Global};
use std::marker::Model;

/// One step behind a walk: the place of that walk, the node over which the step goes, and the cell
/// behind the node.
#[derive(Clone, Copy, Debug)]
pub(crate) struct Branch {
    pub before: u32,
    pub node: NodeId,
    pub cell: CellId,
}

/// Walks from one cell; the walk at place 0 has no step. Twelve bytes a walk.
#[derive(Debug, Drop)]
pub(crate) struct WalkTree {
    branches: Vec<Branch>,
}

impl Model for WalkTree {
    ghost use Rattle.std.specs.Prelude.{List};
    ghost use Rattle.gap_clauses.specs.Fans.{ends_over, has_node, walk_at};
    ghost use Rattle.gap_clauses.specs.Searched.{AreCandidateNodes, AreMarks};
    ghost use Rattle.gap_clauses.specs.Walks.{Step, end_of};
    ghost use Rattle.gap_clauses.specs.Trees.{walks_of_tree, AreBranches};

    ghost Value = { List (List Step) };

    ghost view = { λ t. walks_of_tree t.branches.items };

    ghost invariant = { λ t. AreBranches t.branches.items };
}

impl WalkTree {
    /// The walk without a step alone; takes no memory.
    pub(crate) fn new(alloc: Global) -> WalkTree
        ensures { result ≡ [] ∷ [] }
    {
        WalkTree {
            branches: Vec::new(alloc),
        }
    }

    /// How many walks there are.
    pub(crate) fn len(&self) -> usize
        ensures { result ≡ length self.now }
    {
        self.branches.len() + 1
    }

    /// Appends the walk at that place with one step more. After want of memory the walks are as they
    /// were.
    pub(crate) fn lengthen(
        &mut self,
        before: u32,
        node: NodeId,
        cell: CellId,
    ) -> Result<(), AllocError>
        requires { before < length self.old }
        ensures ok { OnOk result (self.new ≡ self.old ++ (slice_index_or self.old before [] ++ record { node = node; cell = cell } ∷ []) ∷ []) }
        ensures err { OnErr result (self.new ≡ self.old) }
    {
        self.branches.push(Branch { before, node, cell })?;
        Ok(())
    }

    /// The cell to which the walk at that place leads from the first one.
    pub(crate) fn last_cell(&self, first: CellId, place: usize) -> CellId
        requires { place < length self.now }
        ensures { result ≡ end_of first (walk_at self.now place) }
    {
        if place == 0 {
            first
        } else {
            self.branches[place - 1].cell
        }
    }

    /// Whether the walk at that place goes over the node; linear in its steps.
    pub(crate) fn has_node(&self, place: usize, node: NodeId) -> bool
        requires { place < length self.now }
        ensures { result ≡ has_node node (walk_at self.now place) }
    {
        let mut at = place;
        while at > 0 {
            let branch = self.branches[at - 1];
            if branch.node.0 == node.0 {
                return true;
            }
            at = branch.before as usize;
        }
        false
    }

    /// Whether the last step of the walk at that place goes over the node.
    pub(crate) fn ends_over(&self, place: usize, node: NodeId) -> bool
        requires { place < length self.now }
        ensures { result ≡ ends_over node (walk_at self.now place) }
    {
        if place == 0 {
            false
        } else {
            self.branches[place - 1].node.0 == node.0
        }
    }

    /// Marks each of the candidates that is at a node of the walk at that place, and tells from which one
    /// to which one marks stand; linear in its steps, where nodes are looked up.
    pub(crate) fn mark(&self, place: usize, candidates: &CandidateNodes, marks: &mut [bool]) -> Span
        requires within { place < length self.now }
        requires nodes { AreCandidateNodes candidates.now }
        requires few { length candidates.now ≤ length marks.old }
        requires none { All (λ m. m ≡ false) marks.old }
        ensures marks { AreMarks candidates.now (walk_at self.now place) marks.new }
        ensures span { IsSpanOf (length candidates.now) marks.new result }
    {
        let mut span = Span {
            low: candidates.len(),
            end: 0,
        };
        let mut at = place;
        while at > 0 {
            let branch = self.branches[at - 1];
            mark_at(branch.node, candidates, marks, &mut span);
            at = branch.before as usize;
        }
        span
    }
}
