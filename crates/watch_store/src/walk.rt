//! The walk along one chain.
ghost use Rattle.std.specs.Prelude.{◌≡◌, ℕ, ◌+◌, ◌^◌, ◌<◌, ◌≤◌, List, ◌∷◌, length, IfSome, IfNone, slice_index, slice_index_or};
ghost use Rattle.sat_core.specs.Clauses.{negated};
ghost use Rattle.search_trail.specs.Trails.{Grows};
ghost use Rattle.search_trail.specs.declared.entry.Entry.{Entry};
ghost use Rattle.conflict_learn.specs.Learning.{IsConflict};
ghost use Rattle.watch_store.specs.Places.{live_in};
ghost use Rattle.watch_store.specs.Watching.{other_of, nexts_of, holders};
ghost use Rattle.watch_store.specs.Walking.{IsMidWalk, StepTells, IsStore};

use crate::found::{Visit, read_clause};
use crate::node::Node;
use crate::relink::relink;
use crate::table::ClauseTable;
use sat_core::ClauseId;
use search_trail::Trail;
use std::sync::ledger::Ledger;
use vss_steps::Steps;

/// What a step left of the node.
#[derive(Clone, Copy, Debug)]
pub enum Left {
    /// The node stands where it stood.
    Here,
    /// The node stands in another chain.
    Gone,
    /// The node stands where it stood, and its clause is false.
    Conflict,
}

/// Walks the chain of the literal that the first unread one makes false, and marks that one as read. Gives a clause
/// that is false, if it meets one.
pub(crate) fn walk<L: Ledger>(
    heads: &mut [u32],
    nodes: &mut [Node],
    table: &ClauseTable,
    trail: &mut Trail,
    steps: &mut Steps<L>,
) -> Option<ClauseId>
    requires store { IsStore table.now heads.old nodes.old trail.old }
    requires unread { trail.old.read < length trail.old.entries }
    ensures store { IsStore table.now heads.new nodes.new trail.new }
    ensures grows { Grows trail.old trail.new }
    ensures visits { (d : Entry) → steps.new ≤ steps.old + holders (live_in table.now) (negated (slice_index_or trail.old.entries trail.old.read d).lit) }
    ensures read { IfNone result (trail.new.read ≡ trail.old.read + 1) }
    ensures conflict { IfSome result (IsConflict (live_in table.now) trail.new) }
{
    let falsified = trail.at(trail.read()).negated();
    let home = falsified.place();
    let mut before = None;
    let mut at = heads[home];
    'chain: for visited in 0..nodes.len() {
        if at as usize >= nodes.len() {
            break;
        }
        steps.tick();
        let after = nodes[at as usize].next;
        match step(heads, nodes, table, trail, home, before, at) {
            Left::Here => before = Some(at),
            Left::Gone => {}
            Left::Conflict => return Some(table.number(at as usize / 2)),
        }
        at = after;
    }
    trail.mark_read();
    None
}

/// One visit: the node is kept, moved or kept with its other watch forced; or its clause is false.
pub(crate) fn step(
    heads: &mut [u32],
    nodes: &mut [Node],
    table: &ClauseTable,
    trail: &mut Trail,
    home: usize,
    before: Option<u32>,
    node: u32,
) -> Left
    requires { (kept : List ℕ) × (rest : List ℕ) × IsMidWalk table.now heads.old nodes.old trail.old home kept (node ∷ rest) before node }
    ensures grows { Grows trail.old trail.new }
    ensures read { trail.new.read ≡ trail.old.read }
    ensures tells { (kept rest : List ℕ) → IsMidWalk table.now heads.old nodes.old trail.old home kept (node ∷ rest) before node → StepTells table.now heads.new nodes.new trail.new home kept node rest before (slice_index (nexts_of nodes.old) node) result }
{
    let partner = nodes[other(node as usize)].watch;
    // half of the visits end here, before the clause is read
    if trail.is_true(partner) {
        return Left::Here;
    }
    let place = node as usize / 2;
    match read_clause(trail, table.clause(place), partner) {
        Visit::Moved(lit) => {
            relink(heads, nodes, home, before, node, lit);
            Left::Gone
        }
        Visit::Forced => {
            trail.assign(partner, table.number(place));
            Left::Here
        }
        Visit::Conflict => Left::Conflict,
    }
}

/// The other node of the same clause.
pub(crate) fn other(node: usize) -> usize
    requires { node < 2 ^ 32 }
    ensures { result ≡ other_of node }
{
    if node % 2 == 0 { node + 1 } else { node - 1 }
}
