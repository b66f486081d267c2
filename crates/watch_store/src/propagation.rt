//! Walks along chains, until all literals are read.
ghost use Rattle.std.specs.Prelude.{◌≡◌, ◌+◌, ◌≤◌, drop, length, IfSome, IfNone};
ghost use Rattle.search_trail.specs.Trails.{Grows};
ghost use Rattle.conflict_learn.specs.Learning.{IsConflict};
ghost use Rattle.watch_store.specs.Places.{live_in};
ghost use Rattle.watch_store.specs.Watching.{visits_for};
ghost use Rattle.watch_store.specs.Walking.{IsStore};

use crate::node::Node;
use crate::table::ClauseTable;
use crate::walk::walk;
use sat_core::ClauseId;
use search_trail::Trail;
use std::sync::ledger::Ledger;
use vss_steps::Steps;

/// Makes true what the clauses force. Gives a false clause, or none where all literals are read.
pub(crate) fn propagate<L: Ledger>(
    heads: &mut [u32],
    nodes: &mut [Node],
    table: &ClauseTable,
    trail: &mut Trail,
    steps: &mut Steps<L>,
) -> Option<ClauseId>
    requires { IsStore table.now heads.old nodes.old trail.old }
    ensures store { IsStore table.now heads.new nodes.new trail.new }
    ensures grows { Grows trail.old trail.new }
    ensures visits { steps.new ≤ steps.old + visits_for (live_in table.now) (drop trail.old.read trail.new.entries) }
    ensures conflict { IfSome result (IsConflict (live_in table.now) trail.new) }
    ensures all_read { IfNone result (trail.new.read ≡ length trail.new.entries) }
{
    'unread: while trail.read() < trail.len() {
        match walk(heads, nodes, table, trail, steps) {
            None => {}
            Some(id) => return Some(id),
        }
    }
    None
}
