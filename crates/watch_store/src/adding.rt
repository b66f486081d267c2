//! A new clause: its place, and its two nodes, each in front of its chain.
ghost use Rattle.std.specs.Prelude.{◌≡◌, ◌+◌, ◌-◌, ◌^◌, ◌<◌, ◌≤◌, [], ◌∷◌, ◌++◌, length, vec_len, vec_capacity, OnOk, OnErr, None};
ghost use Rattle.sat_core.specs.Clauses.{IsClause};
ghost use Rattle.sat_core.specs.Hints.{clause_of};
ghost use Rattle.sat_core.specs.Marks.{mark_place};
ghost use Rattle.watch_store.specs.Chains.{AreChained};
ghost use Rattle.watch_store.specs.Fits.{IsKeeping, IsPair};
ghost use Rattle.watch_store.specs.Places.{IsInserted, live_in, with_clause};
ghost use Rattle.watch_store.specs.Watching.{watches_of, nexts_of, homes_of};

use crate::node::Node;
use crate::table::ClauseTable;
use sat_core::{ClauseId, Lit};
use std::alloc::AllocError;

/// One more live clause, which watches these literals. All memory is taken before anything changes.
pub(crate) fn put(
    table: &mut ClauseTable,
    heads: &mut [u32],
    nodes: &mut Vec<Node>,
    id: ClauseId,
    lits: &[Lit],
    pair: (Lit, Lit),
) -> Result<(), AllocError>
    requires keeping { IsKeeping table.old heads.old nodes.old.items }
    requires new_number { clause_of (live_in table.old) id ≡ None }
    requires clause { IsClause table.old.vars lits.now }
    requires pair { IsPair table.old.vars lits.now pair.0 pair.1 }
    ensures keeping { IsKeeping table.new heads.new nodes.new.items }
    ensures table { OnOk result (table.new ≡ with_clause table.old id lits.now) }
    ensures watches { OnOk result (watches_of nodes.new.items ≡ (watches_of nodes.old.items ++ pair.0 ∷ []) ++ pair.1 ∷ []) }
    ensures live { OnOk result (IsInserted id lits.now (live_in table.old) (live_in table.new)) }
    ensures err { OnErr result ((table.new ≡ table.old) × (watches_of nodes.new.items ≡ watches_of nodes.old.items)) }
{
    if table.len() >= MOST_CLAUSES {
        return Err(AllocError);
    }
    nodes.reserve(2)?;
    table.push(id, lits)?;
    add_pair(heads, nodes, pair.0, pair.1);
    Ok(())
}

/// Two nodes a clause, and the greatest number of 32 bits is no node's.
const MOST_CLAUSES: usize = 2_147_483_646;

/// Watches two literals of a new clause. Takes no memory, since there is room for two nodes.
pub(crate) fn add_pair(heads: &mut [u32], nodes: &mut Vec<Node>, first: Lit, second: Lit)
    requires room { vec_len nodes.old + 2 ≤ vec_capacity nodes.old }
    requires few { vec_len nodes.old + 1 < 2 ^ 32 - 1 }
    requires variables { (1 ≤ first.var.0) × (1 ≤ second.var.0) }
    requires homes { (mark_place first < length heads.old) × (mark_place second < length heads.old) }
    requires chained { AreChained heads.old (nexts_of nodes.old.items) (homes_of (watches_of nodes.old.items)) }
    ensures watches { watches_of nodes.new.items ≡ (watches_of nodes.old.items ++ first ∷ []) ++ second ∷ [] }
    ensures chained { AreChained heads.new (nexts_of nodes.new.items) (homes_of (watches_of nodes.new.items)) }
{
    push_node(heads, nodes, first);
    push_node(heads, nodes, second);
}

/// Puts one node more in front of the chain of its literal.
fn push_node(heads: &mut [u32], nodes: &mut Vec<Node>, watch: Lit)
    requires room { vec_len nodes.old < vec_capacity nodes.old }
    requires few { vec_len nodes.old < 2 ^ 32 - 1 }
    requires variable { 1 ≤ watch.var.0 }
    requires home { mark_place watch < length heads.old }
    requires chained { AreChained heads.old (nexts_of nodes.old.items) (homes_of (watches_of nodes.old.items)) }
    ensures watches { watches_of nodes.new.items ≡ watches_of nodes.old.items ++ watch ∷ [] }
    ensures chained { AreChained heads.new (nexts_of nodes.new.items) (homes_of (watches_of nodes.new.items)) }
    ensures len { vec_len nodes.new ≡ vec_len nodes.old + 1 }
    ensures capacity { vec_capacity nodes.new ≡ vec_capacity nodes.old }
{
    let home = watch.place();
    let node = nodes.len() as u32;
    nodes.push_reserved(Node {
        watch,
        next: heads[home],
    });
    heads[home] = node;
}
