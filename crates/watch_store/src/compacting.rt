//! The live clauses alone, put into an empty store.
ghost use Rattle.std.specs.Prelude.{◌≡◌, ◌-◌, ◌+◌, ◌*◌, ◌^◌, ◌<◌, [], length, IfOk, OnOk};
ghost use Rattle.watch_store.specs.Fits.{IsKeeping, IsPair, IsSamePair, ArePairsOf};
ghost use Rattle.watch_store.specs.Places.{IsLiveAt, live_in, clause_at};
ghost use Rattle.watch_store.specs.Watching.{IsWatching, watches_of};

use crate::adding::put;
use crate::choosing::idle;
use crate::node::Node;
use crate::table::ClauseTable;
use sat_core::{ClauseId, Lit};
use std::alloc::AllocError;

/// Puts the live clauses of a table into a store without clauses, each with the watches that it has. Linear in their
/// literals and in the numbers.
pub(crate) fn refill(
    from: &ClauseTable,
    watching: &[Node],
    table: &mut ClauseTable,
    heads: &mut [u32],
    nodes: &mut Vec<Node>,
) -> Result<(), AllocError>
    requires from { IsWatching from.now (watches_of watching.now) }
    requires keeping { IsKeeping table.old heads.old nodes.old.items }
    requires vars { table.old.vars ≡ from.now.vars }
    requires empty { live_in table.old ≡ [] }
    requires no_nodes { nodes.old.items ≡ [] }
    ensures keeping { OnOk result (IsKeeping table.new heads.new nodes.new.items) }
    ensures vars { OnOk result (table.new.vars ≡ from.now.vars) }
    ensures live { OnOk result (live_in table.new ≡ live_in from.now) }
    ensures pairs { OnOk result (ArePairsOf from.now.vars (watches_of watching.now) (watches_of nodes.new.items)) }
{
    'numbers: for number in 0..from.numbers() {
        let id = numbered(number)?;
        match from.place(id) {
            Some(place) => {
                let lits = from.clause(place as usize);
                let pair = same_pair(from, watching, place as usize);
                put(table, heads, nodes, id, lits, pair)?;
            }
            None => {}
        }
    }
    Ok(())
}

/// What the live clause at that place watches; idle literals where it has fewer than two.
fn same_pair(from: &ClauseTable, watching: &[Node], place: usize) -> (Lit, Lit)
    requires from { IsWatching from.now (watches_of watching.now) }
    requires vars { from.now.vars < 2 ^ 32 - 1 }
    requires inside { place < length from.now.clauses }
    requires live { IsLiveAt from.now place }
    ensures pair { IsPair from.now.vars (clause_at from.now place) result.0 result.1 }
    ensures same { IsSamePair from.now.vars (2 * place) (watches_of watching.now) result.0 result.1 }
{
    if from.clause(place).len() < 2 {
        return idle(from.vars());
    }
    let node = 2 * place;
    (watching[node].watch, watching[node + 1].watch)
}

/// The clause number of so many; those of clauses have 32 bits.
fn numbered(number: usize) -> Result<ClauseId, AllocError>
    ensures { IfOk result (λ id. id.0 ≡ number) }
{
    match u32::try_from(number) {
        Ok(id) => Ok(ClauseId(id)),
        Err(_) => Err(AllocError),
    }
}
