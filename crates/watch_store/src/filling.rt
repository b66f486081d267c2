//! The clauses of a formula, put into an empty store.
ghost use Rattle.std.specs.Prelude.{◌≡◌, ◌-◌, ◌^◌, ◌<◌, [], OnOk};
ghost use Rattle.sat_core.specs.Clauses.{IsClause};
ghost use Rattle.sat_core.specs.Derivation.{numbered_from};
ghost use Rattle.watch_store.specs.Fits.{IsKeeping, IsPair};
ghost use Rattle.watch_store.specs.Places.{live_in};

use crate::adding::put;
use crate::choosing::idle;
use crate::node::Node;
use crate::table::ClauseTable;
use sat_core::{ClauseId, Formula, Lit};
use std::alloc::AllocError;

/// Puts the clauses of the formula into a store without clauses. Linear in the literals.
pub(crate) fn fill(
    table: &mut ClauseTable,
    heads: &mut [u32],
    nodes: &mut Vec<Node>,
    formula: &Formula,
) -> Result<(), AllocError>
    requires keeping { IsKeeping table.old heads.old nodes.old.items }
    requires vars { table.old.vars ≡ formula.now.vars }
    requires empty { live_in table.old ≡ [] }
    ensures keeping { OnOk result (IsKeeping table.new heads.new nodes.new.items) }
    ensures vars { OnOk result (table.new.vars ≡ table.old.vars) }
    ensures live { OnOk result (live_in table.new ≡ numbered_from 1 formula.now.clauses) }
{
    'clauses: for place in 0..formula.len() {
        let id = ClauseId(place + 1);
        let lits = formula.clause(id);
        put(
            table,
            heads,
            nodes,
            id,
            lits,
            first_two(lits, formula.vars()),
        )?;
    }
    Ok(())
}

/// The first two literals of a clause, or idle ones where it has fewer.
fn first_two(lits: &[Lit], vars: u32) -> (Lit, Lit)
    requires vars { vars < 2 ^ 32 - 1 }
    requires clause { IsClause vars lits.now }
    ensures { IsPair vars lits.now result.0 result.1 }
{
    if lits.len() < 2 {
        idle(vars)
    } else {
        (lits[0], lits[1])
    }
}
