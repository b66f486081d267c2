//! The state of a solver that was given a formula and nothing else yet.
ghost use Rattle.std.specs.Prelude.{◌≡◌, IfOk, [], false};
ghost use Rattle.watch_solver.specs.Running.{IsWatchState, first_clauses};

use crate::pace::Pace;
use crate::seating::seat_all;
use crate::state::State;
use activity_order::ActivityOrder;
use conflict_learn::LearnSpace;
use sat_core::{Formula, Valuation};
use search_history::History;
use search_trail::Trail;
use std::alloc::AllocError;
use vss_lists::Items;
use watch_store::WatchStore;

/// Nothing is given or derived yet; the formula's clauses of one literal are true. Linear in the literals and variables.
pub(crate) fn begin(formula: Formula) -> Result<State, AllocError>
    ensures state { IfOk result IsWatchState }
    ensures vars { IfOk result (λ s. s.store.vars ≡ formula.vars) }
    ensures formula { IfOk result (λ s. first_clauses s.given s.store.live ≡ formula.clauses) }
    ensures nothing_yet { IfOk result (λ s. s.history ≡ []) }
    ensures fresh { IfOk result (λ s. s.found ≡ false) }
{
    let alloc = formula.allocator();
    let vars = formula.vars();
    let given = formula.len();
    let mut trail = Trail::new(alloc, vars)?;
    let space = LearnSpace::new(alloc, vars)?;
    let order = ActivityOrder::new(alloc, vars)?;
    let stamps = vec![in alloc; 0u32; vars as usize]?;
    let values = vec![in alloc; false; vars as usize]?;
    let met = vec![in alloc; 0u32; given as usize + 1]?;
    let store = WatchStore::new(formula)?;
    let clash = seat_all(&store, &mut trail, given);
    Ok(State {
        alloc,
        store,
        given,
        last: given,
        history: History::new(alloc),
        trail,
        space,
        order,
        stamps,
        met,
        pace: Pace::new(),
        drop_at: 2000,
        valuation: Valuation {
            values: Items::from_vec(values),
        },
        found: false,
        refuted: false,
        clash,
    })
}
