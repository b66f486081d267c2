//! What the watch solver keeps.
use crate::pace::Pace;
use activity_order::ActivityOrder;
use conflict_learn::LearnSpace;
use sat_core::{ClauseId, Valuation};
use search_history::History;
use search_trail::Trail;
use std::alloc::Global;
use watch_store::WatchStore;

/// All that the solver knows but whether it met want of memory.
#[derive(Drop)]
pub(crate) struct State {
    pub(crate) alloc: Global,
    // the formula's clauses, the units and the learned ones
    pub(crate) store: WatchStore,
    // how many of them are the formula's
    pub(crate) given: u32,
    // the greatest number that a clause has got
    pub(crate) last: u32,
    pub(crate) history: History,
    pub(crate) trail: Trail,
    pub(crate) space: LearnSpace,
    pub(crate) order: ActivityOrder,
    // by variable: the number of the clause in whose learning it was met last
    pub(crate) stamps: Vec<u32>,
    // by number of a clause: the number of the one in whose learning it was met last
    pub(crate) met: Vec<u32>,
    pub(crate) pace: Pace,
    // the number of conflicts at which clauses are dropped next, or 0
    pub(crate) drop_at: u32,
    pub(crate) valuation: Valuation,
    pub(crate) found: bool,
    pub(crate) refuted: bool,
    // a clause that was false at level 0 as soon as it came
    pub(crate) clash: Option<ClauseId>,
}
