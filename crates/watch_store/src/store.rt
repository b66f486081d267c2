//! The store, and its calls.
ghost use Rattle.std.specs.Prelude.{◌≡◌, ◌≢◌, ◌⊎◌, ◌+◌, ◌<◌, ◌≤◌, [], not, nat_eq, drop, filter, length, All, IfOk, OnOk, OnErr, IfSome, IfNone, Some, None};
ghost use Rattle.sat_core.specs.declared.literal.Lit.{Lit};
ghost use Rattle.sat_core.specs.Clauses.{IsClause};
ghost use Rattle.sat_core.specs.Derivation.{numbered_from};
ghost use Rattle.sat_core.specs.Fresh.{IsClosed, IsUnitUnder};
ghost use Rattle.sat_core.specs.Hints.{clause_of};
ghost use Rattle.search_trail.specs.Trails.{TrailParts, IsTrail, Grows, known_of, assigned};
ghost use Rattle.conflict_learn.specs.Learning.{IsConflict};
ghost use Rattle.watch_store.specs.Places.{IsInserted};
ghost use Rattle.watch_store.specs.Watching.{visits_for};
ghost use Rattle.watch_store.specs.Fits.{FitsTrail, AreShortTrue, IsSameStore, HasTwoNotFalse, IsUnitNow};

use crate::adding::put;
use crate::choosing::pair_for;
use crate::compacting::refill;
use crate::ending::end;
use crate::filling::fill;
use crate::node::Node;
use crate::propagation::propagate;
use crate::table::ClauseTable;
use conflict_learn::Clauses;
use sat_core::{ClauseId, Formula, Lit};
use search_trail::Trail;
use std::alloc::{AllocError, Global};
use std::marker::Model;
use std::sync::ledger::Ledger;
use vss_steps::Steps;

/// The live clauses of a search. Each one of two or more literals stands in the chains of the two that it watches, and in
/// no others; the chains are linked by index in flat vectors.
///
/// It takes eight bytes a literal, 32 for each clause that was added, eight for each number up to the greatest, and eight
/// a variable.
#[derive(Debug, Drop)]
pub struct WatchStore {
    table: ClauseTable,
    // by literal: the first node of its chain
    heads: Vec<u32>,
    // two for each clause of the table
    nodes: Vec<Node>,
}

impl Model for WatchStore {
    ghost use Rattle.watch_store.specs.Places.{live_in};
    ghost use Rattle.watch_store.specs.Watching.{watches_of};
    ghost use Rattle.watch_store.specs.Fits.{StoreParts, IsKeeping};

    ghost Value = { StoreParts };

    ghost view = { λ s. record { vars = s.table.vars; live = live_in s.table; watches = watches_of s.nodes.items } };

    ghost invariant = { λ s. IsKeeping s.table s.heads.items s.nodes.items };
}

impl WatchStore {
    /// The clauses of the formula are live, numbered from 1. Linear in its literals and variables. Want of memory stands
    /// alone; it is answered too where 32 bits can't number the nodes.
    pub fn new(formula: Formula) -> Result<WatchStore, AllocError>
        ensures vars { IfOk result (λ s. s.vars ≡ formula.vars) }
        ensures live { IfOk result (λ s. s.live ≡ numbered_from 1 formula.clauses) }
        ensures fits { IfOk result (λ s. (t : TrailParts) → IsTrail t → t.vars ≡ formula.vars → t.entries ≡ [] → FitsTrail s t) }
    {
        let alloc = formula.allocator();
        let vars = formula.vars();
        if vars == u32::MAX {
            return Err(AllocError);
        }
        let mut table = ClauseTable::new(alloc, vars);
        let mut heads = vec![in alloc; u32::MAX; 2 * vars as usize + 2]?;
        let mut nodes = Vec::new(alloc);
        fill(&mut table, heads.as_mut_slice(), &mut nodes, &formula)?;
        Ok(WatchStore {
            table,
            heads,
            nodes,
        })
    }

    /// One more live clause. One that is unit on the trail watches its open literal and a false one of the present level:
    /// store and trail fit again as soon as the open literal is assigned. Linear in the literals. After want of memory the
    /// store is as it was.
    pub fn add(&mut self, id: ClauseId, lits: &[Lit], trail: &Trail) -> Result<(), AllocError>
        requires new_number { clause_of self.old.live id ≡ None }
        requires clause { IsClause self.old.vars lits.now }
        requires fits { FitsTrail self.old trail.now }
        requires watchable { 2 ≤ length lits.now → HasTwoNotFalse (known_of trail.now.entries) lits.now ⊎ IsUnitNow trail.now lits.now }
        ensures vars { self.new.vars ≡ self.old.vars }
        ensures live { OnOk result (IsInserted id lits.now self.old.live self.new.live) }
        ensures err { OnErr result (self.new ≡ self.old) }
        ensures fits { OnOk result ((length lits.now < 2) ⊎ HasTwoNotFalse (known_of trail.now.entries) lits.now → FitsTrail self.new trail.now) }
        ensures forced { OnOk result ((lit : Lit) → IsUnitUnder (known_of trail.now.entries) lits.now lit → FitsTrail self.new (assigned trail.now lit id)) }
    {
        let pair = pair_for(trail, lits, self.table.vars());
        put(
            &mut self.table,
            self.heads.as_mut_slice(),
            &mut self.nodes,
            id,
            lits,
            pair,
        )
    }

    /// The live clause with that number is live no longer. Linear in the chains of its watched literals. Takes no memory.
    pub fn discard(&mut self, id: ClauseId)
        requires live { clause_of self.old.live id ≢ None }
        ensures vars { self.new.vars ≡ self.old.vars }
        ensures live { self.new.live ≡ filter (λ clause. not (nat_eq clause.id.0 id.0)) self.old.live }
        ensures fits { (t : TrailParts) → FitsTrail self.old t → All (λ e. e.reason ≢ Some id) t.entries → FitsTrail self.new t }
    {
        match self.table.place(id) {
            Some(place) => end(
                &mut self.table,
                self.heads.as_mut_slice(),
                self.nodes.as_mut_slice(),
                place as usize,
            ),
            None => unreachable!(),
        }
    }

    /// Only live clauses keep their room, each with the watches that it has. Linear in their literals, in the numbers up to
    /// the greatest and in the variables. After want of memory the store is as it was.
    pub fn compact(&mut self) -> Result<(), AllocError>
        ensures same { IsSameStore self.old self.new }
        ensures fits { (t : TrailParts) → FitsTrail self.old t → FitsTrail self.new t }
        ensures err { OnErr result (self.new ≡ self.old) }
    {
        let alloc = *self.nodes.allocator();
        let mut table = ClauseTable::new(alloc, self.table.vars());
        let mut heads = vec![in alloc; u32::MAX; 2 * self.table.vars() as usize + 2]?;
        let mut nodes = Vec::new(alloc);
        refill(
            &self.table,
            self.nodes.as_slice(),
            &mut table,
            heads.as_mut_slice(),
            &mut nodes,
        )?;
        self.table = table;
        self.heads = heads;
        self.nodes = nodes;
        Ok(())
    }

    /// Makes true what the clauses of two or more literals force, at the present level, and marks as read what it has
    /// looked into. Gives a false live clause, or none where no clause is unit or false. Each visit of a clause ticks.
    /// Takes no memory.
    pub fn propagate<L: Ledger>(
        &mut self,
        trail: &mut Trail,
        steps: &mut Steps<L>,
    ) -> Option<ClauseId>
        requires fits { FitsTrail self.old trail.old }
        ensures same { IsSameStore self.old self.new }
        ensures fits { FitsTrail self.new trail.new }
        ensures grows { Grows trail.old trail.new }
        ensures visits { steps.new ≤ steps.old + visits_for self.old.live (drop trail.old.read trail.new.entries) }
        ensures conflict { IfSome result (IsConflict self.old.live trail.new) }
        ensures all_read { IfNone result (trail.new.read ≡ length trail.new.entries) }
        ensures closed { IfNone result (AreShortTrue self.old.live trail.new → IsClosed (known_of trail.new.entries) self.old.live) }
    {
        propagate(
            self.heads.as_mut_slice(),
            self.nodes.as_mut_slice(),
            &self.table,
            trail,
            steps,
        )
    }
}

impl Clauses for WatchStore {
    ghost live = { λ s. s.live };

    fn lits(&self, id: ClauseId) -> Option<&[Lit]> {
        self.table.lits(id)
    }
}
