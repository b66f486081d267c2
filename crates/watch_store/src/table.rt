//! The clauses by place, each under its number.
ghost use Rattle.std.specs.Prelude.{◌≡◌, ◌-◌, ◌^◌, ◌<◌, ◌≤◌, [], ◌++◌, length, replicate, vec_capacity, OnOk, OnErr, MatchOption, Some, None, slice_index_or};
ghost use Rattle.sat_core.specs.Clauses.{IsClause};
ghost use Rattle.sat_core.specs.Hints.{clause_of};
ghost use Rattle.watch_store.specs.Places.{ArePlaced, IsLiveAt, live_in, clause_at, number_of_place, with_clause, without_clause};

use sat_core::{ClauseId, Lit};
use std::alloc::{AllocError, Global};
use std::marker::Model;
use vss_rows::Rows;

/// Clauses over the variables 1 to `vars`, in the order in which they came, and which of them are live.
#[derive(Debug, Drop)]
pub(crate) struct ClauseTable {
    vars: u32,
    clauses: Rows<Lit>,
    // of each place
    numbers: Vec<ClauseId>,
    // of each number: where the live clause stands
    places: Vec<Option<u32>>,
}

impl Model for ClauseTable {
    ghost use Rattle.watch_store.specs.Places.{PlacedClauses, ArePlaced};

    ghost Value = { PlacedClauses };

    ghost view = { λ t. record { vars = t.vars; clauses = t.clauses; numbers = t.numbers.items; places = t.places.items } };

    ghost invariant = { λ t. ArePlaced (record { vars = t.vars; clauses = t.clauses; numbers = t.numbers.items; places = t.places.items }) };
}

impl ClauseTable {
    /// No clauses.
    pub(crate) fn new(alloc: Global, vars: u32) -> ClauseTable
        ensures { result ≡ record { vars = vars; clauses = []; numbers = []; places = [] } }
    {
        ClauseTable {
            vars,
            clauses: Rows::new(alloc),
            numbers: Vec::new(alloc),
            places: Vec::new(alloc),
        }
    }

    /// How many variables there are.
    pub(crate) fn vars(&self) -> u32
        ensures { result ≡ self.now.vars }
    {
        self.vars
    }

    /// How many places there are.
    pub(crate) fn len(&self) -> usize
        ensures value { result ≡ length self.now.clauses }
        ensures laws { ArePlaced self.now }
    {
        self.numbers.len()
    }

    /// How many numbers there are places for.
    pub(crate) fn numbers(&self) -> usize
        ensures { result ≡ length self.now.places }
    {
        self.places.len()
    }

    /// The clause at a place.
    pub(crate) fn clause(&self, place: usize) -> &[Lit]
        requires { place < length self.now.clauses }
        ensures { clause_at self.now place ≡ result.now }
    {
        self.clauses.row(place)
    }

    /// Its number.
    pub(crate) fn number(&self, place: usize) -> ClauseId
        requires { place < length self.now.clauses }
        ensures { number_of_place self.now place ≡ result }
    {
        self.numbers[place]
    }

    /// The place of the live clause with that number.
    pub(crate) fn place(&self, id: ClauseId) -> Option<u32>
        ensures value { slice_index_or self.now.places id.0 None ≡ result }
        ensures laws { ArePlaced self.now }
    {
        match self.places.get(id.0 as usize) {
            Some(place) => *place,
            None => None,
        }
    }

    /// The literals of the live clause with that number.
    pub(crate) fn lits(&self, id: ClauseId) -> Option<&[Lit]>
        ensures { MatchOption result (clause_of (live_in self.now) id ≡ None) (λ lits. clause_of (live_in self.now) id ≡ Some lits.now) }
    {
        match self.place(id) {
            Some(place) => Some(self.clause(place as usize)),
            None => None,
        }
    }

    /// One more live clause, at the next place. After want of memory the clauses are as they were. Linear in the literals,
    /// and in the numbers that are left out.
    pub(crate) fn push(&mut self, id: ClauseId, lits: &[Lit]) -> Result<(), AllocError>
        requires clause { IsClause self.old.vars lits.now }
        requires new_number { clause_of (live_in self.old) id ≡ None }
        requires few { length self.old.clauses < 2 ^ 32 }
        ensures ok { OnOk result (self.new ≡ with_clause self.old id lits.now) }
        ensures err { OnErr result (self.new ≡ self.old) }
    {
        let count = id.0 as usize + 1;
        self.numbers.reserve(1)?;
        self.places
            .reserve(count.saturating_sub(self.places.len()))?;
        self.clauses.push(lits)?;
        let place = self.numbers.len() as u32;
        self.numbers.push_reserved(id);
        pad(&mut self.places, count);
        self.places[id.0 as usize] = Some(place);
        Ok(())
    }

    /// The clause at that place is live no longer.
    pub(crate) fn end(&mut self, place: usize)
        requires { IsLiveAt self.old place }
        ensures { self.new ≡ without_clause self.old place }
    {
        let id = self.numbers[place];
        self.places[id.0 as usize] = None;
    }
}

/// Numbers without a live clause, up to so many numbers.
fn pad(places: &mut Vec<Option<u32>>, count: usize)
    requires room { count ≤ vec_capacity places.old }
    ensures { places.new.items ≡ places.old.items ++ replicate (count - length places.old.items) None }
{
    'numbers: while places.len() < count {
        places.push_reserved(None);
    }
}
