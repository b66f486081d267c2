//! The trail, and its calls.
ghost use Rattle.std.specs.Prelude.{◌≡◌, ◌+◌, ◌-◌, ◌*◌, ◌<◌, ◌≤◌, [], ◌∷◌, ◌++◌, length, IfOk, Any, All, slice_index_or, min, ◌≢◌, None, MatchOption};
ghost use Rattle.sat_core.specs.Clauses.{IsOver};
ghost use Rattle.sat_core.specs.Fresh.{IsOpen};
ghost use Rattle.sat_core.specs.Hints.{is_known};
ghost use Rattle.search_trail.specs.Trails.{known_of, TruthOf, IsTrail, IsCutBack, assigned, decided};
ghost use Rattle.search_trail.specs.declared.entry.Entry.{Entry};

use crate::entry::{Entry, Truth};
use crate::undo::undo;
use sat_core::{ClauseId, Lit, Var};
use std::alloc::{AllocError, Global};
use std::marker::Model;

/// The literals that are true, in the order in which they became so.
///
/// Six bytes a variable and twenty for each entry that may come, all taken by `new`: no other call takes memory.
#[derive(Debug, Drop)]
pub struct Trail {
    vars: u32,
    present: u32,
    read: u32,
    // two for each variable
    marks: Vec<bool>,
    // by variable; a place that is out of date belongs to another variable
    places: Vec<u32>,
    entries: Vec<Entry>,
}

impl Model for Trail {
    ghost use Rattle.std.specs.Prelude.{vec_capacity};
    ghost use Rattle.search_trail.specs.Trails.{TrailParts};
    ghost use Rattle.search_trail.specs.Kept.{IsKept};

    ghost Value = { TrailParts };

    ghost view = { λ t. record { vars = t.vars; entries = t.entries.items; read = t.read; present = t.present } };

    ghost invariant = { λ t. IsKept (record { vars = t.vars; entries = t.entries.items; read = t.read; present = t.present }) t.marks.items t.places.items (vec_capacity t.entries) };
}

impl Trail {
    /// The empty trail over the variables 1 to `vars`, at level 0. Linear in `vars`; want of memory stands alone.
    pub fn new(alloc: Global, vars: u32) -> Result<Trail, AllocError>
        ensures vars { IfOk result (λ fresh. fresh.vars ≡ vars) }
        ensures empty { IfOk result (λ fresh. (fresh.entries ≡ []) × (fresh.read ≡ 0) × (fresh.present ≡ 0)) }
    {
        Ok(Trail {
            vars,
            present: 0,
            read: 0,
            marks: vec![in alloc; false; 2 * vars as usize]?,
            places: vec![in alloc; 0u32; vars as usize]?,
            entries: Vec::with_capacity(alloc, vars as usize)?,
        })
    }

    /// How many literals are true.
    pub fn len(&self) -> u32
        ensures value { result ≡ length self.now.entries }
        ensures laws { IsTrail self.now }
    {
        self.entries.len() as u32
    }

    /// How many variables there are.
    pub fn vars(&self) -> u32
        ensures value { result ≡ self.now.vars }
    {
        self.vars
    }

    /// The present level: how many decisions stand.
    pub fn now(&self) -> u32
        ensures value { result ≡ self.now.present }
    {
        self.present
    }

    /// How many literals, from the front, have been read.
    pub fn read(&self) -> u32
        ensures value { result ≡ self.now.read }
    {
        self.read
    }

    /// The next literal has been read.
    pub fn mark_read(&mut self)
        requires unread { self.old.read < length self.old.entries }
        ensures one_more { self.new ≡ record self.old { read = self.old.read + 1 } }
    {
        self.read += 1;
    }

    /// Whether the literal is true: one read.
    pub fn is_true(&self, lit: Lit) -> bool
        requires in_range { IsOver self.now.vars lit }
        ensures value { result ≡ is_known (known_of self.now.entries) lit }
    {
        self.marks[lit.place()]
    }

    /// Whether the literal is true, false or open: at most two reads.
    pub fn value(&self, lit: Lit) -> Truth
        requires in_range { IsOver self.now.vars lit }
        ensures value { TruthOf self.now.entries lit result }
    {
        if self.marks[lit.place()] {
            Truth::Yes
        } else if self.marks[lit.negated().place()] {
            Truth::No
        } else {
            Truth::Open
        }
    }

    /// The literal at a place, counted from 0 in the order in which they became true.
    pub fn at(&self, place: u32) -> Lit
        requires within { place < length self.now.entries }
        ensures value { (d : Entry) → (slice_index_or self.now.entries place d).lit ≡ result }
    {
        self.entries[place as usize].lit
    }

    /// The place of the variable's literal, counted from 0; none where the variable is open. In constant time.
    pub fn place(&self, var: Var) -> Option<u32>
        requires in_range { (1 ≤ var.0) × (var.0 ≤ self.now.vars) }
        ensures value { MatchOption result (All (λ e. e.lit.var.0 ≢ var.0) self.now.entries) (λ place. (place < length self.now.entries) × ((d : Entry) → (slice_index_or self.now.entries place d).lit.var.0 ≡ var.0)) }
    {
        let place = self.places[var.0 as usize - 1];
        match self.entries.get(place as usize) {
            Some(entry) if entry.lit.var.0 == var.0 => Some(place),
            _ => None,
        }
    }

    /// The clause that forced the variable's literal; none where it was decided, and where it is open.
    pub fn reason(&self, var: Var) -> Option<ClauseId>
        requires in_range { (1 ≤ var.0) × (var.0 ≤ self.now.vars) }
        ensures value { All (λ e. e.lit.var.0 ≡ var.0 → e.reason ≡ result) self.now.entries }
        ensures none_where_open { All (λ e. e.lit.var.0 ≢ var.0) self.now.entries → result ≡ None }
    {
        match self.entries.get(self.places[var.0 as usize - 1] as usize) {
            Some(entry) if entry.lit.var.0 == var.0 => entry.reason,
            _ => None,
        }
    }

    /// The level at which the variable was assigned.
    pub fn level(&self, var: Var) -> u32
        requires in_range { (1 ≤ var.0) × (var.0 ≤ self.now.vars) }
        requires assigned { Any (λ e. e.lit.var.0 ≡ var.0) self.now.entries }
        ensures value { All (λ e. e.lit.var.0 ≡ var.0 → e.level ≡ result) self.now.entries }
    {
        self.entry_of(var).level
    }

    /// Makes an open literal true, for a clause that forces it. In constant time.
    pub fn assign(&mut self, lit: Lit, reason: ClauseId)
        requires in_range { IsOver self.old.vars lit }
        requires is_open { IsOpen (known_of self.old.entries) lit }
        ensures one_more { self.new ≡ assigned self.old lit reason }
    {
        self.push(Entry {
            lit,
            reason: Some(reason),
            level: self.present,
        });
    }

    /// Makes an open literal true as a decision, which begins the next level. In constant time.
    pub fn decide(&mut self, lit: Lit)
        requires in_range { IsOver self.old.vars lit }
        requires is_open { IsOpen (known_of self.old.entries) lit }
        ensures one_more { self.new ≡ decided self.old lit }
    {
        let level = self.next_level(lit);
        self.push(Entry {
            lit,
            reason: None,
            level,
        });
    }

    /// Goes back to the end of a level. Literals above it are open again; the number of those read falls to the new
    /// length where it was above. Linear in the literals that go.
    pub fn back_to(&mut self, level: u32)
        requires reached { level ≤ self.old.present }
        ensures vars { self.new.vars ≡ self.old.vars }
        ensures cut { IsCutBack level self.old.entries self.new.entries }
        ensures read { self.new.read ≡ min self.old.read (length self.new.entries) }
        ensures now { self.new.present ≡ level }
    {
        let size = undo(
            self.vars,
            self.marks.as_mut_slice(),
            self.entries.as_slice(),
            level,
        );
        self.entries.truncate(size);
        self.read = self.read.min(size as u32);
        self.present = level;
    }

    /// An entry more, whose level becomes the present one.
    fn push(&mut self, entry: Entry)
        requires in_range { IsOver self.old.vars entry.lit }
        requires is_open { IsOpen (known_of self.old.entries) entry.lit }
        requires low { self.old.present ≤ entry.level }
        requires high { entry.level ≤ self.old.present + 1 }
        requires decided { entry.reason ≡ None → self.old.present < entry.level }
        ensures one_more { self.new ≡ record self.old { entries = self.old.entries ++ entry ∷ []; present = entry.level } }
    {
        self.marks[entry.lit.place()] = true;
        self.places[entry.lit.var.0 as usize - 1] = self.entries.len() as u32;
        self.entries.push_reserved(entry);
        self.present = entry.level;
    }

    /// The level of the next decision, for which some literal is open.
    fn next_level(&self, lit: Lit) -> u32
        requires in_range { IsOver self.now.vars lit }
        requires is_open { IsOpen (known_of self.now.entries) lit }
        ensures value { result ≡ self.now.present + 1 }
    {
        self.present + 1
    }

    /// The entry of an assigned variable.
    fn entry_of(&self, var: Var) -> Entry
        requires in_range { (1 ≤ var.0) × (var.0 ≤ self.now.vars) }
        requires assigned { Any (λ e. e.lit.var.0 ≡ var.0) self.now.entries }
        ensures stands { Any (λ e. e ≡ result) self.now.entries }
        ensures variable { result.lit.var.0 ≡ var.0 }
        ensures laws { IsTrail self.now }
    {
        self.entries[self.places[var.0 as usize - 1] as usize]
    }
}
