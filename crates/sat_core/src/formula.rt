//! Formulas: lists of clauses, stored flat.

ghost use Rattle.std.specs.Prelude.{◌≡◌, ◌+◌, ◌-◌, ◌^◌, ◌<◌, ◌≤◌, ◌++◌, ◌∷◌, [], length, IsOk, OnOk, OnErr, IsTrue, ◌↔◌, slice_get, All};
ghost use Rattle.sat_core.specs.Clauses.{IsClause, SatisfiesAll};

use crate::literal::{ClauseId, Lit};
use crate::pieces::{are_satisfied, piece};
use crate::valuation::Valuation;
use std::alloc::{AllocError, Global};
use std::marker::Model;

/// A list of clauses over the variables 1 to `vars`, numbered from 1.
///
/// Storage is eight bytes a literal and eight a clause, in two flat vectors.
#[derive(Debug, Drop)]
pub struct Formula {
    vars: u32,
    lits: Vec<Lit>,
    // behind the last literal of each clause
    ends: Vec<usize>,
}

impl Model for Formula {
    ghost use Rattle.std.specs.Prelude.{◌-◌, vec_len, vec_capacity};
    ghost use Rattle.vss_rows.specs.Pieces.{pieces};
    ghost use Rattle.sat_core.specs.Storage.{FormulaParts, IsStored};

    ghost Value = { FormulaParts };

    ghost view = { λ f. record { vars = f.vars; clauses = pieces f.lits.items 0 f.ends.items; spare_clauses = vec_capacity f.ends - vec_len f.ends; spare_lits = vec_capacity f.lits - vec_len f.lits } };

    ghost invariant = { λ f. IsStored f.vars f.lits.items f.ends.items };
}

#[tactic(auto, using(vss_rows::proofs::PieceLaws::rows_laws))]
impl Formula {
    /// The formula of no clauses, over the variables 1 to `vars`.
    pub fn new(alloc: Global, vars: u32) -> Formula
        ensures vars { result.vars ≡ vars }
        ensures clauses { result.clauses ≡ [] }
    {
        Formula {
            vars,
            lits: Vec::new(alloc),
            ends: Vec::new(alloc),
        }
    }

    /// How many variables there are.
    pub fn vars(&self) -> u32
        ensures value { result ≡ self.now.vars }
        ensures clauses { All (IsClause self.now.vars) self.now.clauses }
    {
        self.vars
    }

    /// What the formula allocates with.
    pub fn allocator(&self) -> Global {
        *self.lits.allocator()
    }

    /// How many clauses there are.
    pub fn len(&self) -> u32
        ensures { result ≡ length self.now.clauses }
    {
        self.ends.len() as u32
    }

    /// The literals of a clause, in constant time.
    pub fn clause(&self, id: ClauseId) -> &[Lit]
        requires { (1 ≤ id.0) × (id.0 ≤ length self.now.clauses) }
        ensures lits { slice_get self.now.clauses (id.0 - 1) ≡ Some result.now }
        ensures clause { IsClause self.now.vars result.now }
    {
        piece(
            self.lits.as_slice(),
            self.ends.as_slice(),
            id.0 as usize - 1,
        )
    }

    /// Appends a clause. Linear in its literals, which are copied once. After want of memory the formula is as
    /// it was, and has the room that it had.
    pub fn push(&mut self, lits: &[Lit]) -> Result<(), AllocError>
        requires clause { IsClause self.old.vars lits.now }
        requires numbered { length self.old.clauses < 2 ^ 32 - 1 }
        ensures vars { self.new.vars ≡ self.old.vars }
        ensures ok { OnOk result (self.new.clauses ≡ self.old.clauses ++ lits.now ∷ []) }
        ensures err { OnErr result (self.new.clauses ≡ self.old.clauses) }
        ensures within_room { 1 ≤ self.old.spare_clauses → length lits.now ≤ self.old.spare_lits → IsOk result }
        ensures room_for_clauses { self.old.spare_clauses ≤ self.new.spare_clauses + 1 }
        ensures room_for_lits { self.old.spare_lits ≤ self.new.spare_lits + length lits.now }
        ensures room_after_err { OnErr result ((self.old.spare_clauses ≤ self.new.spare_clauses) × (self.old.spare_lits ≤ self.new.spare_lits)) }
    {
        self.ends.reserve(1)?;
        self.lits.extend_from_slice(lits)?;
        self.ends.push_reserved(self.lits.len());
        Ok(())
    }

    /// Appends a clause of `N` literals, as `push` does.
    pub fn push_fixed<const N: usize>(&mut self, lits: [Lit; N]) -> Result<(), AllocError>
        requires clause { IsClause self.old.vars lits }
        requires numbered { length self.old.clauses < 2 ^ 32 - 1 }
        ensures vars { self.new.vars ≡ self.old.vars }
        ensures ok { OnOk result (self.new.clauses ≡ self.old.clauses ++ lits.entry ∷ []) }
        ensures err { OnErr result (self.new.clauses ≡ self.old.clauses) }
        ensures within_room { 1 ≤ self.old.spare_clauses → length lits.entry ≤ self.old.spare_lits → IsOk result }
        ensures room_for_clauses { self.old.spare_clauses ≤ self.new.spare_clauses + 1 }
        ensures room_for_lits { self.old.spare_lits ≤ self.new.spare_lits + length lits.entry }
        ensures room_after_err { OnErr result ((self.old.spare_clauses ≤ self.new.spare_clauses) × (self.old.spare_lits ≤ self.new.spare_lits)) }
    {
        self.push(&lits)
    }

    /// Makes room for further clauses and for further literals in all of them, so that pushes within it can't fail.
    pub fn reserve(&mut self, clauses: usize, lits: usize) -> Result<(), AllocError>
        ensures vars { self.new.vars ≡ self.old.vars }
        ensures clauses { self.new.clauses ≡ self.old.clauses }
        ensures room { OnOk result ((clauses ≤ self.new.spare_clauses) × (lits ≤ self.new.spare_lits)) }
        ensures within_room { clauses ≤ self.old.spare_clauses → lits ≤ self.old.spare_lits → IsOk result }
        ensures room_for_clauses { self.old.spare_clauses ≤ self.new.spare_clauses }
        ensures room_for_lits { self.old.spare_lits ≤ self.new.spare_lits }
    {
        self.ends.reserve(clauses)?;
        self.lits.reserve(lits)
    }

    /// Whether the valuation satisfies every clause. Linear in the literals.
    pub fn satisfied_by(&self, valuation: &Valuation) -> bool
        requires { length valuation.now.values ≡ self.now.vars }
        ensures { IsTrue result ↔ SatisfiesAll valuation.now.values self.now.clauses }
    {
        are_satisfied(
            valuation.values.as_slice(),
            self.lits.as_slice(),
            self.ends.as_slice(),
        )
    }
}
