//! The literals that are known while a step is read.

ghost use Rattle.std.specs.Prelude.{◌≡◌, ◌*◌, false, IfOk, [], ◌∷◌, ◌++◌, ◌||◌, slice_index_or};
ghost use Rattle.sat_core.specs.declared.literal.Lit.{Lit};
ghost use Rattle.sat_core.specs.Clauses.{negated, IsOver};
ghost use Rattle.sat_core.specs.Hints.{is_known as is_known_of};
ghost use Rattle.sat_core.specs.Fresh.{IsOpen};
ghost use Rattle.sat_core.specs.Marks.{mark_place, AreMarked};

use sat_core::Lit;
use std::alloc::{AllocError, Global};
use std::marker::Model;

/// The literals that are known to be true while a step is read, of each variable one at most. Marks tell a known
/// literal in constant time; the trail, which has room for a literal of each variable, undoes them.
#[derive(Debug, Drop)]
pub(crate) struct Assignment {
    vars: u32,
    marks: Vec<bool>,
    trail: Vec<Lit>,
}

impl Model for Assignment {
    ghost use Rattle.std.specs.Prelude.{vec_capacity};
    ghost use Rattle.log_checker.specs.Assigned.{Known, IsAssigned};

    ghost Value = { Known };

    ghost view = { λ a. record { vars = a.vars; lits = a.trail.items } };

    ghost invariant = { λ a. IsAssigned a.vars a.marks.items a.trail.items (vec_capacity a.trail) };
}

impl Assignment {
    /// Nothing is known. Takes ten bytes a variable.
    pub(crate) fn new(alloc: Global, vars: u32) -> Result<Assignment, AllocError>
        ensures { IfOk result (λ fresh. (fresh.vars ≡ vars) × (fresh.lits ≡ [])) }
    {
        Ok(Assignment {
            vars,
            marks: vec![in alloc; false; 2 * vars as usize]?,
            trail: Vec::with_capacity(alloc, vars as usize)?,
        })
    }

    pub(crate) fn is_known(&self, lit: Lit) -> bool
        requires { IsOver self.now.vars lit }
        ensures { result ≡ is_known_of self.now.lits lit }
    {
        self.marks[lit.place()]
    }

    /// Whether the literal or its negation is known.
    pub(crate) fn has_value(&self, lit: Lit) -> bool
        requires { IsOver self.now.vars lit }
        ensures { result ≡ (is_known_of self.now.lits lit || is_known_of self.now.lits (negated lit)) }
    {
        self.is_known(lit) || self.is_known(lit.negated())
    }

    /// Makes the literal known. Takes no memory: the variable has no value yet, so the trail has room for it.
    pub(crate) fn assume(&mut self, lit: Lit)
        requires over { IsOver self.old.vars lit }
        requires is_open { IsOpen self.old.lits lit }
        ensures vars { self.new.vars ≡ self.old.vars }
        ensures known { self.new.lits ≡ self.old.lits ++ lit ∷ [] }
    {
        self.trail.push_reserved(lit);
        self.marks[lit.place()] = true;
    }

    /// Forgets all literals, in time linear in them.
    pub(crate) fn clear(&mut self)
        ensures vars { self.new.vars ≡ self.old.vars }
        ensures none { self.new.lits ≡ [] }
    {
        unmark(self.vars, self.marks.as_mut_slice(), self.trail.as_slice());
        self.trail.clear();
    }
}

/// Clears the marks of these literals. `vars` stands in the contract alone.
fn unmark(vars: u32, marks: &mut [bool], trail: &[Lit])
    requires { AreMarked vars marks.old trail.now }
    ensures { (lit : Lit) → IsOver vars lit → slice_index_or marks.new (mark_place lit) false ≡ false }
{
    for lit in trail {
        marks[lit.place()] = false;
    }
}
