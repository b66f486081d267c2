//! Marks of variables, which are undone by what was touched.
ghost use Rattle.std.specs.Prelude.{◌≡◌, ℕ, ◌-◌, ◌≤◌, true, false, IfOk, length, All, slice_index_or, slice_set, replicate};
ghost use Rattle.conflict_learn.specs.Marks.{IsTouched, AreAmong};

use sat_core::Var;
use std::alloc::{AllocError, Global};
use std::marker::Model;

/// A mark for each variable, seen as a list by the variable's number less one.
#[derive(Drop)]
pub(crate) struct Marks {
    flags: Vec<bool>,
    touched: Vec<Var>,
}

impl Model for Marks {
    ghost use Rattle.std.specs.Prelude.{List, Bool, vec_capacity};
    ghost use Rattle.conflict_learn.specs.Marks.{IsTouched};

    ghost Value = { List Bool };

    ghost view = { λ m. m.flags.items };

    ghost invariant = { λ m. IsTouched m.flags.items m.touched.items (vec_capacity m.touched) };
}

impl Marks {
    /// No variable is marked. Five bytes a variable; no other call takes memory.
    pub(crate) fn new(alloc: Global, vars: u32) -> Result<Marks, AllocError>
        ensures value { IfOk result (λ marks. marks ≡ replicate vars false) }
    {
        Ok(Marks {
            flags: vec![in alloc; false; vars as usize]?,
            touched: Vec::with_capacity(alloc, vars as usize)?,
        })
    }

    pub(crate) fn is_marked(&self, var: Var) -> bool
        requires in_range { (1 ≤ var.0) × (var.0 ≤ length self.now) }
        ensures value { result ≡ slice_index_or self.now (var.0 - 1) false }
    {
        self.flags[var.0 as usize - 1]
    }

    /// The marked variables, in the order in which they were marked.
    pub(crate) fn touched(&self) -> &[Var]
        ensures in_range { All (λ v. (1 ≤ v.0) × (v.0 ≤ length self.now)) result.now }
        ensures among { AreAmong self.now result.now }
    {
        self.touched.as_slice()
    }

    /// Marks a variable.
    pub(crate) fn mark(&mut self, var: Var)
        requires in_range { (1 ≤ var.0) × (var.0 ≤ length self.old) }
        requires unmarked { slice_index_or self.old (var.0 - 1) false ≡ false }
        ensures value { self.new ≡ slice_set self.old (var.0 - 1) true }
    {
        self.touched.push_reserved(var);
        self.flags[var.0 as usize - 1] = true;
    }

    /// Unmarks all variables, in time linear in the marked ones.
    pub(crate) fn clear(&mut self)
        ensures long { length self.new ≡ length self.old }
        ensures none { (n : ℕ) → slice_index_or self.new n false ≡ false }
    {
        unmark(self.flags.as_mut_slice(), self.touched.as_slice());
        self.touched.clear();
    }
}

/// Unmarks these variables.
fn unmark(flags: &mut [bool], touched: &[Var])
    requires in_range { All (λ v. (1 ≤ v.0) × (v.0 ≤ length flags.old)) touched.now }
    requires among { AreAmong flags.old touched.now }
    ensures long { length flags.new ≡ length flags.old }
    ensures none { (n : ℕ) → slice_index_or flags.new n false ≡ false }
{
    for var in touched {
        flags[var.0 as usize - 1] = false;
    }
}
