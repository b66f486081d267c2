//! The variables by their activity.
ghost use Rattle.std.specs.Prelude.{◌≡◌, ◌-◌, ◌≤◌, ◌<◌, ℕ, true, false, IfOk, MatchOption, All, None, slice_set, slice_index, slice_index_or, replicate, vec_len, vec_capacity};
ghost use Rattle.activity_order.specs.Scores.{score_sum, eighth_more};
ghost use Rattle.activity_order.specs.Choices.{IsFirst};

use crate::heap::{put_in, raise_at, take_top};
use crate::score::{FIRST_STEP, raise};
use sat_core::Var;
use std::alloc::{AllocError, Global};
use std::marker::Model;

/// The variables with their activities, and the most active one among those that wait.
///
/// Sixteen bytes a variable, all taken by `new`: no other call takes memory.
#[derive(Debug, Drop)]
pub struct ActivityOrder {
    vars: u32,
    // what a bump adds
    step: u64,
    // by variable
    scores: Vec<u64>,
    // all variables, each by the number before its own; the first `waiting` of them wait
    heap: Vec<u32>,
    waiting: u32,
    // by variable: its place in the heap
    places: Vec<u32>,
}

impl Model for ActivityOrder {
    ghost use Rattle.std.specs.Prelude.{◌≡◌, ◌*◌, ◌^◌, ◌≤◌, length};
    ghost use Rattle.activity_order.specs.Choices.{OrderParts};
    ghost use Rattle.activity_order.specs.Heaps.{IsHeap, waits_of};

    ghost Value = { OrderParts };

    ghost view = { λ o. record { vars = o.vars; scores = o.scores.items; waits = waits_of o.places.items o.waiting; step = o.step } };

    ghost invariant = { λ o. IsHeap o.scores.items o.heap.items o.places.items o.waiting × (length o.places.items ≡ o.vars) × (3 * 2 ^ 32 ≤ o.step) };
}

impl ActivityOrder {
    /// All variables from 1 to `vars` wait, and none is active yet. Linear in `vars`; want of memory stands alone.
    pub fn new(alloc: Global, vars: u32) -> Result<ActivityOrder, AllocError>
        ensures vars { IfOk result (λ order. order.vars ≡ vars) }
        ensures scores { IfOk result (λ order. order.scores ≡ replicate vars 0) }
        ensures waits { IfOk result (λ order. order.waits ≡ replicate vars true) }
    {
        Ok(ActivityOrder {
            vars,
            step: FIRST_STEP,
            scores: vec![in alloc; 0u64; vars as usize]?,
            heap: counted(alloc, vars)?,
            waiting: vars,
            places: counted(alloc, vars)?,
        })
    }

    /// The first variable of those that wait, which waits no longer. Logarithmic in them.
    pub fn pop(&mut self) -> Option<Var>
        ensures none { result ≡ None → self.new ≡ self.old }
        ensures value { MatchOption result (All (λ waits. waits ≡ false) self.old.waits) (λ var. IsFirst self.old var.0 × (self.new ≡ record self.old { waits = slice_set self.old.waits (var.0 - 1) false })) }
    {
        if self.waiting == 0 {
            return None;
        }
        let top = take_top(
            self.scores.as_slice(),
            self.heap.as_mut_slice(),
            self.places.as_mut_slice(),
            self.waiting,
        );
        self.waiting -= 1;
        Some(Var(top + 1))
    }

    /// The variable waits from now on, as it may do already. Logarithmic in those that wait.
    pub fn put_back(&mut self, var: Var)
        requires within { (1 ≤ var.0) × (var.0 ≤ self.old.vars) }
        ensures waits { self.new ≡ record self.old { waits = slice_set self.old.waits (var.0 - 1) true } }
        ensures back { slice_index_or self.new.waits (var.0 - 1) false ≡ true }
    {
        let place = var.0 - 1;
        if self.places.as_slice()[place as usize] < self.waiting {
            return;
        }
        put_in(
            self.scores.as_slice(),
            self.heap.as_mut_slice(),
            self.places.as_mut_slice(),
            self.waiting,
            place,
        );
        self.waiting += 1;
    }

    /// The variable is more active by the present step. Logarithmic in those that wait.
    pub fn bump(&mut self, var: Var)
        requires within { (1 ≤ var.0) × (var.0 ≤ self.old.vars) }
        ensures score { self.new ≡ record self.old { scores = slice_set self.old.scores (var.0 - 1) (score_sum (slice_index self.old.scores (var.0 - 1)) self.old.step) } }
    {
        raise_at(
            self.scores.as_mut_slice(),
            self.heap.as_mut_slice(),
            self.places.as_mut_slice(),
            self.waiting,
            var.0 - 1,
            self.step,
        );
    }

    /// All that was bumped so far counts less from now on: the step grows by an eighth.
    pub fn decay(&mut self)
        ensures step { self.new ≡ record self.old { step = eighth_more self.old.step } }
    {
        self.step = raise(self.step);
    }
}

/// The numbers below `vars`, with room for no more.
fn counted(alloc: Global, vars: u32) -> Result<Vec<u32>, AllocError>
    ensures long { IfOk result (λ numbers. vec_len numbers ≡ vars) }
    ensures room { IfOk result (λ numbers. vars ≤ vec_capacity numbers) }
    ensures each { IfOk result (λ numbers. (k : ℕ) → k < vars → slice_index numbers.items k ≡ k) }
{
    let mut numbers = Vec::with_capacity(alloc, vars as usize)?;
    'counting: for number in 0..vars {
        numbers.push_reserved(number);
    }
    Ok(numbers)
}
