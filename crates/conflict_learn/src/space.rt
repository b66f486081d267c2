//! Learning, with the space that it works in.
ghost use Rattle.std.specs.Prelude.{◌≡◌, IfOk, All};
ghost use Rattle.sat_core.specs.Clauses.{IsClause};
ghost use Rattle.search_trail.specs.Reasons.{AreReasons};
ghost use Rattle.conflict_learn.specs.Learning.{IsConflict, IsLearnedFrom};

use crate::clauses::Clauses;
use crate::learned::Learned;
use crate::learning::descend;
use crate::marks::Marks;
use sat_core::ClauseId;
use search_trail::Trail;
use std::alloc::{AllocError, Global};
use std::marker::Model;

/// What learning works in, so that it takes no memory but for its result. Seen as the number of its variables; it is
/// always clear.
#[derive(Drop)]
pub struct LearnSpace {
    marks: Marks,
    // room to work in
    places: Vec<u32>,
}

impl Model for LearnSpace {
    ghost use Rattle.std.specs.Prelude.{◌≡◌, ℕ, false, length, slice_index_or};

    ghost Value = { ℕ };

    ghost view = { λ s. length s.marks };

    ghost invariant = { λ s. (n : ℕ) → slice_index_or s.marks n false ≡ false };
}

impl LearnSpace {
    /// A space for trails over the variables 1 to `vars`: nine bytes a variable. Want of memory stands alone.
    pub fn new(alloc: Global, vars: u32) -> Result<LearnSpace, AllocError>
        ensures vars { IfOk result (λ space. space ≡ vars) }
    {
        Ok(LearnSpace {
            marks: Marks::new(alloc, vars)?,
            places: Vec::with_capacity(alloc, vars as usize)?,
        })
    }

    fn learn<C: Clauses>(
        &mut self,
        alloc: Global,
        trail: &Trail,
        clauses: &C,
        conflict: ClauseId,
    ) -> Result<Learned, AllocError>
        requires vars { self.old ≡ trail.now.vars }
        requires over { All (λ clause. IsClause trail.now.vars clause.lits) (C.live clauses.now) }
        requires reasons { AreReasons (C.live clauses.now) trail.now.entries }
        requires conflict { IsConflict (C.live clauses.now) trail.now conflict }
        ensures space { self.new ≡ self.old }
        ensures learned { IfOk result (λ learned. IsLearnedFrom (C.live clauses.now) trail.now learned.lits.items learned.hints.items learned.level) }
    {
        let learned = descend(
            alloc,
            trail,
            clauses,
            conflict,
            &mut self.marks,
            &mut self.places,
        );
        self.marks.clear();
        learned
    }
}

/// Learns from a false clause, as `learn_with` does, in a space of its own: linear in the variables besides.
pub fn learn<C: Clauses>(
    alloc: Global,
    trail: &Trail,
    clauses: &C,
    conflict: ClauseId,
) -> Result<Learned, AllocError>
    requires over { All (λ clause. IsClause trail.now.vars clause.lits) (C.live clauses.now) }
    requires reasons { AreReasons (C.live clauses.now) trail.now.entries }
    requires conflict { IsConflict (C.live clauses.now) trail.now conflict }
    ensures learned { IfOk result (λ learned. IsLearnedFrom (C.live clauses.now) trail.now learned.lits.items learned.hints.items learned.level) }
{
    let mut space = LearnSpace::new(alloc, trail.vars())?;
    space.learn(alloc, trail, clauses, conflict)
}

/// Learns from a false clause. The space was made for the trail's variables, and is as it was; memory is taken for the
/// result alone. After want of memory nothing has changed.
///
/// Linear in the literals of the clauses that it looks at and in the trail of the present level, but for a sort of the
/// places of the marked literals below that level.
pub fn learn_with<C: Clauses>(
    space: &mut LearnSpace,
    alloc: Global,
    trail: &Trail,
    clauses: &C,
    conflict: ClauseId,
) -> Result<Learned, AllocError>
    requires vars { space.old ≡ trail.now.vars }
    requires over { All (λ clause. IsClause trail.now.vars clause.lits) (C.live clauses.now) }
    requires reasons { AreReasons (C.live clauses.now) trail.now.entries }
    requires conflict { IsConflict (C.live clauses.now) trail.now conflict }
    ensures space { space.new ≡ space.old }
    ensures learned { IfOk result (λ learned. IsLearnedFrom (C.live clauses.now) trail.now learned.lits.items learned.hints.items learned.level) }
{
    space.learn(alloc, trail, clauses, conflict)
}
