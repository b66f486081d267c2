//! Marks the variables of a clause, and counts those of the present level.
ghost use Rattle.std.specs.Prelude.{◌≡◌, ◌^◌, ◌<◌, ◌≤◌, All, length, [], ◌∷◌};
ghost use Rattle.sat_core.specs.declared.literal.Lit.{Lit};
ghost use Rattle.conflict_learn.specs.Working.{MarksOf, IsOnTrail};

use crate::marks::Marks;
use sat_core::Lit;
use search_trail::Trail;

/// Marks the variables of the literals. Tells how many of those that weren't marked are of the present level. Linear in
/// the literals.
pub(crate) fn mark_all(trail: &Trail, marks: &mut Marks, lits: &[Lit]) -> u32
    requires long { length marks.old ≡ trail.now.vars }
    requires assigned { All (IsOnTrail trail.now) lits.now }
    requires few { length lits.now < 2 ^ 32 }
    ensures { MarksOf trail.now marks.old marks.new lits.now result }
{
    let mut found = 0;
    for lit in lits {
        found += mark(trail, marks, *lit);
    }
    found
}

/// Marks the variable of one literal.
fn mark(trail: &Trail, marks: &mut Marks, lit: Lit) -> u32
    requires long { length marks.old ≡ trail.now.vars }
    requires assigned { IsOnTrail trail.now lit }
    ensures marks { MarksOf trail.now marks.old marks.new (lit ∷ []) result }
    ensures one { result ≤ 1 }
{
    // for the proof alone
    let _len = trail.len();
    if marks.is_marked(lit.var) {
        return 0;
    }
    marks.mark(lit.var);
    u32::from(trail.level(lit.var) == trail.now())
}
