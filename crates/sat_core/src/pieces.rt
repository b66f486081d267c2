//! The clauses of a formula as pieces of one row of literals.

ghost use Rattle.std.specs.Prelude.{◌≡◌, ◌<◌, ◌↔◌, List, length, IsTrue, All, slice_get, slice_index_or};
ghost use Rattle.sat_core.specs.Clauses.{IsOver, IsClause, IsTrueIn, Satisfies, SatisfiesAll};
ghost use Rattle.sat_core.specs.declared.literal.Lit.{Lit};
ghost use Rattle.vss_rows.specs.Pieces.{pieces, begin_of, RisesTo};

use crate::literal::Lit;

/// The piece that ends at the end with that place.
#[tactic(auto, using(vss_rows::proofs::PieceLaws::piece_laws))]
pub(crate) fn piece<'a>(row: &'a [Lit], ends: &[usize], place: usize) -> &'a [Lit]
    requires rising { RisesTo 0 ends.now (length row.now) }
    requires within { place < length ends.now }
    ensures value { slice_get (pieces row.now 0 ends.now) place ≡ Some result.now }
    ensures item { (d : List Lit) → slice_index_or (pieces row.now 0 ends.now) place d ≡ result.now }
{
    let start = start_of(ends, place);
    let end = ends[place];
    &row[start..end]
}

/// Where that piece begins.
fn start_of(ends: &[usize], place: usize) -> usize
    requires { place < length ends.now }
    ensures { result ≡ begin_of 0 ends.now place }
{
    if place == 0 { 0 } else { ends[place - 1] }
}

/// Whether the values satisfy each piece. Linear in the literals.
pub(crate) fn are_satisfied(values: &[bool], row: &[Lit], ends: &[usize]) -> bool
    requires rising { RisesTo 0 ends.now (length row.now) }
    requires clauses { All (IsClause (length values.now)) (pieces row.now 0 ends.now) }
    ensures { IsTrue result ↔ SatisfiesAll values.now (pieces row.now 0 ends.now) }
{
    for place in 0..ends.len() {
        if !is_satisfied(values, piece(row, ends, place)) {
            return false;
        }
    }
    true
}

/// Whether some literal of the clause is true.
#[tactic(auto, unfolding(crate::specs::Clauses::Satisfies))]
fn is_satisfied(values: &[bool], clause: &[Lit]) -> bool
    requires { All (IsOver (length values.now)) clause.now }
    ensures { IsTrue result ↔ Satisfies values.now clause.now }
{
    clause.iter().any(|lit| is_true(values, *lit))
}

/// Whether the literal is true.
fn is_true(values: &[bool], lit: Lit) -> bool
    requires { IsOver (length values.now) lit }
    ensures { IsTrue result ↔ IsTrueIn values.now lit }
{
    values[lit.var.0 as usize - 1] == lit.positive
}
