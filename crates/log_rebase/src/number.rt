//! The new number of a clause.
ghost use Rattle.std.specs.Prelude.{◌^◌, ◌+◌, ◌≡◌, ◌≤◌, ◌<◌, length};
ghost use Rattle.std.specs.List.Sorted.{IsNonDecreasingBy, IsPartitionPoint};
ghost use Rattle.log_rebase.specs.Rebasing.{RiseFrom, mark_number, renumbered};

use crate::mark::UnitMark;

/// The new number of a clause. Logarithmic in the units.
pub(crate) fn new_number(clauses: u32, units: &[UnitMark], number: u32) -> u32
    requires rise { RiseFrom clauses units.now }
    requires few { clauses + length units.now < 2 ^ 32 }
    ensures { result ≡ renumbered clauses units.now number }
{
    if number <= clauses {
        return number;
    }
    let below = count_below(units, number);
    if below == units.len() {
        return number;
    }
    if units[below].id.0 == number {
        return unit_number(clauses, units, below);
    }
    let last = units[units.len() - 1].id.0;
    last - (last - number - (units.len() - below) as u32)
}

/// The new number of the unit at a place: the last one comes directly behind the formula, and then the others.
fn unit_number(clauses: u32, units: &[UnitMark], place: usize) -> u32
    requires few { clauses + length units.now < 2 ^ 32 }
    requires within { place < length units.now }
    ensures { result ≡ mark_number clauses (length units.now) place }
{
    if place + 1 == units.len() {
        clauses + 1
    } else {
        clauses + 2 + place as u32
    }
}

/// How many of the units have a number below this one; they stand first.
fn count_below(units: &[UnitMark], number: u32) -> usize
    requires { IsNonDecreasingBy (λ mark. mark.id.0) units.now }
    ensures within { result ≤ length units.now }
    ensures split { IsPartitionPoint (λ mark. mark.id.0 < number) (λ mark. number ≤ mark.id.0) units.now result }
{
    units.partition_point(|mark| mark.id.0 < number)
}
