//! The order of sweeps, and the place of one among them.
ghost use Rattle.std.specs.Prelude.{◌≡◌, ◌<◌, ◌↔◌, AllPairs, Contains, IsTrue, Some, length, slice_get};
ghost use Rattle.sweep_table.specs.Order.{IsSweepBefore, IsLower, directed_number, end_digit};

use cell_net::{DirCell, End};
use vss_rows::Rows;

/// The place of the cells among sweeps in order; logarithmic in the sweeps.
pub(crate) fn place_of(sweeps: &Rows<DirCell>, cells: &[DirCell]) -> usize
    requires order { AllPairs IsSweepBefore sweeps.now }
    requires there { Contains sweeps.now cells.now }
    ensures within { result < length sweeps.now }
    ensures value { slice_get sweeps.now result ≡ Some cells.now }
{
    let mut low = 0;
    let mut high = sweeps.len();
    while low < high {
        let middle = low + (high - low) / 2;
        if is_before(sweeps.row(middle), cells) {
            low = middle + 1;
        } else {
            high = middle;
        }
    }
    low
}

/// Whether the one comes before the other: by length, then by the numbers from tail to head.
fn is_before(one: &[DirCell], other: &[DirCell]) -> bool
    ensures { IsTrue result ↔ IsSweepBefore one.now other.now }
{
    if one.len() == other.len() {
        is_lower(one, other)
    } else {
        one.len() < other.len()
    }
}

/// Whether the one has the lower number where the two first differ.
fn is_lower(one: &[DirCell], other: &[DirCell]) -> bool
    requires { length one.now ≡ length other.now }
    ensures { IsTrue result ↔ IsLower one.now other.now }
{
    for place in 0..one.len() {
        let here = directed_number(one[place]);
        let there = directed_number(other[place]);
        if here != there {
            return here < there;
        }
    }
    false
}

/// The number of a directed cell.
pub(crate) fn directed_number(directed: DirCell) -> usize
    ensures { result ≡ directed_number directed }
{
    2 * directed.cell.0 as usize + end_digit(directed.end)
}

fn end_digit(end: End) -> usize
    ensures { result ≡ end_digit end }
{
    match end {
        End::Low => 0,
        End::High => 1,
    }
}
