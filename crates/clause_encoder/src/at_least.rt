//! The variable that tells whether at least so many borders stand.
ghost use Rattle.std.specs.Prelude.{◌≡◌, ◌≤◌};
ghost use Rattle.border_counter.specs.Counter.{at_least_var};

/// The variable that at least j of so many borders stand, where the counter's variables begin at `first`.
pub(crate) fn at_least_number(first: u32, candidates: u32, j: u32) -> u32
    requires first { first ≤ 2000001 }
    requires some { 1 ≤ j }
    requires most { j ≤ candidates }
    requires few { candidates ≤ 512 }
    ensures { result ≡ at_least_var first candidates j }
{
    first + (candidates - 1) * candidates / 2 + (j - 1)
}
