//! The luby sequence, which says how far apart restarts are.
ghost use Rattle.std.specs.Prelude.{◌≤◌, ◌<◌, ◌^◌};
ghost use Rattle.watch_solver.specs.Luby.{IsLuby};

/// The item of that number, counted from 1. Logarithmic in the greatest number.
pub(crate) fn luby(number: u32) -> u32
    requires { 1 ≤ number }
    ensures item { IsLuby number result }
    ensures small { result ≤ 2 ^ 31 }
{
    let mut rest = number as u64;
    // a block's length is one less than a power of two, and its last item half of that power
    let mut size = 4_294_967_295;
    'halving: while rest < size {
        let half = size / 2;
        if half < rest {
            rest -= half;
        }
        size = half;
    }
    (size / 2 + 1) as u32
}
