//! Numbers that are drawn from a seed.
ghost use Rattle.std.specs.Prelude.{◌≡◌, ◌<◌};
ghost use Rattle.case_maker.specs.Draws.{next_state, draw};

/// The draw of that place, counted from 0, below the bound. Linear in the place.
pub(crate) fn draw(seed: u32, place: u32, bound: u32) -> u32
    requires few { place < 100 }
    requires some { 0 < bound }
    ensures value { result ≡ draw seed place bound }
    ensures below { result < bound }
{
    let mut x = seed % 65537;
    for _ in 0..place + 1 {
        x = after(x);
    }
    x % bound
}

/// What comes after a number.
fn after(x: u32) -> u32
    requires { x < 65537 }
    ensures value { result ≡ next_state x }
    ensures below { result < 65537 }
{
    (75 * x + 74) % 65537
}
