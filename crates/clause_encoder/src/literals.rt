//! The literals of a variable, by its number.
ghost use Rattle.std.specs.Prelude.{◌≡◌};
ghost use Rattle.clause_list.specs.Numbers.{is as is_lit, is_not as is_not_lit};

use sat_core::{Lit, Var};

/// The variable of that number.
pub fn is(number: u32) -> Lit
    ensures { result ≡ is_lit number }
{
    Lit {
        var: Var(number),
        positive: true,
    }
}

/// Its negation.
pub fn is_not(number: u32) -> Lit
    ensures { result ≡ is_not_lit number }
{
    Lit {
        var: Var(number),
        positive: false,
    }
}
