//! The value of a variable, by its number.
ghost use Rattle.std.specs.Prelude.{◌≡◌};
ghost use Rattle.clause_list.specs.Values.{value};

/// Whether the variable of that number is true; no variable beyond the valuation is.
pub(crate) fn value_of(values: &[bool], number: u32) -> bool
    ensures { result ≡ value values.now number }
{
    values
        .get(number.saturating_sub(1) as usize)
        .copied()
        .unwrap_or(false)
}
