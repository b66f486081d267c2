//! Numbers among the words.

ghost use Rattle.std.specs.Prelude.{◌≡◌, ◌≤◌, IfSome};
ghost use Rattle.std.specs.Char.{is_ascii_digit};
ghost use Rattle.std.specs.List.{list_all};
ghost use Rattle.vss_words.specs.Numbers.{is_number as is_in_form, number_from};

/// A number has at most so many digits.
const MOST_DIGITS: usize = 10;

/// Whether all bytes are decimal digits.
fn are_digits(bytes: &[u8]) -> bool
    ensures { result ≡ list_all is_ascii_digit bytes.now }
{
    bytes.iter().all(|byte| byte.is_ascii_digit())
}

/// Whether the text is 1 to 10 decimal digits.
fn is_number(text: &str) -> bool
    ensures { result ≡ is_in_form text.now }
{
    !text.is_empty() && text.len() <= MOST_DIGITS && are_digits(text.as_bytes())
}

/// The number that the text writes with 1 to 10 decimal digits, if it is from `low` to `high`.
pub fn number_in(low: u32, high: u32, text: &str) -> Option<u32>
    ensures value { result ≡ number_from low high text.now }
    ensures within { IfSome result (λ n. (low ≤ n) × (n ≤ high)) }
{
    if !is_number(text) {
        return None;
    }
    let Ok(value) = text.parse::<u64>() else {
        return None;
    };
    if u64::from(low) <= value && value <= u64::from(high) {
        return Some(value as u32);
    }
    None
}
