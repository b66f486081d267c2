//! Why nothing was found at the front of a text.

/// Why the front of a text isn't what was looked for.
#[derive(Clone, Copy, Debug, PartialEq, Eq)]
pub enum Miss {
    /// The text ends too early: with more behind it, it begins so.
    Short,
    /// Whatever stands behind the text, it doesn't begin so.
    Wrong,
}
