//! A list and a text that contracts see as plain lists, for the public types of every crate above.
#![tactic(auto)]

mod list;
mod rule;
mod text;

pub use list::Items;
pub use rule::{Rule, first_break};
pub use text::Text;
