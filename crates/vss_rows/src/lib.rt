//! Many short lists in one row of items, which contracts see as the list of these lists.
#![tactic(auto)]

mod rows;

pub use rows::Rows;
