//! Groups segments that share nodes: the flood behind connected sections and behind the classes of linked cells.
//!
//! A [`Segment`] joins two nodes within one part. Two segments of one part touch where they share a node that is no barrier.
//! [`sorted_ends`] sorts the ends of segments by their nodes, once for all that asks for them: [`ends_at`] gives those at one
//! node, and [`first_split_part`] finds the lowest part that is not connected. [`groups_of`] numbers the segments by what
//! they reach. Nodes and parts may have any `u32` as their number: time and memory depend on how many segments there are alone.
#![tactic(auto)]

mod ends;
mod forest;
mod groups;
mod parts;
mod segments;
#[cfg(test)]
mod tests;

pub use ends::{End, ends_at, sorted_ends};
pub use groups::groups_of;
pub use parts::first_split_part;
pub use segments::Segment;
