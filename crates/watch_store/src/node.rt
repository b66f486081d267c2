//! The nodes of the chains.
use sat_core::Lit;

/// One of the two watches of a clause, and the next node of its chain.
#[derive(Clone, Copy, Debug)]
pub struct Node {
    pub watch: Lit,
    pub next: u32,
}
