//! A store of live clauses that watches two literals of each, in chains that are linked by index.
#![tactic(auto)]

mod adding;
mod choosing;
mod compacting;
mod ending;
mod filling;
mod finding;
mod found;
mod node;
mod propagation;
mod relink;
mod store;
mod table;
mod walk;

pub use found::Visit;
pub use node::Node;
pub use store::WatchStore;
pub use walk::Left;
