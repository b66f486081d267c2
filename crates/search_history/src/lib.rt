//! What a search was given and has derived, in its order: units and steps as one list of events.
#![tactic(auto)]

mod history;

pub use history::History;
