//! What a name of a node, a track, a section, a station or a train is.
#![tactic(auto)]

mod name;

pub use name::{is_name, is_name_byte};
