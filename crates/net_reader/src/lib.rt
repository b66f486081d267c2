//! Reads network documents: JSON, its shape, names, and the rules of networks, up to the first fault.
#![tactic(auto)]

mod document;
mod laws;
mod member;
mod naming;
mod parts;
mod reader;
mod refusal;

pub use laws::network_readings_are_one;
pub use member::Member;
pub use reader::read_net;
pub use refusal::ReadRefusal;
