//! Networks of tracks, nodes, sections, kept borders and stations: their parts, and the rules that they keep.
#![tactic(auto)]

mod build;
mod ends;
mod entries;
mod joining;
mod laws;
mod marks;
mod names;
mod net;
mod parts;
mod refusal;
mod rules;
mod sections;
mod tables;

pub use laws::net_refusals_are_one;
pub use names::{Break, NameIndex, Named, index_of};
pub use net::Net;
pub use parts::{BorderPart, GroupPart, NetParts, NodeKind, NodePart, TrackPart};
pub use refusal::{ListKind, NetFault, NetRefusal, Spot};
