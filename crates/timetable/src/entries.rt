//! Trains and stops as a document states them, with the names of nodes and stations.

use rail_net::Named;
use vss_lists::{Items, Text};

/// A stop of a train.
#[derive(Debug, Drop)]
pub(crate) struct StopEntry {
    /// The name of the station.
    pub station: Text,
    pub dwell_s: u64,
    pub from_s: u64,
    pub until_s: u64,
}

/// A train.
#[derive(Debug, Drop)]
pub(crate) struct TrainEntry {
    pub name: Text,
    pub length_m: u64,
    pub speed_kmh: u64,
    pub entry_s: u64,
    /// The name of the node where it enters.
    pub from: Text,
    /// The name of the node where it leaves.
    pub to: Text,
    pub arrive_s: Option<u64>,
    pub entry_until_s: Option<u64>,
    pub stops: Items<StopEntry>,
    /// Whether it has a member `legs`, whatever that holds.
    pub has_legs: bool,
}

/// A whole document.
#[derive(Debug, Drop)]
pub(crate) struct Entries {
    pub space_step_m: u64,
    pub time_step_s: u64,
    pub horizon_s: u64,
    pub trains: Items<TrainEntry>,
}

impl Named for TrainEntry {
    ghost name_of = { λ t. t.name };

    fn name(&self) -> &str {
        self.name.as_str()
    }
}
