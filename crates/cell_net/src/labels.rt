//! Names for people.

use vss_lists::{Items, Text};

/// The name of a cell: a track, by its place in the names of tracks, and the cell's number on it,
/// counted from the track's first node.
#[derive(Clone, Copy, Debug, PartialEq, Eq)]
pub struct CellLabel {
    pub track: u32,
    pub index: u32,
}

/// The name of a candidate: an inner cut of a track, in metres from the track's first node, or a
/// joint.
#[derive(Debug, Drop)]
pub enum PlaceLabel {
    Cut { track: u32, at_m: u64 },
    Joint { name: Text },
}

/// The names for people: of the tracks, of each cell, of each candidate and of each train.
#[derive(Debug, Drop)]
pub struct Labels {
    pub tracks: Items<Text>,
    pub cells: Items<CellLabel>,
    pub places: Items<PlaceLabel>,
    pub trains: Items<Text>,
}
