//! The members of a network document.

/// A member, by its path, in the order in which members are read: `TracksLengthM` is
/// `tracks.length_m`.
#[derive(Clone, Copy, Debug, PartialEq, Eq)]
pub enum Member {
    Document,
    Nodes,
    NodesName,
    NodesKind,
    NodesTip,
    NodesPairs,
    Tracks,
    TracksName,
    TracksFrom,
    TracksTo,
    TracksLengthM,
    TracksLimitKmh,
    TracksVirtual,
    Sections,
    SectionsName,
    SectionsTracks,
    Borders,
    BordersTrack,
    BordersAtM,
    BordersJoint,
    Stations,
    StationsName,
    StationsTracks,
}
