//! Why parts are no network.

/// A list of a document; `Document` stands for what is in no list.
#[derive(Clone, Copy, Debug, PartialEq, Eq)]
pub enum ListKind {
    Document,
    Nodes,
    Tracks,
    Sections,
    Borders,
    Stations,
    Trains,
}

/// A place in a document: an item of a list, counted from 0.
#[derive(Clone, Copy, Debug, PartialEq, Eq)]
pub struct Spot {
    pub list: ListKind,
    pub item: u32,
}

/// The rules of networks, in their order.
#[derive(Clone, Copy, Debug, PartialEq, Eq)]
pub enum NetFault {
    /// The item's name stood before in its list.
    DuplicateName,
    /// The item refers to a node or a track that isn't there.
    UnknownName,
    /// The track ends at the node are not as many as its kind has.
    NodeDegree,
    /// The tip of the point has no end there.
    TipNotHere,
    /// The pairs of the crossing don't name four different tracks with an end there.
    PairsNotHere,
    /// The track ends where it begins.
    LoopTrack,
    /// No section lists the track.
    TrackInNoSection,
    /// The sections' lists name the track more than once.
    TrackInTwoSections,
    /// The tracks at the point or the crossing are of different sections.
    SplitSection,
    /// The section's tracks are not connected by shared nodes.
    SectionApart,
    /// The border isn't within its track, or that isn't virtual; or the joint is no candidate.
    BorderPlace,
    /// The length isn't 1 to 1,000,000 m.
    LengthRange,
    /// The limit isn't 1 to 500 km/h.
    LimitRange,
}

/// Why the parts are no network.
#[derive(Clone, Copy, Debug, PartialEq, Eq)]
pub enum NetRefusal {
    /// The first rule that is broken, and the lowest item that breaks it, lists in their order.
    Named { kind: NetFault, spot: Spot },
    /// Want of memory.
    Memory,
}
