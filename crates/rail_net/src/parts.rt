//! The plain parts of a network, as a document states them.

use vss_lists::{Items, Text};

/// What a node is, and with it how many track ends stand there and which passages lead over it.
#[derive(Debug, Drop)]
pub enum NodeKind {
    /// One track ends here, and trains enter and leave.
    EndNode,
    /// Two tracks meet.
    Joint,
    /// Three tracks meet: a passage leads between the tip, a track's name, and each of the others.
    Point {
        tip: Text,
    },
    /// Four tracks meet: a passage leads within each of the two pairs of track names.
    Crossing {
        first: (Text, Text),
        second: (Text, Text),
    },
}

/// A node.
#[derive(Debug, Drop)]
pub struct NodePart {
    pub name: Text,
    pub kind: NodeKind,
}

/// A track between two nodes.
#[derive(Debug, Drop)]
pub struct TrackPart {
    pub name: Text,
    /// The name of the node where the track begins.
    pub from: Text,
    /// The name of the node where it ends.
    pub to: Text,
    /// Its length in metres.
    pub length_m: u64,
    /// How fast trains may go on it, in kilometres per hour, if that is limited.
    pub limit_kmh: Option<u64>,
    /// Whether virtual borders may stand on it.
    pub virtual_ok: bool,
}

/// A section or a station: tracks with a name.
#[derive(Debug, Drop)]
pub struct GroupPart {
    pub name: Text,
    /// The names of its tracks.
    pub tracks: Items<Text>,
}

/// A border that is kept.
#[derive(Debug, Drop)]
pub enum BorderPart {
    /// On the track of that name, so many metres from where it begins.
    Cut { track: Text, at_m: u64 },
    /// At the joint of that name.
    Joint { name: Text },
}

/// All parts of a network.
#[derive(Debug, Drop)]
pub struct NetParts {
    pub nodes: Items<NodePart>,
    pub tracks: Items<TrackPart>,
    pub sections: Items<GroupPart>,
    pub borders: Items<BorderPart>,
    pub stations: Items<GroupPart>,
}
