//! What is grouped.

/// A piece that joins two nodes within one part, as a cell of track joins its two ends within one section.
#[derive(Clone, Copy, Debug, PartialEq, Eq)]
pub struct Segment {
    /// The node at one end.
    pub low: u32,
    /// The node at the other end, which may be the same one.
    pub high: u32,
    /// The part that it belongs to. Segments of two parts never touch.
    pub part: u32,
}
