//! Why an instance has no gaps.

use cell_net::SectionId;

/// Why there are no gaps.
#[derive(Clone, Copy, Debug, PartialEq, Eq)]
pub enum GapRefusal {
    /// The first section with a pair of cells that has more than 64 walks.
    TooManyWalks(SectionId),
    /// Want of memory.
    Memory,
}
