//! Why a network document is refused.

use crate::member::Member;
use rail_net::{NetFault, Spot};

/// Why a document is refused: the first of these in their order.
#[derive(Clone, Copy, Debug, PartialEq, Eq)]
pub enum ReadRefusal {
    /// The bytes are no JSON text in UTF-8, or one that nests deeper than 127.
    NotJson,
    /// The member is missing, or its value isn't what it has to be; in that item of the outermost
    /// list around it, or 0 outside of lists.
    Shape { member: Member, item: u32 },
    /// The item's name isn't 1 to 32 letters and digits of ASCII, `_` and `-`.
    BadName(Spot),
    /// The first rule of networks that is broken, and the lowest item that breaks it.
    Net { kind: NetFault, spot: Spot },
    /// Want of memory.
    Memory,
}
