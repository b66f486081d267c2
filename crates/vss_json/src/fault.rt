//! Why a walk over a document stops.

use std::alloc::{AllocError, AllocFailed};

/// A member whose value is missing or isn't what it has to be.
#[derive(Clone, Copy, Debug, PartialEq, Eq)]
pub struct ShapeFault<M> {
    /// Which member, by its path.
    pub member: M,
    /// The number of the item in the outermost list around it, from 0; 0 outside of lists.
    pub item: u32,
}

/// Why a walk stops.
#[derive(Clone, Copy, Debug, PartialEq, Eq)]
pub enum WalkFault<M> {
    /// The first fault of shape.
    Shape(ShapeFault<M>),
    /// Want of memory.
    Memory,
}

/// Why bytes are no document.
#[derive(Clone, Copy, Debug, PartialEq, Eq)]
pub enum DocumentFault<M> {
    /// They are no JSON text in UTF-8, or one that nests deeper than 127.
    NotJson,
    /// Their value's first fault of shape.
    Shape(ShapeFault<M>),
    /// Want of memory.
    Memory,
}

impl<M> From<AllocError> for WalkFault<M> {
    ghost use Rattle.vss_json.specs.declared.fault.WalkFault.TheVariants.{Memory};
    ghost use Rattle.std.specs.Prelude.{◌≡◌};

    ghost from_gives = { λ _ fault. fault ≡ Memory };

    fn from(_refused: AllocError) -> WalkFault<M> {
        WalkFault::Memory
    }
}

impl<M, T: Drop> From<AllocFailed<T>> for WalkFault<M> {
    ghost use Rattle.vss_json.specs.declared.fault.WalkFault.TheVariants.{Memory};
    ghost use Rattle.std.specs.Prelude.{◌≡◌};

    ghost from_gives = { λ _ fault. fault ≡ Memory };

    fn from(_refused: AllocFailed<T>) -> WalkFault<M> {
        WalkFault::Memory
    }
}
