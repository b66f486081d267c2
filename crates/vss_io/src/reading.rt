//! A place to read files from, and why a file is not read.

ghost use Rattle.std.specs.Prelude.{[], ◌∷◌};
ghost use Rattle.vss_io.specs.Shown.{Files};
ghost use Rattle.vss_io.specs.Reading.{Reads, Keeps};

use thiserror::Error;

/// Why a file was not read.
#[derive(Clone, Copy, Debug, PartialEq, Eq, Error)]
pub enum ShelfFault {
    /// There is no such file, or it could not be read.
    #[error("the file could not be read")]
    Failed,
    /// The file has more bytes than were asked for.
    #[error("the file is too long")]
    TooLong,
    /// There was no memory for the bytes.
    #[error("out of memory")]
    Memory,
}

/// Files that are read whole, by name.
pub trait Shelf {
    // what contracts see of the shelf
    ghost shown: { Self → Files };

    /// All bytes of the file, if they are at most `max`.
    fn read_file(&mut self, name: &str, max: u64) -> Result<Vec<u8>, ShelfFault>
        ensures answered { Reads (shown self.old) (shown self.new) name.now max result }
        ensures keeps { Keeps (shown self.old) (shown self.new) (name.now ∷ []) };
}
