//! A shelf and a sink that never fail.

ghost use Rattle.std.specs.Prelude.{◌≡◌};
ghost use Rattle.vss_io.specs.MemFiles.{named_bytes};

use crate::files::{bytes_of, copy_within};
use crate::reading::{Shelf, ShelfFault};
use crate::writing::{Sink, SinkFault};
use std::alloc::Global;
use std::marker::Model;

/// Files in memory of which none ever fails.
#[derive(Drop)]
pub struct SureShelf {
    alloc: Global,
    files: Vec<(String, Vec<u8>)>,
}

impl Model for SureShelf {
    ghost use Rattle.std.specs.Prelude.{List, ℕ};
    ghost use Rattle.vss_io.specs.MemFiles.{named_bytes};

    ghost Value = { List (List ℕ × List ℕ) };

    ghost view = { λ s. named_bytes s.files.items };
}

impl SureShelf {
    /// A shelf of these files, of which the first of a name counts. A name that has none reads as the empty file.
    pub fn new(alloc: Global, files: Vec<(String, Vec<u8>)>) -> SureShelf
        ensures { result ≡ named_bytes files.items }
    {
        SureShelf { alloc, files }
    }
}

impl Shelf for SureShelf {
    ghost use Rattle.vss_io.specs.MemFiles.{whole_files};

    ghost shown = { whole_files };

    /// Linear in the files and the bytes.
    fn read_file(&mut self, name: &str, max: u64) -> Result<Vec<u8>, ShelfFault> {
        let bytes = bytes_of(self.files.as_slice(), name).unwrap_or(&[]);
        copy_within(self.alloc, bytes, max)
    }
}

/// A sink that takes every piece and tells nothing.
#[derive(Clone, Copy, Debug)]
pub struct SureSink;

impl SureSink {
    /// A sink to which nothing is written yet.
    pub fn new() -> SureSink {
        SureSink
    }
}

impl Sink for SureSink {
    ghost use Rattle.std.specs.Prelude.{None};

    ghost shown = { λ _. record { written = None; faults = 0 } };

    fn put(&mut self, _piece: &[u8]) -> Result<(), SinkFault> {
        Ok(())
    }
}
