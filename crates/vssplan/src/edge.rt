//! The real devices: the files of the system and standard output.

ghost use Rattle.std.specs.Prelude.{None, false};

use std::alloc::Global;
use std::fs::File;
use std::io;
use std::io::{ErrorKind, Read, Write};
use std::rt::Files;
use vss_io::{Shelf, ShelfFault, Sink, SinkFault};

/// The files of the system. One count of faults serves all names.
#[derive(Drop)]
pub struct FileShelf<'a, R> {
    rt: &'a R,
    alloc: Global,
    faults: u64,
}

impl<'a, R: Files> FileShelf<'a, R> {
    /// The files, of which none was read yet.
    pub fn new(rt: &'a R, alloc: Global) -> FileShelf<'a, R> {
        FileShelf {
            rt,
            alloc,
            faults: 0,
        }
    }

    /// One byte more than `max` is read, so that a longer file shows.
    fn read(&self, name: &str, max: u64) -> io::Result<Vec<u8>> {
        let mut bytes = Vec::new(self.alloc);
        let file = File::open(self.rt, name)?;
        file.take(max.saturating_add(1)).read_to_end(&mut bytes)?;
        Ok(bytes)
    }
}

impl<R: Files> Shelf for FileShelf<'_, R> {
    ghost shown = { λ s. record { tells = false; file = λ _. None; faults = λ _. s.faults } };

    fn read_file(&mut self, name: &str, max: u64) -> Result<Vec<u8>, ShelfFault> {
        match self.read(name, max) {
            Ok(bytes) if bytes.len() as u64 <= max => Ok(bytes),
            Ok(_) => Err(ShelfFault::TooLong),
            Err(e) if e.kind() == ErrorKind::OutOfMemory => Err(ShelfFault::Memory),
            Err(_) => {
                self.faults = self.faults.saturating_add(1);
                Err(ShelfFault::Failed)
            }
        }
    }
}

/// Standard output.
#[derive(Drop)]
pub struct StdSink<'a, R> {
    rt: &'a R,
    faults: u64,
}

impl<'a, R: Print> StdSink<'a, R> {
    /// Standard output, to which nothing was written yet.
    pub fn new(rt: &'a R) -> StdSink<'a, R> {
        StdSink { rt, faults: 0 }
    }
}

impl<R: Print> Sink for StdSink<'_, R> {
    ghost shown = { λ s. record { written = None; faults = s.faults } };

    fn put(&mut self, piece: &[u8]) -> Result<(), SinkFault> {
        match io::writer(self.rt).write_all(piece) {
            Ok(()) => Ok(()),
            Err(_) => {
                self.faults = self.faults.saturating_add(1);
                Err(SinkFault::Failed)
            }
        }
    }
}
