//! A shelf of files in memory, of which some readings fail.

ghost use Rattle.std.specs.Prelude.{◌≡◌, ◌≢◌, ◌⊎◌, ◌+◌, ◌-◌, ◌^◌, [], ◌∷◌, ◌++◌, Err, min, IsTrue, IsNone, IsErrOf, OnOk, OnErr};
ghost use Rattle.vss_io.specs.Calls.{next_fails};
ghost use Rattle.vss_io.specs.MemFiles.{named_bytes, file_named};
ghost use Rattle.vss_io.specs.MemShelf.{files_of};
ghost use Rattle.vss_io.specs.Reading.{Reads, Keeps};

use crate::calls::Calls;
use crate::files::{bytes_of, copy_within};
use crate::reading::{Shelf, ShelfFault};
use std::alloc::{AllocError, Global};
use std::marker::Model;

/// Files in memory. It keeps the name of each reading that failed.
#[derive(Drop)]
pub struct MemShelf {
    alloc: Global,
    files: Vec<(String, Vec<u8>)>,
    reads: Calls,
    failed: Vec<String>,
}

impl Model for MemShelf {
    ghost use Rattle.std.specs.Prelude.{map, string_bytes};
    ghost use Rattle.vss_io.specs.MemFiles.{named_bytes};
    ghost use Rattle.vss_io.specs.MemShelf.{MemReading};

    ghost Value = { MemReading };

    ghost view = { λ s. record { files = named_bytes s.files.items; reads = s.reads; failed = map string_bytes s.failed.items } };
}

impl MemShelf {
    /// A shelf of these files, of which the first of a name counts. The readings are counted from 0, and those listed
    /// in `failing` fail.
    pub fn new(alloc: Global, files: Vec<(String, Vec<u8>)>, failing: Vec<u32>) -> MemShelf
        ensures files { result.files ≡ named_bytes files.items }
        ensures reads { result.reads ≡ record { failing = failing.items; made = 0 } }
        ensures none_failed { result.failed ≡ [] }
    {
        MemShelf {
            alloc,
            files,
            reads: Calls::new(failing),
            failed: Vec::new(alloc),
        }
    }

    /// Notes that a reading of that name failed.
    fn note(&mut self, name: &str) -> Result<(), AllocError>
        ensures ok { OnOk result (self.new ≡ record self.old { failed = self.old.failed ++ name.now ∷ [] }) }
        ensures err { OnErr result (self.new ≡ self.old) }
    {
        let name = String::from_str(self.alloc, name)?;
        self.failed.push(name)?;
        Ok(())
    }
}

impl Shelf for MemShelf {
    ghost use Rattle.vss_io.specs.MemShelf.{files_of};

    ghost shown = { files_of };

    #[tactic(auto, using(crate::proofs::CountLaws::count_laws))]
    /// Fails at the listed readings and where there is no file of that name. Where the name of a reading that fails
    /// finds no memory, it is `Memory`. Linear in the files, the list and the bytes.
    fn read_file(&mut self, name: &str, max: u64) -> Result<Vec<u8>, ShelfFault>
        ensures fails { IsErrOf result ShelfFault.Failed → IsTrue (next_fails self.old.reads) ⊎ IsNone (file_named self.old.files name.now) }
        ensures listed { IsTrue (next_fails self.old.reads) → IsErrOf result ShelfFault.Failed ⊎ IsErrOf result ShelfFault.Memory }
        ensures noted { IsErrOf result ShelfFault.Failed → self.new.failed ≡ self.old.failed ++ name.now ∷ [] }
        ensures not_noted { result ≢ Err ShelfFault.Failed → self.new.failed ≡ self.old.failed }
        ensures counted { self.new.reads ≡ record self.old.reads { made = min (self.old.reads.made + 1) (2 ^ 64 - 1) } }

        // What each shelf promises.
        ensures answered { Reads (files_of self.old) (files_of self.new) name.now max result }
        ensures keeps { Keeps (files_of self.old) (files_of self.new) (name.now ∷ []) }
    {
        let failing = self.reads.next_fails();
        match bytes_of(self.files.as_slice(), name) {
            Some(bytes) if !failing => copy_within(self.alloc, bytes, max),
            _ => {
                if self.note(name).is_err() {
                    return Err(ShelfFault::Memory);
                }
                Err(ShelfFault::Failed)
            }
        }
    }
}
