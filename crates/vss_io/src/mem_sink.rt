//! A sink in memory.

ghost use Rattle.std.specs.Prelude.{◌≡◌, ◌⊎◌, ◌+◌, ◌-◌, ◌^◌, ◌<◌, ◌≤◌, ◌↔◌, [], ◌++◌, length, take, min, IfOk, OnOk, OnErr, IsErr, IsTrue};
ghost use Rattle.vss_io.specs.Calls.{next_fails};
ghost use Rattle.vss_io.specs.MemSink.{room, taken, output_of};
ghost use Rattle.vss_io.specs.Written.{Prints};

use crate::calls::Calls;
use crate::writing::{Sink, SinkFault};
use std::alloc::{AllocError, Global};
use std::marker::Model;

/// A sink in memory, whose capacity is fixed when it is made.
#[derive(Drop)]
pub struct MemSink {
    bytes: Vec<u8>,
    capacity: usize,
    puts: Calls,
    faults: u64,
}

impl Model for MemSink {
    ghost use Rattle.std.specs.Prelude.{◌≤◌, vec_len, vec_capacity};
    ghost use Rattle.vss_io.specs.MemSink.{MemWriting};

    ghost Value = { MemWriting };

    ghost view = { λ s. record { written = s.bytes.items; capacity = s.capacity; puts = s.puts; faults = s.faults } };

    ghost invariant = { λ s. (vec_len s.bytes ≤ s.capacity) × (s.capacity ≤ vec_capacity s.bytes) };
}

impl MemSink {
    /// A sink that takes at most `capacity` bytes in all. The puts are counted from 0, and those listed in `failing` fail.
    pub fn new(alloc: Global, capacity: usize, failing: Vec<u32>) -> Result<MemSink, AllocError>
        ensures empty { IfOk result (λ sink. sink.written ≡ []) }
        ensures capacity { IfOk result (λ sink. sink.capacity ≡ capacity) }
        ensures puts { IfOk result (λ sink. sink.puts ≡ record { failing = failing.items; made = 0 }) }
        ensures faults { IfOk result (λ sink. sink.faults ≡ 0) }
    {
        Ok(MemSink {
            bytes: Vec::with_capacity(alloc, capacity)?,
            capacity,
            puts: Calls::new(failing),
            faults: 0,
        })
    }

    /// The bytes that were written.
    pub fn written(&self) -> &[u8]
        ensures { result.now ≡ self.now.written }
    {
        self.bytes.as_slice()
    }
}

impl Sink for MemSink {
    ghost use Rattle.vss_io.specs.MemSink.{output_of};

    ghost shown = { output_of };

    /// Takes the whole piece, or fails: a listed put takes the first half of the piece, rounded down, and a put past
    /// the capacity what fits.
    fn put(&mut self, piece: &[u8]) -> Result<(), SinkFault>
        ensures taken { self.new.written ≡ self.old.written ++ take (taken self.old (length piece.now)) piece.now }
        ensures failed { IsErr result ↔ (IsTrue (next_fails self.old.puts) ⊎ (room self.old < length piece.now)) }
        ensures counted { self.new.puts ≡ record self.old.puts { made = min (self.old.puts.made + 1) (2 ^ 64 - 1) } }
        ensures fault { OnErr result (self.new.faults ≡ min (self.old.faults + 1) (2 ^ 64 - 1)) }
        ensures no_fault { OnOk result (self.new.faults ≡ self.old.faults) }
        ensures same_capacity { self.new.capacity ≡ self.old.capacity }

        // What each sink promises.
        ensures prints { Prints (output_of self.old) (output_of self.new) piece.now result }
    {
        let failing = self.puts.next_fails();
        let wanted = if failing {
            piece.len() / 2
        } else {
            piece.len()
        };
        let room = self.capacity - self.bytes.len();
        let taken = wanted.min(room);
        self.bytes.extend_from_slice(&piece[..taken]).unwrap();
        if failing || taken < piece.len() {
            self.faults = self.faults.saturating_add(1);
            return Err(SinkFault::Failed);
        }
        Ok(())
    }
}
