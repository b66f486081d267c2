//! Lines that are printed piece by piece, without memory.

ghost use Rattle.std.specs.Prelude.{◌≡◌, ℕ, ◌+◌, ◌-◌, ◌%◌, ◌<◌, [], ◌++◌, length, take, OnOk, OnErr};
ghost use Rattle.vss_io.specs.Written.{Prints, PrintsAllBut};
ghost use Rattle.vss_io.specs.Line.{line, joined};

use crate::writing::{Sink, SinkFault};
use std::marker::Model;

/// How many bytes of a line are put at once.
pub const PIECE: usize = 4096;

/// The end of a line that is not put yet, of less than 4,096 bytes. No call takes memory.
#[derive(Drop)]
pub struct LineBuf {
    bytes: [u8; PIECE],
    used: usize,
}

impl Model for LineBuf {
    ghost use Rattle.std.specs.Prelude.{List, ℕ, take, ◌<◌};
    ghost use Rattle.vss_io.specs.declared.line_buf.TheConstants.{PIECE};

    ghost Value = { List ℕ };

    ghost view = { λ b. take b.used b.bytes };

    ghost invariant = { λ b. b.used < PIECE };
}

impl LineBuf {
    /// A line of which nothing is printed yet.
    pub fn new() -> LineBuf
        ensures { result ≡ [] }
    {
        LineBuf {
            bytes: [0; PIECE],
            used: 0,
        }
    }

    /// Appends the bytes, and puts 4,096 bytes as one piece as soon as so many are kept. Linear in the bytes.
    pub fn add<K: Sink>(&mut self, bytes: &[u8], out: &mut K) -> Result<(), SinkFault>
        ensures printed { PrintsAllBut (K.shown out.old) (K.shown out.new) self.new (self.old ++ bytes.now) result }
        ensures dropped { OnErr result (self.new ≡ []) }
        ensures kept { OnOk result (length self.new ≡ (length self.old + length bytes.now) % 4096) }
    {
        let mut rest = bytes;
        while rest.len() >= self.room() {
            let (front, back) = rest.split_at(self.room());
            self.put_with(front, out)?;
            rest = back;
        }
        self.keep(rest);
        Ok(())
    }

    /// Ends the line by a line feed, puts what is left of it, and keeps nothing.
    pub fn finish<K: Sink>(&mut self, out: &mut K) -> Result<(), SinkFault>
        ensures printed { Prints (K.shown out.old) (K.shown out.new) (line self.old) result }
        ensures kept { self.new ≡ [] }
    {
        self.add(b"\n", out)?;
        if self.used == 0 {
            return Ok(());
        }
        let used = self.used;
        self.used = 0;
        out.put(&self.bytes[..used])
    }

    /// How many bytes are missing from a whole piece.
    fn room(&self) -> usize
        ensures whole { result + length self.now ≡ PIECE }
        ensures some { 0 < result }
    {
        PIECE - self.used
    }

    /// Puts a piece that ends with these bytes. Nothing is kept then, even if the put fails.
    fn put_with<K: Sink>(&mut self, front: &[u8], out: &mut K) -> Result<(), SinkFault>
        requires { length self.old + length front.now ≡ PIECE }
        ensures printed { Prints (K.shown out.old) (K.shown out.new) (self.old ++ front.now) result }
        ensures kept { self.new ≡ [] }
    {
        self.bytes[self.used..].copy_from_slice(front);
        self.used = 0;
        out.put(&self.bytes)
    }

    /// Keeps these bytes too, which do not fill a piece.
    fn keep(&mut self, bytes: &[u8])
        requires { length self.old + length bytes.now < PIECE }
        ensures { self.new ≡ self.old ++ bytes.now }
    {
        self.bytes[self.used..self.used + bytes.len()].copy_from_slice(bytes);
        self.used += bytes.len();
    }
}

/// Prints one line: the pieces one after another, and a line feed.
pub fn print_line<K: Sink>(pieces: &[&[u8]], out: &mut K) -> Result<(), SinkFault>
    ensures { Prints (K.shown out.old) (K.shown out.new) (line (joined pieces.now)) result }
{
    let mut text = LineBuf::new();
    for piece in pieces {
        text.add(piece, out)?;
    }
    text.finish(out)
}
