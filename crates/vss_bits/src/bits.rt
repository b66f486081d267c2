//! Truths in words of 64 bits.
ghost use Rattle.std.specs.Prelude.{◌≡◌, ℕ, ◌<◌, ◌+◌, ◌/◌, ◌^◌, ◌-◌, ◌++◌, ◌∷◌, [], false, length, slice_index_or, IfOk, OnErr, OnOk};
ghost use Rattle.vss_bits.specs.Words.{is_set, AreInWords, SetsOnly};

use std::alloc::{AllocError, Global};
use std::marker::Model;

/// A list of truths, fewer than 4,294,967,295 of them; it takes a byte for eight.
#[derive(Debug, Drop)]
pub struct Bits {
    words: Vec<u64>,
    count: u32,
}

impl Model for Bits {
    ghost use Rattle.std.specs.Prelude.{Bool, List};
    ghost use Rattle.vss_bits.specs.Words.{truths, AreInWords};

    ghost Value = { List Bool };

    ghost view = { λ b. truths b.words.items b.count };

    ghost invariant = { λ b. AreInWords b.words.items b.count };
}

impl Bits {
    /// No truths, with room for so many.
    pub fn with_room(alloc: Global, count: u32) -> Result<Bits, AllocError>
        ensures { IfOk result (λ bits. bits ≡ []) }
    {
        let mut words = Vec::new(alloc);
        words.reserve((count / 64) as usize + 1)?;
        Ok(Bits { words, count: 0 })
    }

    /// How many truths there are.
    pub fn len(&self) -> u32
        ensures { result ≡ length self.now }
    {
        self.count
    }

    /// The truth at that place, counted from 0; behind the last one it is false. In constant time.
    pub fn get(&self, place: u32) -> bool
        ensures { result ≡ slice_index_or self.now place false }
    {
        if place < self.count {
            is_set_in(&self.words, place)
        } else {
            false
        }
    }

    /// Appends a truth. After want of memory they are as before.
    pub fn push(&mut self, truth: bool) -> Result<(), AllocError>
        requires { length self.old < 2 ^ 32 - 1 }
        ensures ok { OnOk result (self.new ≡ self.old ++ truth ∷ []) }
        ensures err { OnErr result (self.new ≡ self.old) }
    {
        make_room(&mut self.words, self.count)?;
        set_in(&mut self.words, self.count, truth);
        self.count += 1;
        Ok(())
    }
}

// Whether the bit of that place is set.
fn is_set_in(words: &[u64], place: u32) -> bool
    requires { place / 64 < length words.now }
    ensures { result ≡ is_set words.now place }
{
    words[(place / 64) as usize] >> (place % 64) & 1 == 1
}

// Appends a word where the place is the first behind them.
fn make_room(words: &mut Vec<u64>, place: u32) -> Result<(), AllocError>
    requires { AreInWords words.old.items place }
    ensures ok { OnOk result (length words.new.items ≡ place / 64 + 1) }
    ensures bits { (other : ℕ) → is_set words.new.items other ≡ is_set words.old.items other }
    ensures err { OnErr result (words.new.items ≡ words.old.items) }
{
    if place % 64 == 0 {
        words.push(0)?;
    }
    Ok(())
}

// Sets the bit of that place, which is clear, where it is to be set.
fn set_in(words: &mut Vec<u64>, place: u32, truth: bool)
    requires within { place / 64 < length words.old.items }
    requires clear { is_set words.old.items place ≡ false }
    ensures { SetsOnly words.old.items place truth words.new.items }
{
    if truth {
        let word = (place / 64) as usize;
        words[word] = words[word] | 1 << (place % 64);
    }
}
