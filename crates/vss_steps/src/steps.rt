//! How many steps were taken, for any ledger of the standard library.
ghost use Rattle.std.specs.Prelude.{◌≡◌, ◌+◌};

use std::marker::Model;
use std::sync::ledger::{Blank, Book, Ledger, Share};

/// How many steps were taken, as a number that contracts see. It takes no bytes, and only `tick` changes it: no other
/// counter of the same ledger can be made to stand in its place.
///
/// A caller that counts nothing calls a function over `L: Ledger` at the type `Brand`, hands it `Blank::new(1)`, and lets
/// that function make the counter; one line of its proof, `ghosts-NAME a = record { name = ..; parts = 1 }`, picks the
/// ledger.
#[derive(Drop)]
pub struct Steps<L: Ledger> {
    book: Book<L>,
    share: Share<L>,
}

impl<L: Ledger> Model for Steps<L> {
    ghost use Rattle.std.specs.Prelude.{ℕ, ◌<◌};

    ghost Value = { ℕ };

    ghost view = { λ s. s.book.total };

    ghost invariant = { λ s. 0 < s.share.parts };
}

impl<L: Ledger> Steps<L> {
    /// No step was taken. The blank is of one part and of this ledger.
    pub fn new(blank: Blank) -> Steps<L>
        requires name { blank.name ≡ L.name }
        requires parts { blank.parts ≡ L.parts }
        requires one { blank.parts ≡ 1 }
        ensures none { result ≡ 0 }
    {
        let (book, share) = blank.open::<L>();
        Steps { book, share }
    }

    /// One step more.
    pub fn tick(&mut self)
        ensures more { self.new ≡ self.old + 1 }
    {
        self.book.add(&mut self.share, 1);
    }
}
