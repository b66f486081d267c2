//! The count of the calls of a device in memory.

ghost use Rattle.std.specs.Prelude.{◌≡◌, ◌+◌, ◌-◌, ◌^◌, min};
ghost use Rattle.vss_io.specs.Calls.{next_fails};

use std::marker::Model;

/// The calls of a device in memory, counted from 0, some of which are to fail.
#[derive(Drop)]
pub struct Calls {
    failing: Vec<u32>,
    made: u64,
}

impl Model for Calls {
    ghost use Rattle.vss_io.specs.Calls.{CallCount};

    ghost Value = { CallCount };

    ghost view = { λ c. record { failing = c.failing.items; made = c.made } };
}

impl Calls {
    /// No call yet; those whose numbers are listed will fail.
    pub fn new(failing: Vec<u32>) -> Calls
        ensures { result ≡ record { failing = failing.items; made = 0 } }
    {
        Calls { failing, made: 0 }
    }

    /// Counts the next call, and tells whether it is to fail. Linear in the list.
    pub fn next_fails(&mut self) -> bool
        ensures listed { result ≡ next_fails self.old }
        ensures same { self.new.failing ≡ self.old.failing }
        ensures counted { self.new.made ≡ min (self.old.made + 1) (2 ^ 64 - 1) }
    {
        let made = self.made;
        self.made = made.saturating_add(1);
        self.failing.iter().any(|call| u64::from(*call) == made)
    }
}
