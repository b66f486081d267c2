//! What a search may spend.
ghost use Rattle.std.specs.Prelude.{◌≡◌, ◌<◌, ◌+◌};

use std::marker::Model;

/// How many conflicts may still be met, as a number that contracts see.
#[derive(Debug, Drop)]
pub struct Budget {
    left: u32,
}

impl Model for Budget {
    ghost use Rattle.std.specs.Prelude.{ℕ};

    ghost Value = { ℕ };

    ghost view = { λ b. b.left };
}

impl Budget {
    /// A budget of that many conflicts.
    pub fn new(limit: u32) -> Budget
        ensures { result ≡ limit }
    {
        Budget { left: limit }
    }

    /// How many are left.
    pub fn left(&self) -> u32
        ensures { result ≡ self.now }
    {
        self.left
    }

    /// One is spent, if some are left.
    pub fn spend(&mut self)
        requires { 0 < self.old }
        ensures { self.new + 1 ≡ self.old }
    {
        self.left -= 1;
    }
}
