//! When the search restarts.
ghost use Rattle.std.specs.Prelude.{◌≡◌, ℕ, ◌+◌, ◌*◌, true, false};
ghost use Rattle.watch_solver.specs.Luby.{IsLuby};

use crate::luby::luby;

/// How often the search has restarted, and how many conflicts are left until it does again.
#[derive(Clone, Copy, Debug)]
pub(crate) struct Pace {
    pub(crate) restarts: u32,
    pub(crate) left: u64,
}

impl Pace {
    /// Before the first conflict.
    pub(crate) fn new() -> Pace
        ensures { (result.restarts ≡ 0) × (result.left ≡ 64) }
    {
        Pace {
            restarts: 0,
            left: 64,
        }
    }

    /// One more conflict: whether a restart is due behind it. The i-th one comes 64 times the i-th item of the luby
    /// sequence after the one before.
    pub(crate) fn count(&mut self) -> bool
        ensures not_yet { result ≡ false → self.new.restarts ≡ self.old.restarts }
        ensures due { result ≡ true → self.new.restarts ≡ self.old.restarts + 1 }
        ensures next { result ≡ true → (item : ℕ) × IsLuby (self.new.restarts + 1) item × (self.new.left ≡ 64 * item) }
    {
        self.left = self.left.saturating_sub(1);
        if self.left > 0 || self.restarts >= u32::MAX - 1 {
            return false;
        }
        self.restarts += 1;
        self.left = 64 * luby(self.restarts + 1) as u64;
        true
    }
}
