//! Time that is waited.

ghost use Rattle.std.specs.Prelude.{◌≤◌, ◌+◌, ℕ, min};
ghost use Rattle.pk_disk.specs.Disk.{full_count};

use std::time::{Clock, Duration};

/// What waits for a time.
pub trait Waits {
    /// How many milliseconds were waited, counted up to 2^64 - 1.
    ghost waited: { Self → ℕ };

    /// That as long is waited as was asked for.
    ghost honest: { Type 0 };

    /// Waits so many milliseconds at least.
    fn wait(&mut self, millis: u64)
        ensures { honest → min (waited self.old + millis) full_count ≤ waited self.new };
}

/// Who sleeps by a clock. How long, no clause says.
#[derive(Drop)]
pub struct Sleeper<C: Clock> {
    pub clock: C,
}

impl<C: Clock> Waits for Sleeper<C> {
    ghost waited = { λ _. 0 };

    ghost honest = { ⊥ };

    fn wait(&mut self, millis: u64) {
        self.clock.sleep(Duration::from_millis(millis));
    }
}
