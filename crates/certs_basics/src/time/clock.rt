//! Clocks.

ghost use Rattle.std.specs.Prelude.{ℕ};

use crate::time::time::Time;

/// A clock that is handed in.
pub trait Clock {
    // The moments that it may tell.
    ghost tells: { Self → ℕ → Type 0 };

    /// The moment that it tells now.
    fn now(&self) -> Time
        ensures { tells self.now result };
}
