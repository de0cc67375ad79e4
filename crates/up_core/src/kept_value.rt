//! The machine as the value of a turnstile, where workers share it.

use crate::kept::Core;
use fo_core::{Order, System};
use turnstile::KeptValue;
use up_machine::{Event, Limits};

/// What the history of a machine is about, and no event changes. It serves contracts alone.
#[derive(Drop)]
pub struct Basis {
    /// The system.
    pub sys: System,
    /// The order of its sorts.
    pub order: Order,
    /// The limits.
    pub limits: Limits,
}

impl KeptValue for Core {
    ghost use Rattle.up_machine.specs.Replay.{worker_of};
    ghost use Rattle.up_core.specs.Shared.{basis_of};

    type Base = Basis;

    type Entry = Event;

    ghost base = { basis_of };

    ghost history = { λ c. c.history };

    ghost number = { worker_of };

    fn entries(&self) -> u64 {
        self.history.len() as u64
    }
}
