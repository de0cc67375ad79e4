ghost use Rattle.std.specs.Prelude.{◌≡◌, length, IfOk};

use std::alloc::{AllocError, Global};
use std::marker::Model;

/// Room for the values of a cube's variables, for searches that take no memory.
///
/// Contracts see how many variables it has room for.
#[derive(Drop)]
pub struct Picks {
    pub(crate) slots: Vec<usize>,
}

impl Model for Picks {
    ghost use Rattle.std.specs.Prelude.{ℕ, length};

    ghost Value = { ℕ };

    ghost view = { λ p. length p.slots.items };
}

impl Picks {
    /// Room for this many variables.
    pub fn new(alloc: Global, vars: u32) -> Result<Picks, AllocError>
        ensures { IfOk result (λ room. room ≡ vars) }
    {
        Picks::with_room(alloc, vars as usize)
    }

    /// Room for this many variables.
    pub(crate) fn with_room(alloc: Global, vars: usize) -> Result<Picks, AllocError>
        ensures { IfOk result (λ room. room ≡ vars) }
    {
        Ok(Picks {
            slots: vec![in alloc; 0; vars]?,
        })
    }
}
