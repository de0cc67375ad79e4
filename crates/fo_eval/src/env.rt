ghost use Rattle.std.specs.Prelude.{◌≡◌, ◌<◌, ◌-◌, [], ◌∷◌, ◌++◌, length, take, slice_index, IfOk};

use std::alloc::{AllocError, Global};
use std::marker::Model;

/// The values of the variables that are bound, and room for more.
///
/// Contracts see it as the list of the values, the outermost binder's first, and the room.
#[derive(Drop)]
pub struct Env {
    slots: Vec<u32>,
    used: usize,
}

impl Model for Env {
    ghost use Rattle.std.specs.Prelude.{◌≤◌, length, take};
    ghost use Rattle.fo_eval.specs.Values.{Values};

    ghost Value = { Values };

    ghost view = { λ e. record { bound = take e.used e.slots.items; room = length e.slots.items } };

    ghost invariant = { λ e. e.used ≤ length e.slots.items };
}

impl Env {
    /// An environment with no value, and room for the values of `depth` variables: the most binders
    /// above a place of the formulas that are to be evaluated in it.
    pub fn new(alloc: Global, depth: u32) -> Result<Env, AllocError>
        ensures { IfOk result (λ e. e ≡ record { bound = []; room = depth }) }
    {
        Ok(Env {
            slots: vec![in alloc; 0; depth as usize]?,
            used: 0,
        })
    }

    /// Binds one more variable, the innermost, to a value.
    pub(crate) fn push(&mut self, value: u32)
        requires { length self.old.bound < self.old.room }
        ensures { self.new ≡ record { bound = self.old.bound ++ value ∷ []; room = self.old.room } }
    {
        self.slots[self.used] = value;
        self.used += 1;
    }

    /// Unbinds the innermost variable.
    pub(crate) fn pop(&mut self)
        requires { 0 < length self.old.bound }
        ensures { self.new ≡ record { bound = take (length self.old.bound - 1) self.old.bound; room = self.old.room } }
    {
        self.used -= 1;
    }

    /// The value of the variable under so many binders.
    pub(crate) fn get(&self, at: usize) -> u32
        requires { at < length self.now.bound }
        ensures { result ≡ slice_index self.now.bound at }
    {
        self.slots[at]
    }
}
