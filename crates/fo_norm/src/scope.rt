ghost use Rattle.std.specs.Prelude.{◌≡◌, ◌+◌, ◌-◌, ◌<◌, ◌^◌, [], ◌∷◌, ◌++◌, length, take, OnOk};
ghost use Rattle.fo_core.specs.Skolems.{skolem};

use fo_core::{Seq, Symbol};
use std::alloc::{AllocError, Global};

/// What stands for a variable of the query's formula.
#[derive(Clone, Copy)]
pub enum Slot {
    /// The universal with this many universals above it.
    Level(u32),
    /// The Skolem function with this number, of this many outermost universals.
    Skolem(u32, u32),
}

/// Where the translation stands: what stands for each variable in scope, the sorts of the enclosing
/// universals, and the Skolem symbols so far.
#[derive(Drop)]
pub struct Scope {
    pub slots: Vec<Slot>,
    pub universals: Vec<u32>,
    pub skolems: Seq<Symbol>,
}

impl Scope {
    /// Enters the scope of a universal.
    pub fn open_universal(&mut self, sort: u32) -> Result<(), AllocError>
        ensures slots { OnOk result (self.new.slots.items ≡ self.old.slots.items ++ Slot.Level (length self.old.universals.items) ∷ []) }
        ensures universals { OnOk result (self.new.universals.items ≡ self.old.universals.items ++ sort ∷ []) }
        ensures skolems { OnOk result (self.new.skolems ≡ self.old.skolems) }
    {
        let level = self.universals.len();
        if level >= u32::MAX as usize {
            return Err(AllocError);
        }
        self.slots.push(Slot::Level(level as u32))?;
        self.universals.push(sort)?;
        Ok(())
    }

    /// Enters the scope of an existential. A new Skolem function of the enclosing universals stands
    /// for its variable. `symbols` is how many symbols the signature has.
    pub fn open_existential(
        &mut self,
        alloc: Global,
        symbols: usize,
        sort: u32,
    ) -> Result<(), AllocError>
        requires { symbols + length self.old.skolems < 2 ^ 32 - 1 }
        ensures slots { OnOk result (self.new.slots.items ≡ self.old.slots.items ++ Slot.Skolem (symbols + length self.old.skolems) (length self.old.universals.items) ∷ []) }
        ensures universals { OnOk result (self.new.universals.items ≡ self.old.universals.items) }
        ensures skolems { OnOk result (self.new.skolems ≡ self.old.skolems ++ skolem self.old.universals.items sort ∷ []) }
        ensures few { OnOk result (symbols + length self.new.skolems < 2 ^ 32 - 1) }
    {
        let level = self.universals.len();
        let number = symbols + self.skolems.len();
        if level >= u32::MAX as usize || number + 1 >= u32::MAX as usize {
            return Err(AllocError);
        }
        let args = Seq::from_vec(self.universals.as_slice().to_vec(alloc)?);
        self.skolems.push(Symbol {
            relation: false,
            mutable: false,
            args,
            result: sort,
        })?;
        self.slots.push(Slot::Skolem(number as u32, level as u32))?;
        Ok(())
    }

    /// Leaves the scope of a universal.
    pub fn close_universal(&mut self)
        ensures slots { self.new.slots.items ≡ take (length self.old.slots.items - 1) self.old.slots.items }
        ensures universals { self.new.universals.items ≡ take (length self.old.universals.items - 1) self.old.universals.items }
        ensures skolems { self.new.skolems ≡ self.old.skolems }
    {
        let _ = self.slots.pop();
        let _ = self.universals.pop();
    }

    /// Leaves the scope of an existential.
    pub fn close_existential(&mut self)
        ensures slots { self.new.slots.items ≡ take (length self.old.slots.items - 1) self.old.slots.items }
        ensures universals { self.new.universals.items ≡ self.old.universals.items }
        ensures skolems { self.new.skolems ≡ self.old.skolems }
    {
        let _ = self.slots.pop();
    }
}
