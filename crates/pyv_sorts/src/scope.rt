//! The variables in scope.

ghost use Rattle.std.specs.Prelude.{◌≡◌, ◌++◌, ◌∷◌, ◌-◌, ◌<◌, ◌^◌, [], length, take, None, OnOk, IfOk};
ghost use Rattle.pyv_meaning.specs.Scope.{lookup as lookup_of};
ghost use Rattle.pyv_sorts.specs.Placing.{name_in};

use crate::entry::Entry;
use crate::placed::Placed;
use indexmap::IndexMap;
use std::alloc::{AllocError, Global};
use std::marker::Model;

/// The most binders above a place of a closed body.
pub const MOST_BINDERS: usize = 64;

/// The variables in scope, in order of their binders, each by its name where it is bound, and for
/// each word the innermost variable of that name. They are fewer than 2^32.
#[derive(Drop)]
pub struct Scope<'a> {
    entries: Vec<Entry<'a>>,
    found: IndexMap<&'a [u8], Option<(u32, u32)>>,
}

impl<'a> Model for Scope<'a> {
    ghost use Rattle.std.specs.Prelude.{List, length, ◌<◌, ◌^◌};
    ghost use Rattle.pyv_meaning.specs.Tree.{Name};
    ghost use Rattle.pyv_sorts.specs.Entering.{entry_names, Finds, Hides};

    ghost Value = { List Name };

    ghost view = { λ s. entry_names s.entries.items };

    ghost invariant = { λ s. (length s.entries.items < 2 ^ 32) × Finds s.found s.entries.items × Hides s.entries.items };
}

impl<'a> Scope<'a> {
    /// No variables, without taking memory.
    pub fn new(alloc: Global) -> Scope<'a>
        ensures { result ≡ [] }
    {
        Scope {
            entries: Vec::new(alloc),
            found: IndexMap::new(alloc),
        }
    }

    /// How many variables there are.
    pub fn len(&self) -> usize
        ensures is { result ≡ length self.now }
        ensures few { result < 2 ^ 32 }
    {
        self.entries.len()
    }

    /// Puts a variable inside the others. Memory is answered to be wanting for the 2^32nd too.
    pub fn enter(&mut self, name: Placed<'a>) -> Result<(), AllocError>
        ensures { OnOk result (self.new ≡ self.old ++ name_in name.entry ∷ []) }
    {
        let level = self.len();
        if level >= u32::MAX as usize {
            return Err(AllocError);
        }
        let hidden = self.lookup(name.word);
        self.entries.push(Entry { name, hidden })?;
        match self
            .found
            .insert(name.word, Some((name.place, level as u32)))
        {
            Ok(_) => Ok(()),
            Err(_) => {
                let _ = self.entries.pop();
                Err(AllocError)
            }
        }
    }

    /// Leaves the scope of the innermost variable.
    fn leave_one(&mut self)
        ensures { self.new ≡ take (length self.old - 1) self.old }
    {
        if let Some(entry) = self.entries.pop() {
            let _ = self.found.insert(entry.name.word, entry.hidden);
        }
    }

    /// Leaves the scope of all variables but so many outermost ones.
    pub fn leave(&mut self, level: usize)
        ensures { self.new ≡ take level self.old }
    {
        let len = self.len();
        'each: for _ in level..len {
            self.leave_one();
        }
    }

    /// The innermost variable of this name: the place where it is bound, and its level.
    pub fn lookup(&self, word: &[u8]) -> Option<(u32, u32)>
        ensures { result ≡ lookup_of None 0 self.now word.now }
    {
        match self.found.get(word) {
            Some(found) => *found,
            None => None,
        }
    }
}
