//! Words that are numbered in order of declaration.

ghost use Rattle.std.specs.Prelude.{◌≡◌, ◌<◌, [], length, map, Some, IfOk, OnOk, IfSome};
ghost use Rattle.pyv_meaning.specs.Scope.{number as number_of};
ghost use Rattle.pyv_sorts.specs.Lists.{added};

use indexmap::IndexSet;
use std::alloc::{AllocError, Global};
use std::marker::Model;

/// Distinct words, each numbered by how many stand before it. They are fewer than 2^32.
#[derive(Drop)]
pub struct Words<'a> {
    set: IndexSet<&'a [u8]>,
}

impl<'a> Model for Words<'a> {
    ghost use Rattle.std.specs.Prelude.{ℕ, List, map, length, ◌<◌, ◌^◌};

    ghost Value = { List (List ℕ) };

    ghost view = { λ s. map (λ k. k.now) s.set.keys };

    ghost invariant = { λ s. length s.set.keys < 2 ^ 32 };
}

impl<'a> Words<'a> {
    /// No words, without taking memory.
    pub fn new(alloc: Global) -> Words<'a>
        ensures { result ≡ [] }
    {
        Words {
            set: IndexSet::new(alloc),
        }
    }

    /// How many words there are.
    pub fn len(&self) -> usize
        ensures { result ≡ length self.now }
    {
        self.set.len()
    }

    /// The words in order.
    pub fn as_slice(&self) -> &[&'a [u8]]
        ensures { map (λ w. w.now) result.now ≡ self.now }
    {
        self.set.as_slice()
    }

    /// The number of a word, where it is among them.
    pub fn number(&self, word: &[u8]) -> Option<u32>
        ensures is { result ≡ number_of self.now word.now }
        ensures within { IfSome result (λ k. k < length self.now) }
    {
        match self.set.get_index_of(word) {
            Some(number) => Some(number as u32),
            None => None,
        }
    }

    /// The number of a word, which is put behind the others where it isn't among them. Memory is
    /// answered to be wanting for the 2^32nd word too.
    pub fn add(&mut self, word: &'a [u8]) -> Result<u32, AllocError>
        ensures added { OnOk result (self.new ≡ added self.old word.now) }
        ensures is { IfOk result (λ k. number_of self.new word.now ≡ Some k) }
    {
        if self.set.len() >= u32::MAX as usize {
            return Err(AllocError);
        }
        let (number, _) = self.set.insert_full(word)?;
        Ok(number as u32)
    }
}
