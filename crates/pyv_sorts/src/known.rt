//! What a model declares.

ghost use Rattle.std.specs.Prelude.{◌≡◌, ◌<◌, [], length, map, IfSome};
ghost use Rattle.fo_core.specs.Tables.{symbol_at};
ghost use Rattle.pyv_meaning.specs.Closing.{is_capital as begins_capital};
ghost use Rattle.pyv_meaning.specs.Scope.{number as number_of, resolve as resolve_of};
ghost use Rattle.pyv_meaning.specs.Uses.{places as places_of};
ghost use Rattle.pyv_meaning.specs.View.{word as word_of, name_of};
ghost use Rattle.pyv_sorts.specs.Placing.{name_in};
ghost use Rattle.pyv_sorts.specs.Vocabulary.{InRange};

use crate::placed::Placed;
use crate::scope::Scope;
use crate::words::Words;
use fo_core::{Seq, Sig, Symbol};
use pv_base::Span;
use pyv_meaning::Meaning;
use std::marker::Model;

/// The bytes of a name. A name that doesn't lie in the text has those of its bytes that do.
pub fn word(bytes: &[u8], name: Span) -> &[u8]
    ensures { result.now ≡ word_of bytes.now name }
{
    let from = (name.from as usize).min(bytes.len());
    let to = (name.to as usize).min(bytes.len()).max(from);
    &bytes[from..to]
}

/// Whether the word begins with a letter from A to Z, as a free variable does.
pub fn is_capital(word: &[u8]) -> bool
    ensures { result ≡ begins_capital word.now }
{
    matches!(word, [b'A'..=b'Z', ..])
}

/// A text and what its model declares: the names of sorts, symbols and transitions, each numbered
/// in order of declaration, and the symbols.
#[derive(Drop)]
pub struct Known<'a> {
    bytes: &'a [u8],
    sorts: Words<'a>,
    names: Words<'a>,
    symbols: Seq<Symbol>,
    steps: Words<'a>,
}

impl<'a> Model for Known<'a> {
    ghost use Rattle.std.specs.Prelude.{◌≡◌, [], length};
    ghost use Rattle.pyv_sorts.specs.Vocabulary.{Vocabulary};

    ghost Value = { Vocabulary };

    ghost view = { λ k. record { bytes = k.bytes.now; names = record { sorts = k.sorts; symbols = k.names; steps = k.steps; definitions = [] }; sig = record { sorts = length k.sorts; symbols = k.symbols } } };

    ghost invariant = { λ k. length k.symbols ≡ length k.names };
}

impl<'a> Known<'a> {
    /// Puts together what a text declares. Each symbol has a name.
    pub fn new(
        bytes: &'a [u8],
        sorts: Words<'a>,
        names: Words<'a>,
        symbols: Seq<Symbol>,
        steps: Words<'a>,
    ) -> Known<'a>
        requires { length symbols ≡ length names }
        ensures bytes { result.bytes ≡ bytes.now }
        ensures names { result.names ≡ record { sorts = sorts.entry; symbols = names.entry; steps = steps.entry; definitions = [] } }
        ensures sig { result.sig ≡ record { sorts = length sorts.entry; symbols = symbols } }
    {
        Known {
            bytes,
            sorts,
            names,
            symbols,
            steps,
        }
    }

    /// A name with its bytes.
    pub fn name(&self, name: Span) -> Placed<'a>
        ensures { name_in result ≡ name_of self.now.bytes name }
    {
        Placed {
            place: name.from,
            word: word(self.bytes, name),
        }
    }

    /// The number of the sort of this name.
    pub fn sort_number(&self, name: Span) -> Option<u32>
        ensures { result ≡ number_of self.now.names.sorts (word_of self.now.bytes name) }
    {
        self.sorts.number(word(self.bytes, name))
    }

    /// The number of the symbol of this name.
    pub fn symbol_number(&self, name: Span) -> Option<u32>
        ensures is { result ≡ number_of self.now.names.symbols (word_of self.now.bytes name) }
        ensures within { IfSome result (λ k. k < length self.now.names.symbols) }
    {
        self.names.number(word(self.bytes, name))
    }

    /// A symbol by its number.
    pub fn symbol(&self, number: u32) -> &Symbol
        requires { number < length self.now.names.symbols }
        ensures { result.now ≡ symbol_at self.now.sig number }
    {
        self.symbols.at(number as usize)
    }

    /// The sorts of the arguments of what a name stands for.
    pub fn places(&self, meaning: Meaning) -> &[u32]
        requires { InRange self.now meaning }
        ensures { result.now ≡ places_of self.now.names self.now.sig meaning }
    {
        match meaning {
            Meaning::Symbol(number) => self.symbol(number).args.as_slice(),
            Meaning::Variable(_, _) | Meaning::Unknown => &[],
        }
    }

    /// What a name stands for: the innermost variable in scope of that name, else the symbol.
    pub fn resolve(&self, scope: &Scope<'_>, word: &[u8]) -> Meaning
        ensures is { result ≡ resolve_of self.now.names scope.now word.now }
        ensures within { InRange self.now result }
    {
        match scope.lookup(word) {
            Some((binder, level)) => Meaning::Variable(binder, level),
            None => match self.names.number(word) {
                Some(number) => Meaning::Symbol(number),
                None => Meaning::Unknown,
            },
        }
    }

    /// What a name of the text stands for.
    pub fn meaning(&self, scope: &Scope<'_>, name: Span) -> Meaning
        ensures is { result ≡ resolve_of self.now.names scope.now (word_of self.now.bytes name) }
        ensures within { InRange self.now result }
    {
        self.resolve(scope, word(self.bytes, name))
    }

    /// The names of the sorts, in order.
    pub fn sorts(&self) -> &[&'a [u8]]
        ensures { map (λ w. w.now) result.now ≡ self.now.names.sorts }
    {
        self.sorts.as_slice()
    }

    /// The names of the symbols, in order.
    pub fn symbols(&self) -> &[&'a [u8]]
        ensures { map (λ w. w.now) result.now ≡ self.now.names.symbols }
    {
        self.names.as_slice()
    }

    /// The names of the transitions, in order. There are no further names.
    pub fn steps(&self) -> &[&'a [u8]]
        ensures names { map (λ w. w.now) result.now ≡ self.now.names.steps }
        ensures no_more { self.now.names.definitions ≡ [] }
    {
        self.steps.as_slice()
    }

    /// The signature that is declared.
    pub fn into_sig(self) -> Sig
        ensures { result ≡ self.entry.sig }
    {
        Sig {
            sorts: self.sorts.len() as u32,
            symbols: self.symbols,
        }
    }
}
