ghost use Rattle.std.specs.Prelude.{◌≡◌, ◌↔◌, ◌<◌, ℕ, IsTrue, IfOk, length, slice_index_or, [], map, Contains};
ghost use Rattle.fo_core.specs.Named.{BeginsWord, ContinuesWord, IsWord, reserved_words, IsName, AreDistinct, AreNames, AreApart, NamesFit};

use crate::seq::Seq;
use crate::signature::Sig;
use crate::text::Text;
use std::alloc::{AllocError, Global};

/// The words that the language keeps for itself, which are no names: those that begin or shape a
/// declaration, those of formulas, those of traces, and those of the parts of mypyvy that aren't
/// read. `reserved_words` has the same texts in the same order.
pub const RESERVED_WORDS: [&str; 35] = [
    "sort",
    "mutable",
    "immutable",
    "relation",
    "constant",
    "function",
    "axiom",
    "init",
    "transition",
    "modifies",
    "safety",
    "invariant",
    "forall",
    "exists",
    "new",
    "true",
    "false",
    "distinct",
    "if",
    "then",
    "else",
    "sat",
    "unsat",
    "trace",
    "theorem",
    "derived",
    "definition",
    "onestate",
    "twostate",
    "zerostate",
    "automaton",
    "sketch",
    "let",
    "bool",
    "int",
];

/// The names of sorts, symbols, transitions and definitions, each in the order of their numbers.
#[derive(Debug, Drop)]
pub struct Names {
    pub sorts: Seq<Text>,
    pub symbols: Seq<Text>,
    pub steps: Seq<Text>,
    /// Empty where a model has no definitions.
    pub definitions: Seq<Text>,
}

/// Whether a word may begin with the byte: a letter of ASCII or `_`.
pub fn begins_word(byte: u8) -> bool
    ensures { IsTrue result ↔ BeginsWord byte }
{
    matches!(byte, b'A'..=b'Z' | b'a'..=b'z' | b'_')
}

/// Whether a word may go on with the byte: a letter of ASCII, `_` or a digit.
pub fn continues_word(byte: u8) -> bool
    ensures { IsTrue result ↔ ContinuesWord byte }
{
    begins_word(byte) || matches!(byte, b'0'..=b'9')
}

/// Whether the bytes are a word: a letter or `_`, and then letters, digits and `_`.
pub fn is_word(bytes: &[u8]) -> bool
    ensures { IsTrue result ↔ IsWord bytes.now }
{
    match bytes {
        [] => false,
        [first, rest @ ..] => begins_word(*first) && rest.iter().all(|b| continues_word(*b)),
    }
}

/// Whether the text is one of the words.
fn is_among(words: &[&str], text: &[u8]) -> bool
    ensures { IsTrue result ↔ Contains (map (λ w. w.now) words.now) text.now }
{
    'each: for word in words {
        if word.as_bytes() == text {
            return true;
        }
    }
    false
}

/// Whether the bytes are a reserved word.
pub fn is_reserved(bytes: &[u8]) -> bool
    ensures { IsTrue result ↔ Contains reserved_words bytes.now }
{
    is_among(&RESERVED_WORDS, bytes)
}

/// Whether the bytes are a name: a word that isn't reserved.
pub fn is_name(bytes: &[u8]) -> bool
    ensures { IsTrue result ↔ IsName bytes.now }
{
    is_word(bytes) && !is_reserved(bytes)
}

/// Whether none of the names is this one.
fn is_fresh(names: &[Text], name: &str) -> bool
    ensures { IsTrue result ↔ ((i : ℕ) → i < length names.now → ¬ (slice_index_or names.now i [] ≡ name.now)) }
{
    'each: for other in names {
        if other.as_str() == name {
            return false;
        }
    }
    true
}

/// Whether no two of the names are alike.
fn are_distinct(names: &[Text]) -> bool
    ensures { IsTrue result ↔ AreDistinct names.now }
{
    'each: for j in 0..names.len() {
        if !is_fresh(&names[..j], names[j].as_str()) {
            return false;
        }
    }
    true
}

/// Whether these are so many distinct names.
fn are_names(count: usize, names: &[Text]) -> bool
    ensures { IsTrue result ↔ AreNames count names.now }
{
    names.len() == count
        && names.iter().all(|name| is_name(name.as_str().as_bytes()))
        && are_distinct(names)
}

/// Whether no name of the one list stands in the other.
fn are_apart(names: &[Text], others: &[Text]) -> bool
    ensures { IsTrue result ↔ AreApart names.now others.now }
{
    'each: for name in names {
        if !is_fresh(others, name.as_str()) {
            return false;
        }
    }
    true
}

impl Names {
    /// Whether there is a name for each sort and symbol of the signature and for each of this many
    /// transitions, and the definitions' names are none of the symbols'. Names are words that
    /// aren't reserved, distinct among the sorts, among the symbols, among the transitions and
    /// among the definitions. It takes no memory.
    pub fn fit(&self, sig: &Sig, steps: usize) -> bool
        ensures { IsTrue result ↔ NamesFit sig.now steps self.now }
    {
        are_names(sig.sorts as usize, self.sorts.as_slice())
            && are_names(sig.symbols.len(), self.symbols.as_slice())
            && are_names(steps, self.steps.as_slice())
            && are_names(self.definitions.len(), self.definitions.as_slice())
            && are_apart(self.definitions.as_slice(), self.symbols.as_slice())
    }

    /// A copy.
    pub fn copy(&self, alloc: Global) -> Result<Names, AllocError>
        ensures { IfOk result (λ x. x ≡ self.now) }
    {
        Ok(Names {
            sorts: self.sorts.copy(alloc)?,
            symbols: self.symbols.copy(alloc)?,
            steps: self.steps.copy(alloc)?,
            definitions: self.definitions.copy(alloc)?,
        })
    }
}
