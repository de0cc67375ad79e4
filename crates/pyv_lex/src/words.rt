ghost use Rattle.std.specs.Prelude.{◌≡◌, ◌≤◌, length, map, zip};
ghost use Rattle.pyv_lex.specs.Spelling.{kind_in, word_kind};

use crate::token::Kind;
use fo_core::RESERVED_WORDS;

/// The kinds of the reserved words, in the order of these.
const KINDS: [Kind; 35] = [
    Kind::Sort,
    Kind::Mutable,
    Kind::Immutable,
    Kind::Relation,
    Kind::Constant,
    Kind::Function,
    Kind::Axiom,
    Kind::Init,
    Kind::Transition,
    Kind::Modifies,
    Kind::Safety,
    Kind::Invariant,
    Kind::Forall,
    Kind::Exists,
    Kind::New,
    Kind::True,
    Kind::False,
    Kind::Distinct,
    Kind::If,
    Kind::Then,
    Kind::Else,
    Kind::Sat,
    Kind::Unsat,
    Kind::Trace,
    Kind::Theorem,
    Kind::Derived,
    Kind::Definition,
    Kind::Onestate,
    Kind::Twostate,
    Kind::Zerostate,
    Kind::Automaton,
    Kind::Sketch,
    Kind::LetWord,
    Kind::BoolWord,
    Kind::IntWord,
];

/// The kind at the place of the first word that is this text.
fn kind_in(words: &[&str], kinds: &[Kind], text: &[u8]) -> Kind
    requires { length words.now ≤ length kinds.now }
    ensures { result ≡ kind_in (zip (map (λ w. w.now) words.now) kinds.now) text.now }
{
    'each: for (place, word) in words.iter().enumerate() {
        if text == word.as_bytes() {
            return kinds[place];
        }
    }
    Kind::Word
}

/// The kind of a word.
pub(crate) fn word_kind(text: &[u8]) -> Kind
    ensures { result ≡ word_kind text.now }
{
    kind_in(&RESERVED_WORDS, &KINDS, text)
}
