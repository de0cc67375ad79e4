ghost use Rattle.std.specs.Prelude.{◌≡◌};
ghost use Rattle.pyv_lex.specs.declared.token.LexFault.TheVariants.{Memory};

use pv_base::Span;
use std::alloc::AllocError;
use thiserror::Error;

/// What a token is: a reserved word, a sign, or one of the three kinds at the end.
#[derive(Clone, Copy, Debug, PartialEq, Eq)]
pub enum Kind {
    Sort,
    Mutable,
    Immutable,
    Relation,
    Constant,
    Function,
    Axiom,
    Init,
    Transition,
    Modifies,
    Safety,
    Invariant,
    Forall,
    Exists,
    New,
    True,
    False,
    Distinct,
    If,
    Then,
    Else,
    Sat,
    Unsat,
    Trace,
    Theorem,
    Derived,
    Definition,
    Onestate,
    Twostate,
    Zerostate,
    Automaton,
    Sketch,
    LetWord,
    BoolWord,
    IntWord,
    Iff,
    Implies,
    Unequal,
    Equal,
    Bang,
    Amp,
    Bar,
    RoundLeft,
    RoundRight,
    SquareLeft,
    SquareRight,
    CurlyLeft,
    CurlyRight,
    Comma,
    Dot,
    Colon,
    /// A word that isn't reserved.
    Word,
    /// A run of digits.
    Number,
    /// Another printable ASCII character.
    Other,
}

/// A token, and the bytes that it takes.
#[derive(Clone, Copy, Debug, PartialEq, Eq)]
pub struct Token {
    pub kind: Kind,
    pub span: Span,
}

/// Why a text has no tokens. Places are of bytes, from 0.
#[derive(Debug, Drop, Error)]
pub enum LexFault {
    /// The text isn't UTF-8: the first byte of the first bad sequence.
    #[error("the text is not UTF-8")]
    NotUtf8(u32),
    /// A control character or a character past ASCII outside a comment: its first byte.
    #[error("a character outside a comment may not stand there")]
    BadChar(u32),
    /// More than 200,000 tokens: the first byte of the first token too many.
    #[error("more than 200000 tokens")]
    TooMany(u32),
    /// There wasn't enough memory.
    #[error("out of memory")]
    Memory,
}

impl From<AllocError> for LexFault {
    ghost from_gives = { λ _ e. e ≡ Memory };

    fn from(_e: AllocError) -> LexFault {
        LexFault::Memory
    }
}
