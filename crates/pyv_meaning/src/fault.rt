ghost use Rattle.std.specs.Prelude.{◌≡◌};
ghost use Rattle.pyv_meaning.specs.declared.fault.SortFault.TheVariants.{Memory};

use std::alloc::{AllocError, AllocFailed};
use thiserror::Error;

/// Why a tree means no system. Numbers are the byte places of the tokens at fault.
#[derive(Debug, Drop, Error)]
pub enum SortFault {
    /// A name that nothing in scope has, or a sort that is not declared.
    #[error("unknown name")]
    UnknownName(u32),
    /// A name that was declared before in its space: sorts, symbols or transitions.
    #[error("declared twice")]
    TwiceDeclared(u32),
    /// A symbol with more or fewer arguments than it has places, or a variable with brackets.
    #[error("wrong number of arguments")]
    WrongArity(u32),
    /// A variable that gets two sorts, or a term of another sort than its place.
    #[error("sort clash")]
    SortClash(u32),
    /// A variable that gets no sort.
    #[error("no sort")]
    NoSort(u32),
    /// A formula where a term is asked.
    #[error("not a term")]
    NotATerm(u32),
    /// A term where a formula is asked.
    #[error("not a formula")]
    NotAFormula(u32),
    /// `new` in a body that is no transition's.
    #[error("new outside a step")]
    NewOutsideStep(u32),
    /// `new` inside `new`.
    #[error("new inside new")]
    NewTwice(u32),
    /// A name after `modifies` that is no mutable symbol's.
    #[error("not mutable")]
    NotMutable(u32),
    /// More than 64 sorts, 256 symbols, 256 transitions, 8 arguments, 16 parameters, 64 binders
    /// above one another or 16 terms of a `distinct`: the first one too many.
    #[error("too many")]
    TooMany(u32),
    /// There wasn't enough memory.
    #[error("out of memory")]
    Memory,
}

impl From<AllocError> for SortFault {
    ghost from_gives = { λ _ e. e ≡ Memory };

    fn from(_e: AllocError) -> SortFault {
        SortFault::Memory
    }
}

impl<T: Drop> From<AllocFailed<T>> for SortFault {
    ghost from_gives = { λ _ e. e ≡ Memory };

    fn from(_e: AllocFailed<T>) -> SortFault {
        Self::Memory
    }
}
