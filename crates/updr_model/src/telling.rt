//! What is told of a fault of a model's text.

ghost use Rattle.std.specs.Prelude.{◌≡◌, ◌<◌, ◌^◌, length, IfOk, Some};
ghost use Rattle.updr_told.specs.Ends.{refusal};
ghost use Rattle.updr_model.specs.Faults.{lex_telling, parse_telling, piece_of, sort_telling, tells};
ghost use Rattle.updr_model.specs.Texts.{words_at};

use pv_base::Span;
use pyv_lex::LexFault;
use pyv_parse::ParseFault;
use pyv_sorts::SortFault;
use std::alloc::{AllocError, Global};
use std::marker::Model;
use updr_told::{Status, Told};

/// What is told of a fault.
#[derive(Drop)]
pub struct Telling {
    status: Status,
    /// The byte at fault.
    place: u32,
    words: Vec<u8>,
}

impl Model for Telling {
    ghost use Rattle.updr_model.specs.Faults.{Telling};

    ghost Value = { Telling };

    ghost view = { λ t. record { status = t.status; place = t.place; words = t.words.items } };
}

/// These words, told of this byte.
fn tells(alloc: Global, status: Status, place: u32, words: &[u8]) -> Result<Telling, AllocError>
    ensures { IfOk result (λ t. Some t ≡ tells status place words.now) }
{
    let words = words.to_vec(alloc)?;
    Ok(Telling {
        status,
        place,
        words,
    })
}

/// What is told of a fault of tokens.
pub fn lex_telling(alloc: Global, fault: &LexFault) -> Result<Telling, AllocError>
    ensures { IfOk result (λ t. lex_telling fault.now ≡ Some t) }
{
    match fault {
        LexFault::NotUtf8(place) => tells(alloc, Status::NotRead, *place, b"not UTF-8"),
        LexFault::BadChar(place) => tells(alloc, Status::NotRead, *place, b"bad character"),
        LexFault::TooMany(place) => tells(alloc, Status::NotRead, *place, b"too many"),
        LexFault::Memory => Err(AllocError),
    }
}

/// The bytes of a text from and to these places.
fn piece_of(bytes: &[u8], span: Span) -> &[u8]
    ensures { result.now ≡ piece_of bytes.now span }
{
    let to = bytes.len().min(span.to as usize);
    let from = to.min(span.from as usize);
    &bytes[from..to]
}

/// What is told of a fault of the tree of this text.
pub fn parse_telling(alloc: Global, bytes: &[u8], fault: &ParseFault) -> Result<Telling, AllocError>
    ensures { IfOk result (λ t. parse_telling bytes.now fault.now ≡ Some t) }
{
    match fault {
        ParseFault::Syntax(place) => tells(alloc, Status::NotRead, *place, b"syntax"),
        ParseFault::TooDeep(place) => tells(alloc, Status::NotRead, *place, b"too deep"),
        ParseFault::Unsupported(span) => {
            let mut words = b"unsupported ".to_vec(alloc)?;
            words.extend_from_slice(piece_of(bytes, *span))?;
            tells(alloc, Status::Unsupported, span.from, &words)
        }
        ParseFault::Memory => Err(AllocError),
    }
}

/// What is told of a fault of what a tree means.
pub fn sort_telling(alloc: Global, fault: &SortFault) -> Result<Telling, AllocError>
    ensures { IfOk result (λ t. sort_telling fault.now ≡ Some t) }
{
    let status = Status::Sorts;
    match fault {
        SortFault::UnknownName(place) => tells(alloc, status, *place, b"unknown name"),
        SortFault::TwiceDeclared(place) => tells(alloc, status, *place, b"declared twice"),
        SortFault::WrongArity(place) => {
            tells(alloc, status, *place, b"wrong number of arguments")
        }
        SortFault::SortClash(place) => tells(alloc, status, *place, b"sort clash"),
        SortFault::NoSort(place) => tells(alloc, status, *place, b"no sort"),
        SortFault::NotATerm(place) => tells(alloc, status, *place, b"not a term"),
        SortFault::NotAFormula(place) => tells(alloc, status, *place, b"not a formula"),
        SortFault::NewOutsideStep(place) => tells(alloc, status, *place, b"new outside a step"),
        SortFault::NewTwice(place) => tells(alloc, status, *place, b"new inside new"),
        SortFault::NotMutable(place) => tells(alloc, status, *place, b"not mutable"),
        SortFault::TooMany(place) => tells(alloc, status, *place, b"too many"),
        SortFault::Memory => Err(AllocError),
    }
}

impl Telling {
    /// The end that tells it of this text.
    pub fn refusal<L>(self, alloc: Global, bytes: &[u8]) -> Result<Told<L>, AllocError>
        requires { length bytes.now < 2 ^ 32 }
        ensures { IfOk result (λ end. end ≡ refusal self.status (words_at bytes.now self)) }
    {
        Told::refusal_at(alloc, self.status, bytes, self.place, &self.words)
    }
}
