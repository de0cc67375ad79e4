ghost use Rattle.std.specs.Prelude.{◌≡◌, ◌<◌, ◌≤◌, ◌↔◌, ◌++◌, ◌∷◌, [], ℕ, List, IsTrue, IfSome, MatchOption, length, take, drop, slice_index};
ghost use Rattle.fo_core.specs.Named.{ContinuesWord};
ghost use Rattle.pyv_lex.specs.Spelling.{IsDigit, Sign};
ghost use Rattle.pyv_lex.specs.declared.token.Kind.{Kind};
ghost use Rattle.pyv_lex.specs.Cutting.{IsBlank, IsPiece, BeginsBad};

use crate::token::Kind;
use crate::words::word_kind;
use fo_core::{begins_word, continues_word};

/// What stands at the front of a text: a token of a kind, or a gap between tokens, and how many
/// bytes it takes.
#[derive(Clone, Copy)]
pub(crate) struct Piece {
    pub kind: Option<Kind>,
    pub len: usize,
}

fn is_blank(byte: u8) -> bool
    ensures { IsTrue result ↔ IsBlank byte }
{
    byte == b' ' || byte == b'\t' || byte == b'\r' || byte == b'\n'
}

fn is_digit(byte: u8) -> bool
    ensures { IsTrue result ↔ IsDigit byte }
{
    byte >= b'0' && byte <= b'9'
}

/// How many bytes at the front may go on with a word.
fn word_len(bytes: &[u8]) -> usize
    ensures within { result ≤ length bytes.now }
    ensures all { (k : ℕ) → k < result → ContinuesWord (slice_index bytes.now k) }
    ensures ends { result < length bytes.now → ¬ ContinuesWord (slice_index bytes.now result) }
{
    for (n, byte) in bytes.iter().enumerate() {
        if !continues_word(*byte) {
            return n;
        }
    }
    bytes.len()
}

/// How many digits stand at the front.
fn number_len(bytes: &[u8]) -> usize
    ensures within { result ≤ length bytes.now }
    ensures all { (k : ℕ) → k < result → IsDigit (slice_index bytes.now k) }
    ensures ends { result < length bytes.now → ¬ IsDigit (slice_index bytes.now result) }
{
    for (n, byte) in bytes.iter().enumerate() {
        if !is_digit(*byte) {
            return n;
        }
    }
    bytes.len()
}

/// How many bytes stand before the end of the line.
fn line_len(bytes: &[u8]) -> usize
    ensures within { result ≤ length bytes.now }
    ensures all { (k : ℕ) → k < result → ¬ (slice_index bytes.now k ≡ 10) }
    ensures ends { result < length bytes.now → slice_index bytes.now result ≡ 10 }
{
    for (n, byte) in bytes.iter().enumerate() {
        if *byte == b'\n' {
            return n;
        }
    }
    bytes.len()
}

/// The sign that is this byte alone.
fn single_sign(byte: u8) -> Option<Kind>
    ensures { MatchOption result ((k : Kind) → ¬ Sign k (byte ∷ [])) (λ k. Sign k (byte ∷ [])) }
{
    match byte {
        b'=' => Some(Kind::Equal),
        b'!' => Some(Kind::Bang),
        b'&' => Some(Kind::Amp),
        b'|' => Some(Kind::Bar),
        b'(' => Some(Kind::RoundLeft),
        b')' => Some(Kind::RoundRight),
        b'[' => Some(Kind::SquareLeft),
        b']' => Some(Kind::SquareRight),
        b'{' => Some(Kind::CurlyLeft),
        b'}' => Some(Kind::CurlyRight),
        b',' => Some(Kind::Comma),
        b'.' => Some(Kind::Dot),
        b':' => Some(Kind::Colon),
        _ => None,
    }
}

/// The byte at a place, and 0 behind the end.
fn byte_at(bytes: &[u8], at: usize) -> u8
    ensures { result ≡ slice_index bytes.now at }
{
    match bytes.get(at) {
        Some(byte) => *byte,
        None => 0,
    }
}

/// The longest sign at the front, and how many bytes it has.
fn sign(bytes: &[u8]) -> Option<(Kind, usize)>
    ensures is { IfSome result (λ x. (x.1 ≤ length bytes.now) × Sign x.0 (take x.1 bytes.now)) }
    ensures longest { (k : Kind) (text after : List ℕ) → Sign k text → bytes.now ≡ text ++ after → MatchOption result ⊥ (λ x. length text ≤ x.1) }
{
    let first = byte_at(bytes, 0);
    let second = byte_at(bytes, 1);
    if first == b'<' && second == b'-' && byte_at(bytes, 2) == b'>' {
        return Some((Kind::Iff, 3));
    }
    if first == b'-' && second == b'>' {
        return Some((Kind::Implies, 2));
    }
    if first == b'!' && second == b'=' {
        return Some((Kind::Unequal, 2));
    }
    Some((single_sign(first)?, 1))
}

/// The piece at the front of a text, unless the text begins with a character that may stand in
/// comments alone.
pub(crate) fn front_piece(text: &[u8]) -> Option<Piece>
    requires { 0 < length text.now }
    ensures { MatchOption result (BeginsBad text.now) (λ p. (p.len ≤ length text.now) × IsPiece p.kind (take p.len text.now) (drop p.len text.now)) }
{
    let (first, after) = text.split_first()?;
    if is_blank(*first) {
        return Some(Piece { kind: None, len: 1 });
    }
    if *first == b'#' {
        let len = 1 + line_len(after);
        return Some(Piece { kind: None, len });
    }
    if begins_word(*first) {
        let len = 1 + word_len(after);
        let kind = Some(word_kind(&text[..len]));
        return Some(Piece { kind, len });
    }
    if is_digit(*first) {
        let len = 1 + number_len(after);
        let kind = Some(Kind::Number);
        return Some(Piece { kind, len });
    }
    if let Some((kind, len)) = sign(text) {
        let kind = Some(kind);
        return Some(Piece { kind, len });
    }
    if *first <= b' ' || *first > b'~' {
        return None;
    }
    let kind = Some(Kind::Other);
    Some(Piece { kind, len: 1 })
}
