ghost use Rattle.std.specs.Prelude.{◌≡◌, ◌<◌, ◌≤◌, ◌+◌, ◌++◌, ◌∷◌, ◌^◌, ℕ, List, Ok, IfOk, IfErr, OnOk, OnErr, IsSome, ◌⊎◌, length};
ghost use Rattle.std.specs.Str.{IsUtf8};
ghost use Rattle.pyv_lex.specs.declared.token.Token.{Token};
ghost use Rattle.pyv_lex.specs.Cutting.{AreTokens, token_of};
ghost use Rattle.pyv_lex.specs.Fault.{IsLexFault, OkUnlessMemory};

use crate::front::{Piece, front_piece};
use crate::token::{LexFault, Token};
use fo_core::Seq;
use pv_base::Span;
use std::alloc::Global;

const MOST_TOKENS: usize = 200_000;

/// Keeps a piece that begins at a place, where it is a token.
fn keep(found: &mut Seq<Token>, at: usize, piece: Piece) -> Result<(), LexFault>
    requires place { at + piece.len < 2 ^ 32 }
    requires few { length found.old ≤ 200000 }
    ensures few { OnOk result (length found.new ≤ 200000) }
    ensures kept { OnOk result (found.new ≡ found.old ++ token_of piece.kind at piece.len) }
    ensures fault { IfErr result (λ f. ((f ≡ LexFault.TooMany at) × (length found.old ≡ 200000) × IsSome piece.kind) ⊎ (f ≡ LexFault.Memory)) }
    ensures unchanged { OnErr result (found.new ≡ found.old) }
{
    let Some(kind) = piece.kind else {
        return Ok(());
    };
    if found.len() >= MOST_TOKENS {
        return Err(LexFault::TooMany(at as u32));
    }
    let span = Span {
        from: at as u32,
        to: (at + piece.len) as u32,
    };
    found.push(Token { kind, span })?;
    Ok(())
}

/// The tokens of a text, in order, with their places.
///
/// The text has to have fewer than 2^32 bytes. A text that isn't UTF-8 is `NotUtf8`, whatever else
/// is wrong with it. Else the first character that no token and no gap begins with is `BadChar`,
/// and the first token behind 200,000 is `TooMany`, whichever comes first. The time is linear.
pub fn tokens(alloc: Global, bytes: &[u8]) -> Result<Seq<Token>, LexFault>
    requires { length bytes.now < 2 ^ 32 }
    // What is answered are the tokens of the text.
    ensures found { IfOk result (λ ts. IsUtf8 bytes.now × AreTokens bytes.now ts × (length ts ≤ 200000)) }
    // A text that has tokens, and not too many, is answered by them, unless memory runs out.
    ensures only { (ts : List Token) → IsUtf8 bytes.now → AreTokens bytes.now ts → length ts ≤ 200000 → OkUnlessMemory result ts }
    // A fault is the first one.
    ensures fault { IfErr result (IsLexFault bytes.now) }
{
    if let Err(error) = std::str::from_utf8(bytes) {
        return Err(LexFault::NotUtf8(error.valid_up_to() as u32));
    }
    cut(alloc, bytes)
}

/// The tokens of a text that is UTF-8.
fn cut(alloc: Global, bytes: &[u8]) -> Result<Seq<Token>, LexFault>
    requires size { length bytes.now < 2 ^ 32 }
    requires utf8 { IsUtf8 bytes.now }
    ensures found { IfOk result (λ ts. AreTokens bytes.now ts × (length ts ≤ 200000)) }
    ensures fault { IfErr result (IsLexFault bytes.now) }
{
    let mut found = Seq::new(alloc);
    let mut at = 0;
    'pieces: while at < bytes.len() {
        let Some(piece) = front_piece(&bytes[at..]) else {
            return Err(LexFault::BadChar(at as u32));
        };
        keep(&mut found, at, piece)?;
        at += piece.len;
    }
    Ok(found)
}
