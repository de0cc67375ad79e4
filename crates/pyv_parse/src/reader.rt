ghost use Rattle.std.specs.Prelude.{◌≡◌, ◌+◌, ◌<◌, ◌≤◌, Some, None, MatchOption, IfOk, IfErr, IfSome, length};
ghost use Rattle.pyv_grammar.specs.Reading.{eat as eat_of, skip as skip_of, wants as wants_of};
ghost use Rattle.pyv_parse.specs.Gives.{Gives, eat_behind};

use crate::halt::Halt;
use pyv_grammar::{Found, Stuck};
use pyv_lex::{Kind, Token};

/// The token at the front, where it is of this kind, and what follows it.
#[tactic(auto, unfolding(pyv_grammar::specs::Reading::eat))]
pub(crate) fn eat(tokens: &[Token], kind: Kind) -> Option<(Token, &[Token])>
    ensures is { MatchOption result (eat_of kind tokens.now ≡ None) (λ x. eat_of kind tokens.now ≡ Some (x.0, x.1.now)) }
    ensures shorter { IfSome result (λ x. length x.1.now < length tokens.now) }
{
    let (token, rest) = tokens.split_first()?;
    if token.kind == kind {
        Some((*token, rest))
    } else {
        None
    }
}

/// The tokens without one of this kind at the front.
#[tactic(auto, unfolding(pyv_grammar::specs::Reading::skip))]
pub(crate) fn skip(tokens: &[Token], kind: Kind) -> &[Token]
    ensures is { result.now ≡ skip_of kind tokens.now }
    ensures shorter { length result.now ≤ length tokens.now }
{
    match eat(tokens, kind) {
        Some((_, rest)) => rest,
        None => tokens,
    }
}

/// No tree goes on by the first of these tokens.
pub(crate) fn bad(tokens: &[Token]) -> Halt
    ensures { result ≡ Halt.Stuck (Stuck.Bad (length tokens.now)) }
{
    Halt::Stuck(Stuck::Bad(tokens.len()))
}

/// A tree goes on by the first of these tokens only under larger limits.
pub(crate) fn too_deep(tokens: &[Token]) -> Halt
    ensures { result ≡ Halt.Stuck (Stuck.Deep (length tokens.now)) }
{
    Halt::Stuck(Stuck::Deep(tokens.len()))
}

/// A token of this kind.
pub(crate) fn wants(tokens: &[Token], kind: Kind) -> Result<(Token, &[Token]), Halt>
    ensures gives { Gives (λ x. (x.0, x.1.now)) result (wants_of kind tokens.now) }
    ensures shorter { IfOk result (λ x. length x.1.now < length tokens.now) }
{
    eat(tokens, kind).ok_or(bad(tokens))
}

/// The room behind a token that nests what follows it, the first of these.
pub(crate) fn deeper(tokens: &[Token], room: u32) -> Result<u32, Halt>
    ensures ok { IfOk result (λ r. room ≡ r + 1) }
    ensures err { IfErr result (λ e. (room ≡ 0) × (e ≡ Halt.Stuck (Stuck.Deep (length tokens.now)))) }
{
    if room == 0 {
        return Err(too_deep(tokens));
    }
    Ok(room - 1)
}

/// The token behind an operand, where it is of this kind and the operand doesn't end open.
pub(crate) fn behind<'a>(
    operand: &Found,
    tokens: &'a [Token],
    kind: Kind,
) -> Option<(Token, &'a [Token])>
    ensures is { MatchOption result (eat_behind operand.now.ends_open kind tokens.now ≡ None) (λ x. eat_behind operand.now.ends_open kind tokens.now ≡ Some (x.0, x.1.now)) }
    ensures shorter { IfSome result (λ x. length x.1.now < length tokens.now) }
{
    if operand.ends_open {
        return None;
    }
    eat(tokens, kind)
}

/// The height of both sides of a `<->`, the first of these tokens, whose left side was read.
pub(crate) fn lower(left: &Found, tokens: &[Token], height: u32) -> Result<u32, Halt>
    ensures ok { IfOk result (λ h. (left.now.height ≤ h) × (height ≡ h + 1)) }
    ensures err { IfErr result (λ e. (height ≤ left.now.height) × (e ≡ Halt.Stuck (Stuck.Deep (length tokens.now)))) }
{
    if left.height >= height {
        return Err(too_deep(tokens));
    }
    Ok(height - 1)
}
