ghost use Rattle.std.specs.Prelude.{◌≡◌, ◌<◌, ◌≤◌, None, IfOk, length};
ghost use Rattle.pyv_grammar.specs.Reading.{name_at, bound_at, listed, some_list, closed_list};
ghost use Rattle.pyv_parse.specs.Gives.{Gives};

use crate::halt::Halt;
use crate::reader::{eat, wants};
use fo_core::Seq;
use pv_base::Span;
use pyv_grammar::Bound;
use pyv_lex::{Kind, Token};
use std::alloc::Global;

/// A name.
#[tactic(auto, unfolding(pyv_grammar::specs::Reading::name_at))]
pub(crate) fn name(tokens: &[Token]) -> Result<(Span, &[Token]), Halt>
    ensures gives { Gives (λ x. (x.0, x.1.now)) result (name_at tokens.now) }
    ensures shorter { IfOk result (λ x. length x.1.now < length tokens.now) }
{
    let (word, rest) = wants(tokens, Kind::Word)?;
    Ok((word.span, rest))
}

/// Names, with commas between them.
pub(crate) fn names(alloc: Global, tokens: &[Token]) -> Result<(Seq<Span>, &[Token]), Halt>
    ensures gives { Gives (λ x. (x.0, x.1.now)) result (listed name_at tokens.now) }
    ensures shorter { IfOk result (λ x. length x.1.now < length tokens.now) }
{
    let mut found = Seq::new(alloc);
    let mut rest = tokens;
    loop {
        let (item, after) = name(rest)?;
        found.push(item)?;
        match eat(after, Kind::Comma) {
            Some((_, next)) => rest = next,
            None => return Ok((found, after)),
        }
    }
}

/// Names behind a bracket, up to the one that closes it.
#[tactic(auto, unfolding(pyv_grammar::specs::Reading::some_list))]
pub(crate) fn some_names(alloc: Global, tokens: &[Token]) -> Result<(Seq<Span>, &[Token]), Halt>
    ensures gives { Gives (λ x. (x.0, x.1.now)) result (some_list name_at tokens.now) }
    ensures shorter { IfOk result (λ x. length x.1.now < length tokens.now) }
{
    let (found, rest) = names(alloc, tokens)?;
    let (_, rest) = wants(rest, Kind::RoundRight)?;
    Ok((found, rest))
}

/// The same, where there may be none.
#[tactic(auto, unfolding(pyv_grammar::specs::Reading::closed_list))]
pub(crate) fn closed_names(alloc: Global, tokens: &[Token]) -> Result<(Seq<Span>, &[Token]), Halt>
    ensures gives { Gives (λ x. (x.0, x.1.now)) result (closed_list name_at tokens.now) }
    ensures shorter { IfOk result (λ x. length x.1.now < length tokens.now) }
{
    if let Some((_, rest)) = eat(tokens, Kind::RoundRight) {
        return Ok((Seq::new(alloc), rest));
    }
    some_names(alloc, tokens)
}

/// A variable where it is bound.
#[tactic(auto, unfolding(pyv_grammar::specs::Reading::bound_at))]
fn bound(tokens: &[Token]) -> Result<(Bound, &[Token]), Halt>
    ensures gives { Gives (λ x. (x.0, x.1.now)) result (bound_at tokens.now) }
    ensures shorter { IfOk result (λ x. length x.1.now < length tokens.now) }
{
    let (word, rest) = wants(tokens, Kind::Word)?;
    let Some((_, after)) = eat(rest, Kind::Colon) else {
        return Ok((unsorted(word), rest));
    };
    let (sort, rest) = name(after)?;
    let bound = Bound {
        name: word.span,
        sort: Some(sort),
    };
    Ok((bound, rest))
}

/// A bound variable of this name, whose sort isn't told.
fn unsorted(word: Token) -> Bound
    ensures { result ≡ record { name = word.span; sort = None } }
{
    Bound {
        name: word.span,
        sort: None,
    }
}

/// Bound variables, with commas between them.
pub(crate) fn bounds(alloc: Global, tokens: &[Token]) -> Result<(Seq<Bound>, &[Token]), Halt>
    ensures gives { Gives (λ x. (x.0, x.1.now)) result (listed bound_at tokens.now) }
    ensures shorter { IfOk result (λ x. length x.1.now < length tokens.now) }
{
    let mut found = Seq::new(alloc);
    let mut rest = tokens;
    loop {
        let (item, after) = bound(rest)?;
        found.push(item)?;
        match eat(after, Kind::Comma) {
            Some((_, next)) => rest = next,
            None => return Ok((found, after)),
        }
    }
}

/// Bound variables behind a bracket, up to the one that closes it. There may be none.
#[tactic(auto, unfolding(pyv_grammar::specs::Reading::some_list, pyv_grammar::specs::Reading::closed_list))]
pub(crate) fn closed_bounds(alloc: Global, tokens: &[Token]) -> Result<(Seq<Bound>, &[Token]), Halt>
    ensures gives { Gives (λ x. (x.0, x.1.now)) result (closed_list bound_at tokens.now) }
    ensures shorter { IfOk result (λ x. length x.1.now < length tokens.now) }
{
    if let Some((_, rest)) = eat(tokens, Kind::RoundRight) {
        return Ok((Seq::new(alloc), rest));
    }
    let (found, rest) = bounds(alloc, tokens)?;
    let (_, rest) = wants(rest, Kind::RoundRight)?;
    Ok((found, rest))
}
