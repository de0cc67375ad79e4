ghost use Rattle.std.specs.Prelude.{◌+◌, ◌<◌, ◌≤◌, ◌^◌, IfOk, length, nat_lt};
ghost use Rattle.pyv_grammar.specs.Grammar.{Atom, Unary, Imps, Exprs};
ghost use Rattle.pyv_grammar.specs.Reading.{read, deep, joined, all_separated, ends_open, negation_at, quantified_at, comparison_at, named_at, new_at, distinct_at, bracketed_at, some_list};
ghost use Rattle.pyv_parse.specs.Gives.{Gives, gathered, put_member, no_members, sign_of, operand_of, node_for, quantifier_of, part_at, chosen_at};

use crate::halt::Halt;
use crate::lists::bounds;
use crate::members::{Connective, Members, join, no_members, put, sign};
use crate::nodes::{
    after_step, closed, conditional, equality, equivalence, implication, inequality, negation,
    quantified,
};
use crate::reader::{bad, behind, deeper, eat, lower, skip, wants};
use fo_core::Seq;
use pyv_grammar::{Expr, Found};
use pyv_lex::{Kind, Token};
use std::alloc::Global;

/// An expression.
#[cycle(expressions)]
#[tactic(auto, unfolding(pyv_grammar::specs::Reading::exprs, pyv_grammar::specs::Reading::expr_at))]
pub(crate) fn expr(
    alloc: Global,
    tokens: &[Token],
    room: u32,
    height: u32,
) -> Result<(Found, &[Token]), Halt>
    ensures gives { Gives (λ x. (x.0, x.1.now)) result (read room height Exprs tokens.now) }
    ensures within { IfOk result (λ x. (length x.1.now < length tokens.now) × (x.0.height ≤ height)) }
{
    let (left, rest) = without_iff(alloc, tokens, room, height)?;
    let Some((sign, after)) = behind(&left, rest, Kind::Iff) else {
        return Ok((left, rest));
    };
    let lower = lower(&left, rest, height)?;
    let (right, rest) = without_iff(alloc, after, room, lower)?;
    Ok((equivalence(alloc, sign, left, right)?, rest))
}

/// An expression with no `<->` outside brackets and bodies.
#[cycle(expressions)]
#[tactic(auto, unfolding(pyv_grammar::specs::Reading::imps, pyv_grammar::specs::Reading::imp_at, pyv_grammar::specs::Reading::ors))]
fn without_iff(
    alloc: Global,
    tokens: &[Token],
    room: u32,
    height: u32,
) -> Result<(Found, &[Token]), Halt>
    ensures gives { Gives (λ x. (x.0, x.1.now)) result (read room height Imps tokens.now) }
    ensures within { IfOk result (λ x. (length x.1.now < length tokens.now) × (x.0.height ≤ height)) }
{
    let (premise, rest) = joined(alloc, Connective::Or, tokens, room, height)?;
    let Some((sign, after)) = behind(&premise, rest, Kind::Implies) else {
        return Ok((premise, rest));
    };
    let room = deeper(rest, room)?;
    let (conclusion, rest) = without_iff(alloc, after, room, height)?;
    Ok((implication(alloc, sign, premise, conclusion)?, rest))
}

/// Operands of a connective with its sign between them, and maybe before them. One alone is itself.
#[cycle(expressions)]
#[tactic(auto, unfolding(pyv_grammar::specs::Reading::joined))]
fn joined(
    alloc: Global,
    connective: Connective,
    tokens: &[Token],
    room: u32,
    height: u32,
) -> Result<(Found, &[Token]), Halt>
    ensures gives { Gives (λ x. (x.0, x.1.now)) result (joined (read room height (operand_of connective)) (sign_of connective) (node_for connective) tokens.now) }
    ensures within { IfOk result (λ x. (length x.1.now < length tokens.now) × (x.0.height ≤ height)) }
{
    let front = skip(tokens, sign(connective));
    let (first, rest) = operand(alloc, connective, front, room, height)?;
    let Some((token, after)) = behind(&first, rest, sign(connective)) else {
        return Ok((first, rest));
    };
    let mut members = no_members(alloc);
    put(&mut members, first)?;
    let (members, rest) = operands(alloc, connective, members, after, room, height)?;
    Ok((join(connective, token, members), rest))
}

/// An operand of a connective.
#[cycle(expressions)]
#[tactic(auto, unfolding(pyv_grammar::specs::Reading::ands))]
fn operand(
    alloc: Global,
    connective: Connective,
    tokens: &[Token],
    room: u32,
    height: u32,
) -> Result<(Found, &[Token]), Halt>
    ensures gives { Gives (λ x. (x.0, x.1.now)) result (read room height (operand_of connective) tokens.now) }
    ensures within { IfOk result (λ x. (length x.1.now < length tokens.now) × (x.0.height ≤ height)) }
{
    match connective {
        Connective::And => unary(alloc, tokens, room, height),
        Connective::Or => joined(alloc, Connective::And, tokens, room, height),
    }
}

/// More operands of a connective, behind those before.
#[cycle(expressions)]
fn operands(
    alloc: Global,
    connective: Connective,
    mut members: Members,
    tokens: &[Token],
    room: u32,
    height: u32,
) -> Result<(Members, &[Token]), Halt>
    requires { members.height ≤ height }
    ensures gives { Gives (λ x. (x.0, x.1.now)) result (gathered put_member members (all_separated ends_open (read room height (operand_of connective)) (sign_of connective) tokens.now)) }
    ensures within { IfOk result (λ x. (length x.1.now < length tokens.now) × (x.0.height ≤ height)) }
{
    let mut rest = tokens;
    loop {
        let (found, after) = operand(alloc, connective, rest, room, height)?;
        let next = behind(&found, after, sign(connective));
        put(&mut members, found)?;
        match next {
            Some((_, next)) => rest = next,
            None => return Ok((members, after)),
        }
    }
}

/// An expression with no sign between two operands but `=` and `!=`, outside brackets and bodies.
#[cycle(expressions)]
#[tactic(auto, unfolding(pyv_grammar::specs::Reading::unaries, pyv_grammar::specs::Reading::unary_at))]
fn unary(alloc: Global, tokens: &[Token], room: u32, height: u32) -> Result<(Found, &[Token]), Halt>
    ensures gives { Gives (λ x. (x.0, x.1.now)) result (read room height Unary tokens.now) }
    ensures within { IfOk result (λ x. (length x.1.now < length tokens.now) × (x.0.height ≤ height)) }
{
    if let Some((sign, rest)) = eat(tokens, Kind::Bang) {
        let room = deeper(tokens, room)?;
        return negated(alloc, sign, rest, room, height);
    }
    if let Some((word, rest)) = eat(tokens, Kind::Forall) {
        let room = deeper(tokens, room)?;
        return binding(alloc, true, word, rest, room, height);
    }
    if let Some((word, rest)) = eat(tokens, Kind::Exists) {
        let room = deeper(tokens, room)?;
        return binding(alloc, false, word, rest, room, height);
    }
    if let Some((word, rest)) = eat(tokens, Kind::If) {
        let room = deeper(tokens, room)?;
        let lower = deeper(tokens, height)?;
        return chosen(alloc, word, rest, room, lower);
    }
    comparison(alloc, tokens, room, height)
}

/// What follows a `!`.
#[cycle(expressions)]
fn negated(
    alloc: Global,
    sign: Token,
    tokens: &[Token],
    room: u32,
    height: u32,
) -> Result<(Found, &[Token]), Halt>
    ensures gives { Gives (λ x. (x.0, x.1.now)) result (negation_at (read room height Unary) sign tokens.now) }
    ensures within { IfOk result (λ x. (length x.1.now < length tokens.now) × (x.0.height ≤ height)) }
{
    let (operand, rest) = unary(alloc, tokens, room, height)?;
    Ok((negation(alloc, sign, operand)?, rest))
}

/// What follows the word of a quantifier: its variables and its body.
#[cycle(expressions)]
#[tactic(auto, unfolding(pyv_grammar::specs::Reading::binding_at))]
fn binding(
    alloc: Global,
    universal: bool,
    word: Token,
    tokens: &[Token],
    room: u32,
    height: u32,
) -> Result<(Found, &[Token]), Halt>
    ensures gives { Gives (λ x. (x.0, x.1.now)) result (quantified_at (quantifier_of universal) (read room height Exprs) word tokens.now) }
    ensures within { IfOk result (λ x. (length x.1.now < length tokens.now) × (x.0.height ≤ height)) }
{
    let (variables, rest) = bounds(alloc, tokens)?;
    let (_, rest) = wants(rest, Kind::Dot)?;
    let (body, rest) = expr(alloc, rest, room, height)?;
    Ok((quantified(alloc, universal, word, variables, body)?, rest))
}

/// What follows `if`. Its parts are lower than it is.
#[cycle(expressions)]
fn chosen(
    alloc: Global,
    word: Token,
    tokens: &[Token],
    room: u32,
    lower: u32,
) -> Result<(Found, &[Token]), Halt>
    requires { lower + 1 < 2 ^ 32 }
    ensures gives { Gives (λ x. (x.0, x.1.now)) result (chosen_at (read room lower Exprs) word tokens.now) }
    ensures within { IfOk result (λ x. (length x.1.now < length tokens.now) × (x.0.height ≤ lower + 1)) }
{
    let (condition, rest) = expr(alloc, tokens, room, lower)?;
    let (with, rest) = part(alloc, Kind::Then, rest, room, lower)?;
    let (without, rest) = part(alloc, Kind::Else, rest, room, lower)?;
    let found = conditional(alloc, word, condition, with, without)?;
    Ok((found, rest))
}

/// A part of a conditional, behind its word.
#[cycle(expressions)]
#[tactic(auto, unfolding(crate::specs::Gives::part_at))]
fn part(
    alloc: Global,
    word: Kind,
    tokens: &[Token],
    room: u32,
    height: u32,
) -> Result<(Found, &[Token]), Halt>
    ensures gives { Gives (λ x. (x.0, x.1.now)) result (part_at word (read room height Exprs) tokens.now) }
    ensures within { IfOk result (λ x. (length x.1.now < length tokens.now) × (x.0.height ≤ height)) }
{
    let (_, rest) = wants(tokens, word)?;
    expr(alloc, rest, room, height)
}

/// An expression of names, constants, brackets and equalities alone, outside brackets.
#[cycle(expressions)]
#[tactic(auto, unfolding(pyv_grammar::specs::Reading::comparison_at))]
fn comparison(
    alloc: Global,
    tokens: &[Token],
    room: u32,
    height: u32,
) -> Result<(Found, &[Token]), Halt>
    ensures gives { Gives (λ x. (x.0, x.1.now)) result (comparison_at (nat_lt 0 room) (deep room height Exprs) tokens.now) }
    ensures within { IfOk result (λ x. (length x.1.now < length tokens.now) × (x.0.height ≤ height)) }
{
    let (left, rest) = atom(alloc, tokens, room, height)?;
    if let Some((sign, after)) = eat(rest, Kind::Equal) {
        let (right, rest) = atom(alloc, after, room, height)?;
        return Ok((equality(alloc, sign, left, right)?, rest));
    }
    if let Some((sign, after)) = eat(rest, Kind::Unequal) {
        let (right, rest) = atom(alloc, after, room, height)?;
        return Ok((inequality(alloc, sign, left, right)?, rest));
    }
    Ok((left, rest))
}

/// A name with its arguments, `true`, `false`, `new`, `distinct`, or an expression in brackets.
#[cycle(expressions)]
#[tactic(auto, unfolding(pyv_grammar::specs::Reading::atom_at))]
fn atom(alloc: Global, tokens: &[Token], room: u32, height: u32) -> Result<(Found, &[Token]), Halt>
    ensures gives { Gives (λ x. (x.0, x.1.now)) result (read room height Atom tokens.now) }
    ensures within { IfOk result (λ x. (length x.1.now < length tokens.now) × (x.0.height ≤ height)) }
{
    if let Some((word, rest)) = eat(tokens, Kind::Word) {
        return named(alloc, word, rest, room, height);
    }
    if let Some((word, rest)) = eat(tokens, Kind::True) {
        return Ok((closed(Expr::True(word.span.from), 0), rest));
    }
    if let Some((word, rest)) = eat(tokens, Kind::False) {
        return Ok((closed(Expr::False(word.span.from), 0), rest));
    }
    if let Some((word, rest)) = eat(tokens, Kind::New) {
        let room = deeper(tokens, room)?;
        return changed(alloc, word, rest, room, height);
    }
    if let Some((word, rest)) = eat(tokens, Kind::Distinct) {
        let room = deeper(tokens, room)?;
        return distinct(alloc, word, rest, room, height);
    }
    if let Some((_, rest)) = eat(tokens, Kind::RoundLeft) {
        let room = deeper(tokens, room)?;
        return bracketed(alloc, rest, room, height);
    }
    Err(bad(tokens))
}

/// What follows a name.
#[cycle(expressions)]
#[tactic(auto, unfolding(pyv_grammar::specs::Reading::closed_list))]
fn named(
    alloc: Global,
    word: Token,
    tokens: &[Token],
    room: u32,
    height: u32,
) -> Result<(Found, &[Token]), Halt>
    ensures gives { Gives (λ x. (x.0, x.1.now)) result (named_at (nat_lt 0 room) (deep room height Exprs) word tokens.now) }
    ensures within { IfOk result (λ x. (length x.1.now ≤ length tokens.now) × (x.0.height ≤ height)) }
{
    let Some((_, after)) = eat(tokens, Kind::RoundLeft) else {
        let tree = Expr::Name(word.span, false, Seq::new(alloc));
        return Ok((closed(tree, 0), tokens));
    };
    let room = deeper(tokens, room)?;
    if let Some((_, rest)) = eat(after, Kind::RoundRight) {
        let tree = Expr::Name(word.span, true, Seq::new(alloc));
        return Ok((closed(tree, 0), rest));
    }
    let (members, rest) = arguments(alloc, after, room, height)?;
    let tree = Expr::Name(word.span, true, members.trees);
    Ok((closed(tree, members.height), rest))
}

/// What follows `new`.
#[cycle(expressions)]
fn changed(
    alloc: Global,
    word: Token,
    tokens: &[Token],
    room: u32,
    height: u32,
) -> Result<(Found, &[Token]), Halt>
    ensures gives { Gives (λ x. (x.0, x.1.now)) result (new_at (read room height Exprs) word tokens.now) }
    ensures within { IfOk result (λ x. (length x.1.now < length tokens.now) × (x.0.height ≤ height)) }
{
    let (_, rest) = wants(tokens, Kind::RoundLeft)?;
    let (inner, rest) = bracketed(alloc, rest, room, height)?;
    Ok((after_step(alloc, word, inner)?, rest))
}

/// What follows `distinct`.
#[cycle(expressions)]
#[tactic(auto, unfolding(pyv_grammar::specs::Reading::some_list))]
fn distinct(
    alloc: Global,
    word: Token,
    tokens: &[Token],
    room: u32,
    height: u32,
) -> Result<(Found, &[Token]), Halt>
    ensures gives { Gives (λ x. (x.0, x.1.now)) result (distinct_at (read room height Exprs) word tokens.now) }
    ensures within { IfOk result (λ x. (length x.1.now < length tokens.now) × (x.0.height ≤ height)) }
{
    let (_, rest) = wants(tokens, Kind::RoundLeft)?;
    let (members, rest) = arguments(alloc, rest, room, height)?;
    let tree = Expr::Distinct(word.span.from, members.trees);
    Ok((closed(tree, members.height), rest))
}

/// What follows a bracket, up to the one that closes it.
#[cycle(expressions)]
fn bracketed(
    alloc: Global,
    tokens: &[Token],
    room: u32,
    height: u32,
) -> Result<(Found, &[Token]), Halt>
    ensures gives { Gives (λ x. (x.0, x.1.now)) result (bracketed_at (read room height Exprs) tokens.now) }
    ensures within { IfOk result (λ x. (length x.1.now < length tokens.now) × (x.0.height ≤ height)) }
{
    let (inner, rest) = expr(alloc, tokens, room, height)?;
    let (_, rest) = wants(rest, Kind::RoundRight)?;
    Ok((closed(inner.tree, inner.height), rest))
}

/// Arguments behind a bracket, up to the one that closes it.
#[cycle(expressions)]
#[tactic(auto, unfolding(pyv_grammar::specs::Reading::some_list))]
fn arguments(
    alloc: Global,
    tokens: &[Token],
    room: u32,
    height: u32,
) -> Result<(Members, &[Token]), Halt>
    ensures gives { Gives (λ x. (x.0, x.1.now)) result (gathered put_member no_members (some_list (read room height Exprs) tokens.now)) }
    ensures within { IfOk result (λ x. (length x.1.now < length tokens.now) × (x.0.height ≤ height)) }
{
    let mut members = no_members(alloc);
    let mut rest = tokens;
    loop {
        let (found, after) = expr(alloc, rest, room, height)?;
        put(&mut members, found)?;
        match eat(after, Kind::Comma) {
            Some((_, next)) => rest = next,
            None => {
                let (_, end) = wants(after, Kind::RoundRight)?;
                return Ok((members, end));
            }
        }
    }
}
