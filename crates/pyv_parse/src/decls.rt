ghost use Rattle.std.specs.Prelude.{◌≡◌, ◌+◌, ◌<◌, ◌≤◌, ◌^◌, ◌∷◌, List, Ok, IfOk, IfSome, MatchOption, length};
ghost use Rattle.pyv_lex.specs.declared.token.Token.{Token};
ghost use Rattle.pyv_grammar.specs.declared.tree.Decl.TheVariants as decl;
ghost use Rattle.pyv_grammar.specs.Reading.{and_then, give, name_at, decl_at, symbol_at, relation_at, constant_at, function_at, transition_at, modifies_at, claim_at, labelled_at, label_at, trace_at, braces};
ghost use Rattle.pyv_parse.specs.Gives.{Gives, body_at};

use crate::exprs::expr;
use crate::halt::Halt;
use crate::lists::{closed_bounds, closed_names, name, names, some_names};
use crate::reader::{bad, eat, wants};
use fo_core::Seq;
use pv_base::Span;
use pyv_grammar::{Decl, Expr, Found};
use pyv_lex::{Kind, Token};
use std::alloc::Global;

/// How deep expressions may be nested.
const MOST_NESTING: u32 = 200;

/// How high `<->` and `if` may stand in each other.
const MOST_HEIGHT: u32 = 6;

/// A declaration.
#[tactic(auto, unfolding(pyv_grammar::specs::Reading::decl_at))]
pub(crate) fn decl(alloc: Global, tokens: &[Token]) -> Result<(Decl, &[Token]), Halt>
    ensures gives { Gives (λ x. (x.0, x.1.now)) result (decl_at body_at tokens.now) }
    ensures shorter { IfOk result (λ x. length x.1.now < length tokens.now) }
{
    if let Some((_, rest)) = eat(tokens, Kind::Sort) {
        return sort(rest);
    }
    if let Some((_, rest)) = eat(tokens, Kind::Mutable) {
        return symbol(alloc, true, rest);
    }
    if let Some((_, rest)) = eat(tokens, Kind::Immutable) {
        return symbol(alloc, false, rest);
    }
    if let Some((_, rest)) = eat(tokens, Kind::Transition) {
        return transition(alloc, rest);
    }
    if let Some((_, rest)) = eat(tokens, Kind::Sat) {
        return trace(rest);
    }
    if let Some((_, rest)) = eat(tokens, Kind::Unsat) {
        return trace(rest);
    }
    claim(alloc, tokens)
}

/// What follows `sort`.
fn sort(tokens: &[Token]) -> Result<(Decl, &[Token]), Halt>
    ensures gives { Gives (λ x. (x.0, x.1.now)) result (and_then name_at (λ w. give (decl.Sort w)) tokens.now) }
    ensures shorter { IfOk result (λ x. length x.1.now < length tokens.now) }
{
    let (sort, rest) = name(tokens)?;
    Ok((Decl::Sort(sort), rest))
}

/// What follows `mutable` or `immutable`.
#[tactic(auto, unfolding(pyv_grammar::specs::Reading::symbol_at))]
fn symbol(alloc: Global, mutable: bool, tokens: &[Token]) -> Result<(Decl, &[Token]), Halt>
    ensures gives { Gives (λ x. (x.0, x.1.now)) result (symbol_at mutable tokens.now) }
    ensures shorter { IfOk result (λ x. length x.1.now < length tokens.now) }
{
    if let Some((_, rest)) = eat(tokens, Kind::Relation) {
        return relation(alloc, mutable, rest);
    }
    if let Some((_, rest)) = eat(tokens, Kind::Constant) {
        return constant(mutable, rest);
    }
    let (_, rest) = wants(tokens, Kind::Function)?;
    function(alloc, mutable, rest)
}

/// What follows `relation`.
#[tactic(auto, unfolding(pyv_grammar::specs::Reading::relation_at))]
fn relation(alloc: Global, mutable: bool, tokens: &[Token]) -> Result<(Decl, &[Token]), Halt>
    ensures gives { Gives (λ x. (x.0, x.1.now)) result (relation_at mutable tokens.now) }
    ensures shorter { IfOk result (λ x. length x.1.now < length tokens.now) }
{
    let (symbol, rest) = name(tokens)?;
    let Some((_, after)) = eat(rest, Kind::RoundLeft) else {
        return Ok((Decl::Relation(mutable, symbol, Seq::new(alloc)), rest));
    };
    let (args, rest) = closed_names(alloc, after)?;
    Ok((Decl::Relation(mutable, symbol, args), rest))
}

/// What follows `constant`.
#[tactic(auto, unfolding(pyv_grammar::specs::Reading::constant_at))]
fn constant(mutable: bool, tokens: &[Token]) -> Result<(Decl, &[Token]), Halt>
    ensures gives { Gives (λ x. (x.0, x.1.now)) result (constant_at mutable tokens.now) }
    ensures shorter { IfOk result (λ x. length x.1.now < length tokens.now) }
{
    let (symbol, rest) = name(tokens)?;
    let (_, rest) = wants(rest, Kind::Colon)?;
    let (sort, rest) = name(rest)?;
    Ok((Decl::Constant(mutable, symbol, sort), rest))
}

/// What follows `function`.
#[tactic(auto, unfolding(pyv_grammar::specs::Reading::function_at))]
fn function(alloc: Global, mutable: bool, tokens: &[Token]) -> Result<(Decl, &[Token]), Halt>
    ensures gives { Gives (λ x. (x.0, x.1.now)) result (function_at mutable tokens.now) }
    ensures shorter { IfOk result (λ x. length x.1.now < length tokens.now) }
{
    let (symbol, rest) = name(tokens)?;
    let (_, rest) = wants(rest, Kind::RoundLeft)?;
    let (args, rest) = some_names(alloc, rest)?;
    let (_, rest) = wants(rest, Kind::Colon)?;
    let (sort, rest) = name(rest)?;
    Ok((Decl::Function(mutable, symbol, args, sort), rest))
}

/// What follows `transition`.
#[tactic(auto, unfolding(pyv_grammar::specs::Reading::transition_at))]
fn transition(alloc: Global, tokens: &[Token]) -> Result<(Decl, &[Token]), Halt>
    ensures gives { Gives (λ x. (x.0, x.1.now)) result (transition_at body_at tokens.now) }
    ensures shorter { IfOk result (λ x. length x.1.now < length tokens.now) }
{
    let (symbol, rest) = name(tokens)?;
    let (_, rest) = wants(rest, Kind::RoundLeft)?;
    let (parameters, rest) = closed_bounds(alloc, rest)?;
    let (modified, rest) = modifies(alloc, rest)?;
    let (found, rest) = body(alloc, rest)?;
    Ok((
        Decl::Transition(symbol, parameters, modified, found.tree),
        rest,
    ))
}

/// The symbols that a transition may modify.
#[tactic(auto, unfolding(pyv_grammar::specs::Reading::modifies_at))]
fn modifies(alloc: Global, tokens: &[Token]) -> Result<(Seq<Span>, &[Token]), Halt>
    ensures gives { Gives (λ x. (x.0, x.1.now)) result (modifies_at tokens.now) }
    ensures shorter { IfOk result (λ x. length x.1.now ≤ length tokens.now) }
{
    match eat(tokens, Kind::Modifies) {
        Some((_, rest)) => names(alloc, rest),
        None => Ok((Seq::new(alloc), tokens)),
    }
}

/// An expression within the limits.
#[tactic(auto, unfolding(crate::specs::Gives::body_at))]
fn body(alloc: Global, tokens: &[Token]) -> Result<(Found, &[Token]), Halt>
    ensures gives { Gives (λ x. (x.0, x.1.now)) result (body_at tokens.now) }
    ensures shorter { IfOk result (λ x. length x.1.now < length tokens.now) }
{
    expr(alloc, tokens, MOST_NESTING, MOST_HEIGHT)
}

/// A declaration of an expression.
#[tactic(auto, unfolding(pyv_grammar::specs::Reading::claim_at))]
fn claim(alloc: Global, tokens: &[Token]) -> Result<(Decl, &[Token]), Halt>
    ensures gives { Gives (λ x. (x.0, x.1.now)) result (claim_at body_at tokens.now) }
    ensures shorter { IfOk result (λ x. length x.1.now < length tokens.now) }
{
    if let Some((_, rest)) = eat(tokens, Kind::Axiom) {
        let (tree, rest) = labelled(alloc, rest)?;
        return Ok((Decl::Axiom(tree), rest));
    }
    if let Some((_, rest)) = eat(tokens, Kind::Init) {
        let (tree, rest) = labelled(alloc, rest)?;
        return Ok((Decl::Init(tree), rest));
    }
    if let Some((_, rest)) = eat(tokens, Kind::Safety) {
        let (tree, rest) = labelled(alloc, rest)?;
        return Ok((Decl::Safety(tree), rest));
    }
    let (_, rest) = wants(tokens, Kind::Invariant)?;
    let (tree, rest) = labelled(alloc, rest)?;
    Ok((Decl::Invariant(tree), rest))
}

/// An expression, and maybe a label before it.
#[tactic(auto, unfolding(pyv_grammar::specs::Reading::labelled_at))]
fn labelled(alloc: Global, tokens: &[Token]) -> Result<(Expr, &[Token]), Halt>
    ensures gives { Gives (λ x. (x.0, x.1.now)) result (labelled_at body_at tokens.now) }
    ensures shorter { IfOk result (λ x. length x.1.now < length tokens.now) }
{
    let (found, rest) = body(alloc, label(tokens)?)?;
    Ok((found.tree, rest))
}

/// The tokens behind a label, where one stands at their front.
#[tactic(auto, unfolding(pyv_grammar::specs::Reading::label_at))]
fn label(tokens: &[Token]) -> Result<&[Token], Halt>
    ensures gives { Gives (λ x. (tt, x.now)) result (label_at tokens.now) }
    ensures shorter { IfOk result (λ x. length x.now ≤ length tokens.now) }
{
    let Some((_, rest)) = eat(tokens, Kind::SquareLeft) else {
        return Ok(tokens);
    };
    let (_, rest) = wants(rest, Kind::Word)?;
    let (_, rest) = wants(rest, Kind::SquareRight)?;
    Ok(rest)
}

/// What follows `sat` or `unsat`.
#[tactic(auto, unfolding(pyv_grammar::specs::Reading::trace_at))]
fn trace(tokens: &[Token]) -> Result<(Decl, &[Token]), Halt>
    ensures gives { Gives (λ x. (x.0, x.1.now)) result (trace_at tokens.now) }
    ensures shorter { IfOk result (λ x. length x.1.now < length tokens.now) }
{
    let (_, rest) = wants(tokens, Kind::Trace)?;
    let (_, rest) = wants(rest, Kind::CurlyLeft)?;
    let rest = behind_brace(rest)?;
    Ok((Decl::Trace, rest))
}

/// The tokens behind the curly bracket that closes one before them.
fn behind_brace(tokens: &[Token]) -> Result<&[Token], Halt>
    ensures gives { Gives (λ x. (tt, x.now)) result (braces 0 tokens.now) }
    ensures shorter { IfOk result (λ x. length x.now < length tokens.now) }
{
    let mut open = 0;
    let mut rest = tokens;
    'tokens: while let Some((_, after)) = rest.split_first() {
        let Some(next) = open_behind(rest, open) else {
            return Ok(after);
        };
        open = next;
        rest = after;
    }
    Err(bad(rest))
}

/// How many curly brackets are open besides the first behind the first token, where so many are open
/// before it. There is none where it closes the first.
fn open_behind(tokens: &[Token], depth: usize) -> Option<usize>
    requires { depth + 1 < 2 ^ 64 }
    ensures is { (t : Token) (rest : List Token) → tokens.now ≡ t ∷ rest → MatchOption result (braces depth tokens.now ≡ Ok (tt, rest)) (λ n. braces depth tokens.now ≡ braces n rest) }
    ensures within { IfSome result (λ n. n ≤ depth + 1) }
{
    if let Some((_, _)) = eat(tokens, Kind::CurlyLeft) {
        return Some(depth + 1);
    }
    let Some((_, _)) = eat(tokens, Kind::CurlyRight) else {
        return Some(depth);
    };
    depth.checked_sub(1)
}
