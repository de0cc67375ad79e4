ghost use Rattle.std.specs.Prelude.{◌≡◌, ◌-◌, ◌≤◌, ◌<◌, ◌^◌, ◌⊎◌, ◌↔◌, ℕ, List, IsTrue, IfOk, IfErr, length, drop, slice_index};
ghost use Rattle.pyv_lex.specs.declared.token.Token.{Token};
ghost use Rattle.pyv_grammar.specs.declared.tree.Decl.{Decl};
ghost use Rattle.pyv_grammar.specs.Grammar.{Limits, SpellsFile};
ghost use Rattle.pyv_grammar.specs.Reading.{whole};
ghost use Rattle.pyv_parse.specs.Gives.{Gives};
ghost use Rattle.pyv_parse.specs.Faults.{IsFile, IsUnlessMemory, IsParseFault, IsUnsupported, Place};
ghost use Rattle.pyv_parse.specs.Told.{IsAmong, Tells, TellsBad, last_of};

use crate::decls::decl;
use crate::fault::ParseFault;
use crate::halt::Halt;
use fo_core::Seq;
use pyv_grammar::{Decl, Model, Stuck};
use pyv_lex::{Kind, Token};
use std::alloc::Global;

/// The model that the tokens of a text spell, by recursive descent.
///
/// The text has to have fewer than 2^32 bytes; `pyv_lex::tokens` cuts it into tokens. Expressions may
/// be nested 200 deep, and `<->` and `if` may stand 6 high in each other. Else the fault is at the first
/// token by which no model goes on, where the end of the text counts as a token (the viable-prefix
/// property: Aho and Ullman, The Theory of Parsing, Translation, and Compiling, 1972): `TooDeep` where
/// one goes on by it under larger limits, `Unsupported` where it belongs to a part of the language that
/// is left out, and else `Syntax`. Time and memory are linear in the number of tokens, and the
/// recursion is bounded by the limits, whatever the tokens are.
pub fn parse(alloc: Global, bytes: &[u8], tokens: &[Token]) -> Result<Model, ParseFault>
    requires { length bytes.now < 2 ^ 32 }
    // What is answered spells the tokens within the limits.
    ensures found { IfOk result (λ m. IsFile m.decls tokens.now) }
    // A model that spells the tokens within the limits is answered, unless memory runs out.
    ensures only { (decls : List Decl) → IsFile decls tokens.now → IsUnlessMemory result decls }
    // A fault is at the first token by which no tree goes on.
    ensures fault { IfErr result (IsParseFault bytes.now tokens.now) }
{
    match decls(alloc, tokens) {
        Ok(decls) => Ok(Model { decls }),
        Err(halt) => Err(told(bytes, tokens, halt)),
    }
}

/// A list of tokens has at most one tree, whatever the limits.
pub fn one_tree()
    ensures { (one other : Limits) (a b : List Decl) (tokens : List Token) → SpellsFile one a tokens → SpellsFile other b tokens → a ≡ b }
{}

/// All declarations.
fn decls(alloc: Global, tokens: &[Token]) -> Result<Seq<Decl>, Halt>
    ensures gives { Gives (λ x. x) result (whole 200 6 tokens.now) }
{
    let mut found = Seq::new(alloc);
    let mut rest = tokens;
    'decls: while !rest.is_empty() {
        let (next, after) = decl(alloc, rest)?;
        found.push(next)?;
        rest = after;
    }
    Ok(found)
}

/// The fault where reading ended.
fn told(bytes: &[u8], tokens: &[Token], halt: Halt) -> ParseFault
    requires short { length bytes.now < 2 ^ 32 }
    requires among { IsAmong tokens.now halt }
    ensures tells { Tells bytes.now tokens.now halt result }
{
    match halt {
        Halt::Memory => ParseFault::Memory,
        Halt::Stuck(Stuck::Bad(left)) => no_tree(bytes, last(tokens, left)),
        Halt::Stuck(Stuck::Deep(left)) => ParseFault::TooDeep(place(bytes, last(tokens, left))),
    }
}

/// So many tokens at the end.
fn last(tokens: &[Token], count: usize) -> &[Token]
    requires { count ≤ length tokens.now }
    ensures { result.now ≡ last_of count tokens.now }
{
    &tokens[tokens.len() - count..]
}

/// Where the first token begins, or the text ends.
fn place(bytes: &[u8], tokens: &[Token]) -> u32
    requires { length bytes.now < 2 ^ 32 }
    ensures { Place bytes.now tokens.now result }
{
    match tokens.split_first() {
        Some((token, _)) => token.span.from,
        None => bytes.len() as u32,
    }
}

/// The fault at the first token, by which no tree goes on.
fn no_tree(bytes: &[u8], tokens: &[Token]) -> ParseFault
    requires { length bytes.now < 2 ^ 32 }
    ensures { TellsBad bytes.now tokens.now result }
{
    let Some((token, _)) = tokens.split_first() else {
        return ParseFault::Syntax(bytes.len() as u32);
    };
    if is_unsupported(bytes, *token) {
        return ParseFault::Unsupported(token.span);
    }
    ParseFault::Syntax(token.span.from)
}

/// Whether a token belongs to a part of the language that is left out.
fn is_unsupported(bytes: &[u8], token: Token) -> bool
    ensures { IsTrue result ↔ IsUnsupported bytes.now token }
{
    match token.kind {
        Kind::Theorem
        | Kind::Derived
        | Kind::Definition
        | Kind::Onestate
        | Kind::Twostate
        | Kind::Zerostate
        | Kind::Automaton
        | Kind::Sketch
        | Kind::LetWord
        | Kind::BoolWord
        | Kind::IntWord
        | Kind::Number => true,
        Kind::Other => is_at_sign(bytes, token.span.from as usize),
        _ => false,
    }
}

/// Whether an `@` stands at a place.
fn is_at_sign(bytes: &[u8], at: usize) -> bool
    ensures { IsTrue result ↔ (slice_index bytes.now at ≡ 64) }
{
    match bytes.get(at) {
        Some(byte) => *byte == b'@',
        None => false,
    }
}
