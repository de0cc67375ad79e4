//! The stage that reads a model.

ghost use Rattle.std.specs.Prelude.{◌<◌, ◌^◌, length, IfOk};
ghost use Rattle.updr_told.specs.Stops.{IfRefused};
ghost use Rattle.updr_model.specs.Texts.{HasTokens, HasTree, IsModel, MeansText, RefusesText};

use crate::telling::{lex_telling, parse_telling, sort_telling};
use fo_core::Seq;
use pyv_lex::{Token, tokens};
use pyv_parse::{Model, parse};
use pyv_sorts::{Elaborated, elaborate};
use std::alloc::Global;
use updr_told::Stop;

/// The tokens of a text.
fn tokens_of<L>(alloc: Global, bytes: &[u8]) -> Result<Seq<Token>, Stop<L>>
    requires { length bytes.now < 2 ^ 32 }
    ensures found { IfOk result (HasTokens bytes.now) }
    ensures refused { IfRefused result (RefusesText bytes.now) }
{
    match tokens(alloc, bytes) {
        Ok(tokens) => Ok(tokens),
        Err(fault) => {
            let telling = lex_telling(alloc, &fault)?;
            Err(Stop::Refused(telling.refusal(alloc, bytes)?))
        }
    }
}

/// The tree of a text with these tokens.
fn tree_of<L>(alloc: Global, bytes: &[u8], tokens: &[Token]) -> Result<Model, Stop<L>>
    requires short { length bytes.now < 2 ^ 32 }
    requires tokens { HasTokens bytes.now tokens.now }
    ensures found { IfOk result (HasTree bytes.now) }
    ensures refused { IfRefused result (RefusesText bytes.now) }
{
    match parse(alloc, bytes, tokens) {
        Ok(model) => Ok(model),
        Err(fault) => {
            let telling = parse_telling(alloc, bytes, &fault)?;
            Err(Stop::Refused(telling.refusal(alloc, bytes)?))
        }
    }
}

/// The system that the tree of a text means, with its names.
fn meaning_of<L>(alloc: Global, bytes: &[u8], model: &Model) -> Result<Elaborated, Stop<L>>
    requires short { length bytes.now < 2 ^ 32 }
    requires tree { HasTree bytes.now model.now }
    ensures found { IfOk result (λ e. MeansText bytes.now e.sys e.names) }
    ensures model { IfOk result (λ e. IsModel e.sys e.names) }
    ensures refused { IfRefused result (RefusesText bytes.now) }
{
    match elaborate(alloc, bytes, model) {
        Ok(elaborated) => Ok(elaborated),
        Err(fault) => {
            let telling = sort_telling(alloc, &fault)?;
            Err(Stop::Refused(telling.refusal(alloc, bytes)?))
        }
    }
}

/// The system that a model's text of fewer than 2^32 bytes means, with its names.
///
/// # Errors
///
/// The text is refused by its first fault: of its tokens, else of its tree, else of what the tree
/// means.
pub fn read_model<L>(alloc: Global, bytes: &[u8]) -> Result<Elaborated, Stop<L>>
    requires { length bytes.now < 2 ^ 32 }
    ensures found { IfOk result (λ e. MeansText bytes.now e.sys e.names) }
    ensures model { IfOk result (λ e. IsModel e.sys e.names) }
    ensures refused { IfRefused result (RefusesText bytes.now) }
{
    let tokens = tokens_of(alloc, bytes)?;
    let model = tree_of(alloc, bytes, tokens.as_slice())?;
    meaning_of(alloc, bytes, &model)
}
