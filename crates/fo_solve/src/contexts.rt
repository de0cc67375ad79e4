//! A handful of contexts, so that the next query finds what the last ones built.
ghost use Rattle.std.specs.Prelude.{◌≡◌, ◌<◌, ℕ, length, slice_index_or, IfSome};
ghost use Rattle.fo_solve.specs.Contexts.{Scope};

use crate::context::Context;
use fo_core::Sig;
use std::alloc::{AllocError, Global};

/// How many contexts are kept at most.
const MOST_CONTEXTS: usize = 8;

/// About how many bytes they take at most together. Each worker's finder keeps as much, beside the
/// context that it asks.
const MOST_BYTES: usize = 96 << 20;

/// The contexts that were used last, the latest of them at the end.
#[derive(Drop)]
pub struct Contexts {
    /// There is no list before the first query.
    list: Option<Vec<Context>>,
}

/// Where the context for forms over these symbols in this number of copies stands.
fn place(contexts: &[Context], symbols: &Sig, copies: u32) -> Option<usize>
    ensures within { IfSome result (λ i. i < length contexts.now) }
    ensures scope { IfSome result (λ i. (c : Scope) → slice_index_or contexts.now i c ≡
        record { symbols = symbols.now; copies = copies }) }
{
    'each: for (i, context) in contexts.iter().enumerate() {
        if context.is_for(symbols, copies) {
            return Some(i);
        }
    }
    None
}

/// Takes the context for forms over these symbols in this number of copies out of the list.
fn take(contexts: &mut Vec<Context>, symbols: &Sig, copies: u32) -> Option<Context>
    ensures { IfSome result (λ c. c ≡ record { symbols = symbols.now; copies = copies }) }
{
    let at = place(contexts.as_slice(), symbols, copies)?;
    Some(contexts.remove(at))
}

/// About how many bytes the contexts take.
fn bytes_of(contexts: &[Context]) -> usize {
    let mut bytes: usize = 0;
    'each: for context in contexts {
        bytes = bytes.saturating_add(context.bytes());
    }
    bytes
}

/// Whether one more context that takes this many bytes may be kept beside these.
fn is_room(contexts: &[Context], bytes: usize) -> bool {
    contexts.len() < MOST_CONTEXTS && bytes_of(contexts).saturating_add(bytes) <= MOST_BYTES
}

/// Lets the contexts go that were used first, until one more that takes this many bytes may be
/// kept.
fn make_room(contexts: &mut Vec<Context>, bytes: usize) {
    for _ in 0..MOST_CONTEXTS {
        if contexts.is_empty() || is_room(contexts.as_slice(), bytes) {
            return;
        }
        contexts.remove(0);
    }
}

/// Puts a context at the end, in place of the first ones where there are many or large ones.
fn put(contexts: &mut Vec<Context>, context: Context) -> Result<(), AllocError> {
    make_room(contexts, context.bytes());
    contexts.push(context)?;
    Ok(())
}

impl Contexts {
    /// No contexts. It takes no memory.
    pub fn new() -> Contexts {
        Contexts { list: None }
    }

    /// Takes out the context for forms over these symbols in this number of copies, if there is one.
    pub fn take(&mut self, symbols: &Sig, copies: u32) -> Option<Context>
        ensures { IfSome result (λ c. c ≡ record { symbols = symbols.now; copies = copies }) }
    {
        match &mut self.list {
            Some(contexts) => take(contexts, symbols, copies),
            None => None,
        }
    }

    /// Keeps a context for the next query, if it is worth that. The one error is out of memory; the
    /// context is gone then.
    pub fn keep(&mut self, alloc: Global, context: Context) -> Result<(), AllocError> {
        if !context.is_kept() {
            return Ok(());
        }
        if self.list.is_none() {
            self.list = Some(Vec::new(alloc));
        }
        match &mut self.list {
            Some(contexts) => put(contexts, context),
            None => Ok(()),
        }
    }
}
