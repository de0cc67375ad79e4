ghost use Rattle.std.specs.Prelude.{◌≡◌, ◌≤◌, map, IfOk};
ghost use Rattle.fo_core.specs.declared.query.TheConstants.{MOST_WEIGHT};
ghost use Rattle.fo_core.specs.Finds.{CanSearch, IsAnswer};
ghost use Rattle.fo_core.specs.QueryWeight.{cut};
ghost use Rattle.fo_core.specs.SortGraph.{FunctionEdge, Rises};
ghost use Rattle.fo_core.specs.Sorted.{IsSig};
ghost use Rattle.fo_norm.specs.Forms.{whole, IsForm};
ghost use Rattle.fo_terms.specs.FormWeight.{form_weight};
ghost use Rattle.fo_solve.specs.Solving.{form_counts, IsFound};

use crate::context::Context;
use crate::contexts::Contexts;
use fo_core::{Found, Order, Query, Seq, Sig, System, World};
use fo_ground::with_skolems;
use fo_norm::{SkolemForm, normal};
use fo_terms::{counts, weight};
use std::alloc::{AllocError, Global};

/// A world that meets the form, if there is one. `counts` are the numbers of ground terms of the
/// sorts, with which the form has to be light enough to be grounded. What the answer rests on doesn't
/// depend on the contexts, which only save work.
fn search(
    alloc: Global,
    contexts: &mut Contexts,
    sig: &Sig,
    form: &SkolemForm,
    order: &Order,
    counts: Seq<u64>,
) -> Result<Option<World>, AllocError>
    requires sig { IsSig sig.now }
    requires form { IsForm sig.now form.now }
    requires rises { Rises (FunctionEdge (whole sig.now form.now)) sig.now.sorts order.now.numbers }
    requires counts { counts ≡ map cut (form_counts sig.now form.now) }
    requires light { form_weight sig.now form.now (form_counts sig.now form.now) ≤ MOST_WEIGHT }
    ensures { IfOk result (IsFound sig.now form.now) }
{
    let symbols = with_skolems(alloc, sig, form)?;
    let context = match contexts.take(&symbols, form.copies) {
        Some(context) => context,
        None => Context::new(alloc, sig, form, order, counts)?,
    };
    let (world, context) = context.answer(alloc, sig, form)?;
    contexts.keep(alloc, context)?;
    Ok(world)
}

/// The answer to a query by a finder with this limit, which keeps these contexts. After an error,
/// which is out of memory, the query's own context is gone.
pub fn answer_within(
    alloc: Global,
    contexts: &mut Contexts,
    sys: &System,
    order: &Order,
    q: &Query,
    limit: u64,
) -> Result<Found, AllocError>
    requires search { CanSearch sys.now order.now q.now }
    requires light { limit ≤ MOST_WEIGHT }
    ensures { IfOk result (IsAnswer sys.now.sig q.now limit) }
{
    let form = normal(alloc, &sys.sig, q)?;
    let counts = counts(alloc, &sys.sig, &form, order)?;
    let weight = weight(&sys.sig, &form, counts.as_slice());
    if weight > limit {
        return Ok(Found::Over(weight));
    }
    Ok(
        match search(alloc, contexts, &sys.sig, &form, order, counts)? {
            Some(world) => Found::Model(world),
            None => Found::Nothing,
        },
    )
}

/// The answer to a query by a finder with this limit that keeps nothing.
pub fn answer(
    alloc: Global,
    sys: &System,
    order: &Order,
    q: &Query,
    limit: u64,
) -> Result<Found, AllocError>
    requires search { CanSearch sys.now order.now q.now }
    requires light { limit ≤ MOST_WEIGHT }
    ensures { IfOk result (IsAnswer sys.now.sig q.now limit) }
{
    let mut contexts = Contexts::new();
    answer_within(alloc, &mut contexts, sys, order, q, limit)
}
