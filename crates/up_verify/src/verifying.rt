ghost use Rattle.std.specs.Prelude.{◌≡◌, ◌<◌, ◌+◌, [], ◌∷◌, length, IfOk, IfSome};
ghost use Rattle.fo_core.specs.declared.order.Purpose.TheVariants.{Verify};
ghost use Rattle.fo_core.specs.Finds.{CanSearch};
ghost use Rattle.fo_core.specs.Queries.{MeetsQuery};
ghost use Rattle.fo_core.specs.Sorted.{IsSystem};
ghost use Rattle.fo_core.specs.SortGraph.{SortEdge, Rises};
ghost use Rattle.up_claims.specs.Claims.{properties};
ghost use Rattle.up_claims.specs.VerifyQueries.{cases_at, step_cases, verify_cases};
ghost use Rattle.up_verify.specs.Verifying.{IsShown, IsVerification};
ghost use Rattle.up_verify.specs.Halting.{Finds};

use crate::verified::{Failure, Verified};
use fo_core::{Finder, Found, Order, Query, System, World};
use fo_min::{Least, least};
use std::alloc::{AllocError, Global};
use up_claims::verify_query;

/// Why a search stops before its last case.
#[derive(Drop)]
enum Halt {
    /// The case fails.
    Fails(Failure),
    /// The case's query is heavier than the finder's limit: its weight.
    Over(u64),
}

/// The least world that meets the query, where no query of the search for it is above the finder's
/// limit; else this one, which meets it.
fn least_or<F: Finder>(
    alloc: Global,
    f: &mut F,
    sys: &System,
    order: &Order,
    query: &Query,
    world: World,
) -> Result<World, AllocError>
    requires search { CanSearch sys.now order.now query.now }
    requires meets { MeetsQuery sys.now.sig query.now world }
    ensures limit { F.limit f.new ≡ F.limit f.old }
    ensures meets { IfOk result (MeetsQuery sys.now.sig query.now) }
    ensures shown { IfOk result (IsShown sys.now.sig query.now (F.limit f.old)) }
{
    match least(alloc, f, sys, order, query)? {
        Least::Model(first) => Ok(first),
        Least::Nothing => Ok(world),
        Least::Over(_) => Ok(world),
    }
}

/// Asks whether a property holds at the start, or whether a transition keeps it.
fn halt_of<F: Finder>(
    alloc: Global,
    f: &mut F,
    sys: &System,
    order: &Order,
    step: Option<u32>,
    property: u32,
) -> Result<Option<Halt>, AllocError>
    requires system { IsSystem sys.now }
    requires order { Rises (SortEdge sys.now Verify) sys.now.sig.sorts order.now.numbers }
    requires step { IfSome step (λ t. t < length sys.now.steps) }
    requires property { property < length sys.now.safeties + length sys.now.invariants }
    ensures found { IfOk result (Finds sys.now (F.limit f.old) (record { step = step; property = property } ∷ [])) }
    ensures limit { F.limit f.new ≡ F.limit f.old }
{
    let query = verify_query(alloc, sys, step, property)?;
    match f.find(alloc, sys, order, &query)? {
        Found::Nothing => Ok(None),
        Found::Model(found) => {
            let world = least_or(alloc, f, sys, order, &query, found)?;
            Ok(Some(Halt::Fails(Failure {
                step,
                property,
                world,
            })))
        }
        Found::Over(weight) => Ok(Some(Halt::Over(weight))),
    }
}

/// Asks this of each property.
fn first_halt_at<F: Finder>(
    alloc: Global,
    f: &mut F,
    sys: &System,
    order: &Order,
    step: Option<u32>,
) -> Result<Option<Halt>, AllocError>
    requires system { IsSystem sys.now }
    requires order { Rises (SortEdge sys.now Verify) sys.now.sig.sorts order.now.numbers }
    requires step { IfSome step (λ t. t < length sys.now.steps) }
    ensures found { IfOk result (Finds sys.now (F.limit f.old) (cases_at step (length (properties sys.now)))) }
    ensures limit { F.limit f.new ≡ F.limit f.old }
{
    let count = (sys.safeties.len() + sys.invariants.len()) as u32;
    'each: for property in 0..count {
        if let Some(halt) = halt_of(alloc, f, sys, order, step, property)? {
            return Ok(Some(halt));
        }
    }
    Ok(None)
}

/// Asks for each transition whether it keeps each property.
fn first_halt_by_step<F: Finder>(
    alloc: Global,
    f: &mut F,
    sys: &System,
    order: &Order,
) -> Result<Option<Halt>, AllocError>
    requires system { IsSystem sys.now }
    requires order { Rises (SortEdge sys.now Verify) sys.now.sig.sorts order.now.numbers }
    ensures found { IfOk result (Finds sys.now (F.limit f.old) (step_cases (length (properties sys.now)) (length sys.now.steps))) }
    ensures limit { F.limit f.new ≡ F.limit f.old }
{
    let count = sys.steps.len() as u32;
    'each: for step in 0..count {
        if let Some(halt) = first_halt_at(alloc, f, sys, order, Some(step))? {
            return Ok(Some(halt));
        }
    }
    Ok(None)
}

/// The first case of the system's verification that doesn't pass.
fn first_halt<F: Finder>(
    alloc: Global,
    f: &mut F,
    sys: &System,
    order: &Order,
) -> Result<Option<Halt>, AllocError>
    requires system { IsSystem sys.now }
    requires order { Rises (SortEdge sys.now Verify) sys.now.sig.sorts order.now.numbers }
    ensures found { IfOk result (Finds sys.now (F.limit f.old) (verify_cases sys.now)) }
    ensures limit { F.limit f.new ≡ F.limit f.old }
{
    if let Some(halt) = first_halt_at(alloc, f, sys, order, None)? {
        return Ok(Some(halt));
    }
    first_halt_by_step(alloc, f, sys, order)
}

/// Asks whether the system's safeties and invariants together are inductive, by a query for each
/// property at the start, and then for each transition and each property; the notion is Aaron
/// Bradley's and Zohar Manna's ("The Calculus of Computation", 2007). It answers the first case that
/// fails, with the least world that shows it; with some world that does, where a query of the search
/// for the least one ([`fo_min::least`]) is above the finder's limit. Where a query up to that case's
/// own is above the limit, it answers the weight of the first such query.
///
/// It asks for a well-sorted system ([`System::is_well_sorted`]), and for an order that rises along
/// each edge of the system's sort graph for verification. Where a number of variables doesn't fit 32
/// bits, it answers out of memory ([`verify_query`]).
pub fn verify<F: Finder>(
    alloc: Global,
    f: &mut F,
    sys: &System,
    order: &Order,
) -> Result<Verified, AllocError>
    requires sys { IsSystem sys.now }
    requires order { Rises (SortEdge sys.now Verify) sys.now.sig.sorts order.now.numbers }
    ensures limit { F.limit f.new ≡ F.limit f.old }
    ensures found { IfOk result (IsVerification sys.now (F.limit f.old)) }
{
    match first_halt(alloc, f, sys, order)? {
        None => Ok(Verified::Inductive),
        Some(Halt::Fails(failure)) => Ok(Verified::Fails(failure)),
        Some(Halt::Over(weight)) => Ok(Verified::Over(weight)),
    }
}
