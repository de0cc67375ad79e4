ghost use Rattle.std.specs.Prelude.{◌≡◌, ◌↔◌, ◌+◌, ◌<◌, ◌∷◌, ◌++◌, [], ℕ, List, length, IfOk, IfSome, OnOk};
ghost use Rattle.fo_core.specs.declared.order.Purpose.TheVariants.{Verify};
ghost use Rattle.fo_core.specs.declared.world.World.{World};
ghost use Rattle.fo_core.specs.Queries.{IsQuery, MeetsQuery};
ghost use Rattle.fo_core.specs.SortGraph.{SortEdge, ClaimsEdge, Rises};
ghost use Rattle.fo_core.specs.Sorted.{IsSystem};
ghost use Rattle.up_claims.specs.Breaking.{Breaks};
ghost use Rattle.up_claims.specs.Claims.{property_at, init_claims, step_claims, verify_copies, verify_claims};

use crate::add::{add, add_denied};
use crate::transition::transition_claim;
use fo_core::{Formula, Query, Seq, System};
use std::alloc::{AllocError, Global};

/// The property of this number: a safety or, behind them, an invariant.
fn property_at_number(sys: &System, property: u32) -> &Formula
    requires { property < length sys.now.safeties + length sys.now.invariants }
    ensures { result.now ≡ property_at sys.now property }
{
    let number = property as usize;
    let safeties = sys.safeties.len();
    if number < safeties {
        return sys.safeties.at(number);
    }
    sys.invariants.at(number - safeties)
}

/// The claims that copy 0 is initial and the property is false there.
fn claims_at_init(alloc: Global, sys: &System, property: u32) -> Result<Seq<Formula>, AllocError>
    requires sys { IsSystem sys.now }
    requires property { property < length sys.now.safeties + length sys.now.invariants }
    ensures { IfOk result (λ fs. fs ≡ init_claims sys.now property) }
{
    let mut claims = Seq::new(alloc);
    add(alloc, &sys.sig, 0, sys.axioms.as_slice(), &mut claims)?;
    add(alloc, &sys.sig, 0, sys.inits.as_slice(), &mut claims)?;
    add_denied(
        alloc,
        &sys.sig,
        0,
        property_at_number(sys, property),
        &mut claims,
    )?;
    Ok(claims)
}

/// The claims that the transition leads from a state with all properties to one without this one.
fn claims_by_step(
    alloc: Global,
    sys: &System,
    step: u32,
    property: u32,
) -> Result<Seq<Formula>, AllocError>
    requires sys { IsSystem sys.now }
    requires step { step < length sys.now.steps }
    requires property { property < length sys.now.safeties + length sys.now.invariants }
    ensures { IfOk result (λ fs. fs ≡ step_claims sys.now step property) }
{
    let mut claims = Seq::new(alloc);
    add(alloc, &sys.sig, 0, sys.axioms.as_slice(), &mut claims)?;
    add(alloc, &sys.sig, 1, sys.axioms.as_slice(), &mut claims)?;
    add(alloc, &sys.sig, 0, sys.safeties.as_slice(), &mut claims)?;
    add(alloc, &sys.sig, 0, sys.invariants.as_slice(), &mut claims)?;
    let transition = sys.steps.at(step as usize);
    claims.push(transition_claim(alloc, &sys.sig, transition)?)?;
    add_denied(
        alloc,
        &sys.sig,
        1,
        property_at_number(sys, property),
        &mut claims,
    )?;
    Ok(claims)
}

/// The query of a world that shows how a property isn't inductive. Properties are the safeties and
/// then the invariants, counted from 0.
///
/// Without a transition such a world is an initial state in which the property is false; with one,
/// it is a step by that transition from a state with all properties to one in which the property is
/// false (Zohar Manna and Amir Pnueli, "Temporal Verification of Reactive Systems: Safety", 1995).
/// The properties together are inductive exactly where no world meets any of these queries
/// ([`inductive_where_nothing_breaks`](crate::inductive_where_nothing_breaks)).
///
/// It asks for a well-sorted system ([`System::is_well_sorted`]), and that it has the transition and
/// the property. Where a transition's parameters and a symbol's arguments together are 2^32 or
/// more, memory is answered to be wanting.
pub fn verify_query(
    alloc: Global,
    sys: &System,
    step: Option<u32>,
    property: u32,
) -> Result<Query, AllocError>
    requires sys { IsSystem sys.now }
    requires step { IfSome step (λ t. t < length sys.now.steps) }
    requires property { property < length sys.now.safeties + length sys.now.invariants }
    ensures copies { IfOk result (λ q. q.copies ≡ verify_copies step) }
    ensures claims { IfOk result (λ q. q.claims ≡ verify_claims sys.now step property) }
    ensures sorted { IfOk result (IsQuery sys.now.sig) }
    ensures meaning { IfOk result (λ q. (w : World) → MeetsQuery sys.now.sig q w ↔ Breaks sys.now step property w) }
    ensures rises { IfOk result (λ q. (numbers : List ℕ) → Rises (SortEdge sys.now Verify) sys.now.sig.sorts numbers → Rises (ClaimsEdge sys.now.sig q.claims) sys.now.sig.sorts numbers) }
{
    match step {
        None => Ok(Query {
            copies: 1,
            claims: claims_at_init(alloc, sys, property)?,
        }),
        Some(t) => Ok(Query {
            copies: 2,
            claims: claims_by_step(alloc, sys, t, property)?,
        }),
    }
}
