ghost use Rattle.std.specs.Prelude.{◌≡◌, ◌↔◌, ◌+◌, ◌-◌, ◌^◌, ◌<◌, ◌≤◌, ◌∷◌, ◌++◌, [], ℕ, List, length, IfOk, OnOk};
ghost use Rattle.fo_core.specs.declared.order.Purpose.TheVariants.{Infer};
ghost use Rattle.fo_core.specs.declared.formula.Formula.TheVariants as F;
ghost use Rattle.fo_core.specs.declared.world.World.{World};
ghost use Rattle.fo_core.specs.Queries.{IsQuery, MeetsQuery};
ghost use Rattle.fo_core.specs.Shift.{CanShift, shift};
ghost use Rattle.fo_core.specs.SortGraph.{SortEdge, ClaimsEdge, Rises};
ghost use Rattle.fo_core.specs.Sorted.{IsSystem};
ghost use Rattle.up_claims.specs.Breaking.{IsViolatingRunOf};
ghost use Rattle.up_claims.specs.Claims.{denied, states_below, steps_below, unroll_claims};
ghost use Rattle.up_claims.specs.Transitions.{any_transition as any_transition_of};

use crate::add::add;
use crate::transition::any_transition;
use fo_core::{Boxed, Formula, Query, Seq, System, shifted};
use std::alloc::{AllocError, Global};

/// Adds the axioms, copy by copy.
pub fn add_states(
    alloc: Global,
    sys: &System,
    copies: u32,
    claims: &mut Seq<Formula>,
) -> Result<(), AllocError>
    requires { IsSystem sys.now }
    ensures { OnOk result (claims.new ≡ claims.old ++ states_below sys.now copies) }
{
    'each: for c in 0..copies {
        add(alloc, &sys.sig, c, sys.axioms.as_slice(), claims)?;
    }
    Ok(())
}

/// Adds that each copy steps to the next one, for so many of them.
fn add_steps(
    alloc: Global,
    sys: &System,
    steps: u32,
    claims: &mut Seq<Formula>,
) -> Result<(), AllocError>
    requires sys { IsSystem sys.now }
    requires few { steps < 2 ^ 32 - 1 }
    ensures { OnOk result (claims.new ≡ claims.old ++ steps_below sys.now steps) }
{
    let transition = any_transition(alloc, sys)?;
    'each: for c in 0..steps {
        claims.push(shifted(alloc, &sys.sig, &transition, c)?)?;
    }
    Ok(())
}

/// All safeties are true in this copy, denied.
pub fn some_safety_fails(alloc: Global, sys: &System, copy: u32) -> Result<Formula, AllocError>
    requires { IsSystem sys.now }
    ensures { IfOk result (λ f. f ≡ denied sys.now.sig copy (F.And sys.now.safeties)) }
{
    let mut safeties = Seq::new(alloc);
    add(
        alloc,
        &sys.sig,
        copy,
        sys.safeties.as_slice(),
        &mut safeties,
    )?;
    Ok(Formula::Not(Boxed::new(alloc, Formula::And(safeties))?))
}

/// The claims that copies 0 to `steps` are a run whose last copy violates a safety.
fn claims_of_run(alloc: Global, sys: &System, steps: u32) -> Result<Seq<Formula>, AllocError>
    requires sys { IsSystem sys.now }
    requires few { steps < 2 ^ 32 - 1 }
    ensures { IfOk result (λ fs. fs ≡ unroll_claims sys.now steps) }
{
    let mut claims = Seq::new(alloc);
    add_states(alloc, sys, steps + 1, &mut claims)?;
    add(alloc, &sys.sig, 0, sys.inits.as_slice(), &mut claims)?;
    add_steps(alloc, sys, steps, &mut claims)?;
    claims.push(some_safety_fails(alloc, sys, steps)?)?;
    Ok(claims)
}

/// The query of a violating run of so many steps: bounded model checking (Armin Biere, Alessandro
/// Cimatti, Edmund Clarke and Yunshan Zhu, "Symbolic Model Checking without BDDs", 1999).
///
/// It asks for a well-sorted system ([`System::is_well_sorted`]) and for fewer than 2^32 - 1 steps.
/// Where a transition's parameters and a symbol's arguments together are 2^32 or more, memory is
/// answered to be wanting.
pub fn unroll_query(alloc: Global, sys: &System, steps: u32) -> Result<Query, AllocError>
    requires sys { IsSystem sys.now }
    requires few { steps < 2 ^ 32 - 1 }
    ensures copies { IfOk result (λ q. q.copies ≡ steps + 1) }
    ensures claims { IfOk result (λ q. q.claims ≡ unroll_claims sys.now steps) }
    ensures sorted { IfOk result (IsQuery sys.now.sig) }
    ensures meaning { IfOk result (λ q. (w : World) → MeetsQuery sys.now.sig q w ↔ IsViolatingRunOf sys.now steps w) }
    ensures rises { IfOk result (λ q. (numbers : List ℕ) → Rises (SortEdge sys.now Infer) sys.now.sig.sorts numbers → Rises (ClaimsEdge sys.now.sig q.claims) sys.now.sig.sorts numbers) }
{
    Ok(Query {
        copies: steps + 1,
        claims: claims_of_run(alloc, sys, steps)?,
    })
}
