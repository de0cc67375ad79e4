//! Learnt clauses are offered to the check once an answer rests on them.
ghost use Rattle.std.specs.Prelude.{◌≡◌, IsTrue, IfOk};
ghost use Rattle.prop_core.specs.Formula.{IsWithin};
ghost use Rattle.prop_check.specs.Kept.{IsImplied};

use crate::learner::Learner;
use prop_check::Checked;
use prop_core::Clause;
use std::alloc::{AllocError, Global};

/// Offers the learnt clauses at these places, and answers whether each was taken. It stops at the
/// first that isn't.
fn offer(
    alloc: Global,
    checked: &mut Checked,
    learner: &mut Learner,
    places: &[usize],
) -> Result<bool, AllocError>
    ensures vars { checked.new.vars ≡ checked.old.vars }
    ensures given { checked.new.given ≡ checked.old.given }
{
    let mut sources = Vec::new(alloc);
    for at in places {
        let Some(clause) = learner.clause(*at) else {
            return Ok(false)
        };
        let copy = clause.copy(alloc)?;
        if !copy.is_within(checked.vars()) {
            return Ok(false);
        }
        learner.sources(*at, &mut sources)?;
        checked.reserve(1)?;
        if !checked.add_by(copy, sources.as_slice()) {
            return Ok(false);
        }
        learner.mark_offered(*at);
    }
    Ok(true)
}

/// Whether `clause` follows once the clauses at these places were offered.
fn follows_with(
    alloc: Global,
    checked: &mut Checked,
    learner: &mut Learner,
    places: &[usize],
    clause: &Clause,
) -> Result<bool, AllocError>
    requires { IsWithin checked.old.vars clause.now }
    ensures vars { checked.new.vars ≡ checked.old.vars }
    ensures given { checked.new.given ≡ checked.old.given }
    ensures sound { IfOk result (λ b. IsTrue b → IsImplied checked.old.given clause.now) }
{
    if !offer(alloc, checked, learner, places)? {
        return Ok(false);
    }
    let mut sources = Vec::new(alloc);
    learner.last_sources(&mut sources)?;
    Ok(checked.follows_by(clause, sources.as_slice()))
}

/// Whether `clause` follows once the clauses on which the last outcome rests were offered, or else
/// all that were learnt.
pub fn follows_from_learnt(
    alloc: Global,
    checked: &mut Checked,
    learner: &mut Learner,
    clause: &Clause,
) -> Result<bool, AllocError>
    requires { IsWithin checked.old.vars clause.now }
    ensures vars { checked.new.vars ≡ checked.old.vars }
    ensures given { checked.new.given ≡ checked.old.given }
    ensures sound { IfOk result (λ b. IsTrue b → IsImplied checked.old.given clause.now) }
{
    let needed = learner.needed(alloc)?;
    if follows_with(alloc, checked, learner, needed.as_slice(), clause)? {
        return Ok(true);
    }
    let pending = learner.pending(alloc)?;
    follows_with(alloc, checked, learner, pending.as_slice(), clause)
}
