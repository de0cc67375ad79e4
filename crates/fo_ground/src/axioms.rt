ghost use Rattle.std.specs.Prelude.{◌≡◌, ◌<◌, ◌≤◌, ℕ, [], length, true, OnOk};
ghost use Rattle.std.specs.List.{All};
ghost use Rattle.fo_core.specs.Sorted.{IsFormula};
ghost use Rattle.fo_norm.specs.Forms.{IsNormal};
ghost use Rattle.fo_terms.specs.Universe.{IsOf, sort_at};
ghost use Rattle.prop_core.specs.Formula.{AreWithin};
ghost use Rattle.fo_ground.specs.Axioms.{IsBetween, IsAlikeRow, AreAlike};
ghost use Rattle.fo_ground.specs.Emits.{Adds};
ghost use Rattle.fo_ground.specs.Layout.{IsLaidOut, IsMetBy, same_var};

use crate::emit::{Builder, emit};
use crate::layout::Layout;
use crate::place::same;
use fo_core::Formula;
use fo_terms::Universe;
use prop_core::{Clause, Lit};
use std::alloc::{AllocError, Global};

/// Adds a clause: where the first two variables are true, the third is.
pub fn add_rule(
    alloc: Global,
    first: u32,
    second: u32,
    then: u32,
    into: &mut Builder,
) -> Result<(), AllocError>
    requires { AreWithin into.old.vars into.old.clauses }
    ensures { OnOk result ((base : ℕ) → base ≤ into.old.vars → first < base → second < base → then < base → Adds base [] (λ v. v first ≡ true → v second ≡ true → v then ≡ true) into.old.vars into.old.clauses into.new.vars into.new.clauses) }
{
    let lits = [
        Lit {
            var: first,
            positive: false,
        },
        Lit {
            var: second,
            positive: false,
        },
        Lit {
            var: then,
            positive: true,
        },
    ];
    into.clauses.push(Clause::from_slice(alloc, &lits)?)?;
    Ok(())
}

/// Adds a clause: the variable is true.
fn add_fact(alloc: Global, then: u32, into: &mut Builder) -> Result<(), AllocError>
    requires { AreWithin into.old.vars into.old.clauses }
    ensures { OnOk result ((base : ℕ) → base ≤ into.old.vars → then < base → Adds base [] (λ v. v then ≡ true) into.old.vars into.old.clauses into.new.vars into.new.clauses) }
{
    let lits = [Lit {
        var: then,
        positive: true,
    }];
    into.clauses.push(Clause::from_slice(alloc, &lits)?)?;
    Ok(())
}

/// Adds a clause: where the first variable is true, the second is.
pub fn add_implied(
    alloc: Global,
    first: u32,
    then: u32,
    into: &mut Builder,
) -> Result<(), AllocError>
    requires { AreWithin into.old.vars into.old.clauses }
    ensures { OnOk result ((base : ℕ) → base ≤ into.old.vars → first < base → then < base → Adds base [] (λ v. v first ≡ true → v then ≡ true) into.old.vars into.old.clauses into.new.vars into.new.clauses) }
{
    let lits = [
        Lit {
            var: first,
            positive: false,
        },
        Lit {
            var: then,
            positive: true,
        },
    ];
    into.clauses.push(Clause::from_slice(alloc, &lits)?)?;
    Ok(())
}

/// Adds that the terms at p and r are the same where the one at q is the same as both. Where it is one
/// of them nothing has to be added.
fn add_third(
    alloc: Global,
    lay: &Layout,
    u: &Universe,
    p: u32,
    q: u32,
    r: u32,
    into: &mut Builder,
) -> Result<(), AllocError>
    requires ready { IsLaidOut u.now lay.now }
    requires sorted { (s : ℕ) × IsOf u.now.terms s p × IsOf u.now.terms s q × IsOf u.now.terms s r }
    requires over { lay.now.base ≤ into.old.vars }
    requires within { AreWithin into.old.vars into.old.clauses }
    ensures { OnOk result (Adds lay.now.base [] (λ v. v (same_var u.now lay.now p q) ≡ true → v (same_var u.now lay.now q r) ≡ true → v (same_var u.now lay.now p r) ≡ true) into.old.vars into.old.clauses into.new.vars into.new.clauses) }
{
    if q == p {
        return Ok(());
    }
    if q == r {
        return Ok(());
    }
    let first = same(lay, u, p, q);
    let second = same(lay, u, q, r);
    let third = same(lay, u, p, r);
    add_rule(alloc, first, second, third, into)?;
    Ok(())
}

/// Adds that the terms at p and r are the same where there is a term between: one that both are the
/// same as.
fn add_between(
    alloc: Global,
    lay: &Layout,
    u: &Universe,
    p: u32,
    r: u32,
    into: &mut Builder,
) -> Result<(), AllocError>
    requires ready { IsLaidOut u.now lay.now }
    requires first { p < length u.now.terms }
    requires second { IsOf u.now.terms (sort_at u.now.terms p) r }
    requires over { lay.now.base ≤ into.old.vars }
    requires within { AreWithin into.old.vars into.old.clauses }
    ensures { OnOk result (Adds lay.now.base [] (IsBetween u.now lay.now p r) into.old.vars into.old.clauses into.new.vars into.new.clauses) }
{
    let sort = u.terms.at(p as usize).sort as usize;
    let first = *u.firsts.at(sort);
    let end = first + *lay.sizes.at(sort);
    'each: for q in first..end {
        add_third(alloc, lay, u, p, q, r, into)?;
    }
    Ok(())
}

/// Adds that the term at p is the same as itself, and for each later term of its sort that they are
/// the same where there is a term between.
fn add_row(
    alloc: Global,
    lay: &Layout,
    u: &Universe,
    p: u32,
    into: &mut Builder,
) -> Result<(), AllocError>
    requires ready { IsLaidOut u.now lay.now }
    requires place { p < length u.now.terms }
    requires over { lay.now.base ≤ into.old.vars }
    requires within { AreWithin into.old.vars into.old.clauses }
    ensures { OnOk result (Adds lay.now.base [] (IsAlikeRow u.now lay.now p) into.old.vars into.old.clauses into.new.vars into.new.clauses) }
{
    let sort = u.terms.at(p as usize).sort as usize;
    let end = *u.firsts.at(sort) + *lay.sizes.at(sort);
    add_fact(alloc, same(lay, u, p, p), into)?;
    'each: for r in p + 1..end {
        add_between(alloc, lay, u, p, r, into)?;
    }
    Ok(())
}

/// Adds that being the same is reflexive and transitive. It is symmetric since p and q have one
/// variable with q and p.
pub fn add_equalities(
    alloc: Global,
    lay: &Layout,
    u: &Universe,
    into: &mut Builder,
) -> Result<(), AllocError>
    requires ready { IsLaidOut u.now lay.now }
    requires over { lay.now.base ≤ into.old.vars }
    requires within { AreWithin into.old.vars into.old.clauses }
    ensures { OnOk result (Adds lay.now.base [] (AreAlike u.now lay.now) into.old.vars into.old.clauses into.new.vars into.new.clauses) }
{
    'each: for p in 0..u.terms.len() as u32 {
        add_row(alloc, lay, u, p, into)?;
    }
    Ok(())
}

/// Adds each claim, whose quantifiers range over the ground terms.
pub fn add_claims(
    alloc: Global,
    lay: &Layout,
    u: &Universe,
    claims: &[Formula],
    into: &mut Builder,
) -> Result<(), AllocError>
    requires ready { IsLaidOut u.now lay.now }
    requires sorted { All (λ f. IsFormula lay.now.sig lay.now.copies f []) claims.now }
    requires normal { All IsNormal claims.now }
    requires over { lay.now.base ≤ into.old.vars }
    requires within { AreWithin into.old.vars into.old.clauses }
    ensures { OnOk result (Adds lay.now.base [] (λ v. All (λ f. IsMetBy u.now lay.now f [] v) claims.now) into.old.vars into.old.clauses into.new.vars into.new.clauses) }
{
    let mut env = Vec::new(alloc);
    'each: for f in claims {
        emit(alloc, lay, u, &mut env, &[], f, into)?;
    }
    Ok(())
}
