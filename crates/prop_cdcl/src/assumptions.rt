//! The assumptions of a question: whether values make them true, the clause that denies them, and
//! the formula that they make with the given clauses.
ghost use Rattle.std.specs.Prelude.{◌≡◌, ◌<◌, ◌↔◌, [], ◌∷◌, ◌++◌, length, map, IsTrue, IfOk};
ghost use Rattle.prop_core.specs.Formula.{IsWithin, AreWithin, value_of, negated};
ghost use Rattle.prop_cdcl.specs.Questions.{AreTrue, OnlyDenies};

use crate::learner::Learner;
use prop_check::Checked;
use prop_core::{Clause, Cnf, Lit};
use std::alloc::{AllocError, Global};

/// Whether the literal is true. Its variable has to have a value.
fn is_true(lit: Lit, values: &[bool]) -> bool
    requires { lit.var < length values.now }
    ensures { IsTrue result ↔ (value_of values.now lit.var ≡ lit.positive) }
{
    values[lit.var as usize] == lit.positive
}

/// Whether each literal is true. Each variable has to have a value.
pub fn are_true(lits: &[Lit], values: &[bool]) -> bool
    requires { IsWithin (length values.now) lits.now }
    ensures { IsTrue result ↔ AreTrue (value_of values.now) lits.now }
{
    for lit in lits {
        if !is_true(*lit, values) {
            return false;
        }
    }
    true
}

/// The clause that denies the assumptions on which the last outcome rests.
pub fn denial(alloc: Global, learner: &Learner, assumptions: &[Lit]) -> Result<Clause, AllocError>
    ensures { IfOk result (OnlyDenies assumptions.now) }
{
    let mut clause = Clause::new(alloc);
    for lit in assumptions {
        if learner.is_needed(*lit) {
            clause.push(lit.negated())?;
        }
    }
    Ok(clause)
}

/// The clause that denies all assumptions.
pub fn all_denied(alloc: Global, assumptions: &[Lit]) -> Result<Clause, AllocError>
    ensures { IfOk result (λ c. c ≡ map negated assumptions.now) }
{
    let mut clause = Clause::new(alloc);
    for lit in assumptions {
        clause.push(lit.negated())?;
    }
    Ok(clause)
}

/// The given clauses, and each assumption as a clause of its own.
pub fn assumed(alloc: Global, checked: &Checked, assumptions: &[Lit]) -> Result<Cnf, AllocError>
    requires { IsWithin checked.now.vars assumptions.now }
    ensures vars { IfOk result (λ f. f.vars ≡ checked.now.vars) }
    ensures clauses { IfOk result (λ f. f.clauses ≡ checked.now.given ++ map (λ l. l ∷ []) assumptions.now) }
    ensures within { IfOk result (λ f. AreWithin f.vars f.clauses) }
{
    let mut clauses = checked.copy_given(alloc)?;
    for lit in assumptions {
        clauses.push(Clause::from_slice(alloc, &[*lit])?)?;
    }
    Ok(Cnf {
        vars: checked.vars(),
        clauses,
    })
}
