ghost use Rattle.std.specs.Prelude.{◌≡◌, ◌≤◌, ◌↔◌, length, IfOk};
ghost use Rattle.prop_core.specs.Formula.{AreWithin};
ghost use Rattle.prop_core.specs.Answers.{IsAnswer, SaysUnsat, HaveNoValues};
ghost use Rattle.prop_check.specs.Kept.{Kept, kept};
ghost use Rattle.prop_plain.specs.Search.{against, IsOffered};

use fo_core::Seq;
use prop_check::Checked;
use prop_core::{Answer, Clause, Cnf, Lit, Refutation};
use std::alloc::{AllocError, Global};

/// The clause against the values of the first variables.
fn clause_against(alloc: Global, path: &[bool]) -> Result<Clause, AllocError>
    requires { length path.now ≤ 4294967295 }
    ensures { IfOk result (λ c. c ≡ against path.now) }
{
    let mut clause = Clause::new(alloc);
    for (i, value) in path.iter().enumerate() {
        clause.push(Lit {
            var: i as u32,
            positive: !*value,
        })?;
    }
    Ok(clause)
}

/// Offers the clause against a path.
fn offer(alloc: Global, checked: &mut Checked, path: &[bool]) -> Result<bool, AllocError>
    requires small { checked.old.vars ≤ 4294967295 }
    requires within { length path.now ≤ checked.old.vars }
    ensures { IfOk result (IsOffered checked.old checked.new (against path.now)) }
{
    let clause = clause_against(alloc, path)?;
    checked.reserve(1)?;
    Ok(checked.add(clause))
}

/// Values that meet each clause of `cnf`, or a refutation. The variables of its clauses have to
/// be below its `vars`.
///
/// The search of Davis, Logemann and Loveland, "A Machine Program for Theorem-Proving", 1962,
/// with the variables in order.
pub fn solve(alloc: Global, cnf: &Cnf) -> Result<Answer, AllocError>
    requires { AreWithin cnf.now.vars cnf.now.clauses }
    ensures answer { IfOk result (IsAnswer cnf.now.vars cnf.now.clauses) }
    ensures exact { IfOk result (λ a. SaysUnsat a ↔ HaveNoValues cnf.now.clauses) }
{
    let checked = Checked::new(alloc, cnf)?;
    go_on(alloc, cnf, checked)
}

/// The same as `solve`, from clauses that follow and were taken before. `checked` has to have
/// begun with the clauses of `cnf`.
pub fn go_on(alloc: Global, cnf: &Cnf, mut checked: Checked) -> Result<Answer, AllocError>
    requires within { AreWithin cnf.now.vars cnf.now.clauses }
    requires vars { checked.vars ≡ cnf.now.vars }
    requires given { checked.given ≡ cnf.now.clauses }
    ensures answer { IfOk result (IsAnswer cnf.now.vars cnf.now.clauses) }
    ensures exact { IfOk result (λ a. SaysUnsat a ↔ HaveNoValues cnf.now.clauses) }
{
    let mut path: Vec<bool> = Vec::new(alloc);
    let mut refuted = false;
    loop {
        if refuted {
            match path.pop() {
                None => {
                    return Ok(Answer::Unsat(Refutation {
                        clauses: checked.into_added(),
                    }));
                }
                Some(second) => {
                    if second {
                        refuted = offer(alloc, &mut checked, path.as_slice())?;
                    } else {
                        path.push(true)?;
                        refuted = false;
                    }
                }
            }
        } else if offer(alloc, &mut checked, path.as_slice())? {
            refuted = true;
        } else if path.len() == cnf.vars as usize {
            return Ok(Answer::Sat(Seq::from_vec(path)));
        } else {
            path.push(false)?;
        }
    }
}
