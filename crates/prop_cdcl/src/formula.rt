//! A formula that is asked once.
ghost use Rattle.std.specs.Prelude.{◌≡◌, ◌↔◌, IfOk, IfSome};
ghost use Rattle.prop_core.specs.Formula.{IsWithin, AreWithin};
ghost use Rattle.prop_core.specs.Answers.{IsAnswer, SaysUnsat, HaveNoValues};

use crate::learner::{Learner, Outcome};
use crate::offers::follows_from_learnt;
use crate::search::{Event, Search};
use fo_core::Seq;
use prop_check::Checked;
use prop_core::{Answer, Clause, Cnf, Refutation, copy_clauses};
use std::alloc::{AllocError, Global};

/// Values that meet each clause of `cnf`, or a refutation. The variables of its clauses have to
/// be below its `vars`.
///
/// It learns clauses from conflicts (Marques-Silva and Sakallah, "GRASP: A Search Algorithm for
/// Propositional Satisfiability", 1999). After 2^20 conflicts plain search answers.
pub fn solve(alloc: Global, cnf: &Cnf) -> Result<Answer, AllocError>
    requires { AreWithin cnf.now.vars cnf.now.clauses }
    ensures answer { IfOk result (IsAnswer cnf.now.vars cnf.now.clauses) }
    ensures exact { IfOk result (λ a. SaysUnsat a ↔ HaveNoValues cnf.now.clauses) }
{
    let mut search = Search::new(alloc, cnf.vars, cnf.clauses.as_slice())?;
    match search.run(alloc, cnf.clauses.as_slice(), &[])? {
        Event::Values(values) => met(alloc, cnf, values),
        first => learn(alloc, cnf, search, first),
    }
}

/// The answer of these values, where they meet the formula, and of plain search where they don't.
fn met(alloc: Global, cnf: &Cnf, values: Vec<bool>) -> Result<Answer, AllocError>
    requires { AreWithin cnf.now.vars cnf.now.clauses }
    ensures answer { IfOk result (IsAnswer cnf.now.vars cnf.now.clauses) }
    ensures exact { IfOk result (λ a. SaysUnsat a ↔ HaveNoValues cnf.now.clauses) }
{
    if values.len() == cnf.vars as usize && cnf.is_met(values.as_slice()) {
        return Ok(Answer::Sat(Seq::from_vec(values)));
    }
    prop_plain::solve(alloc, cnf)
}

/// Goes on from the search's first event. The formula's clauses are copied only here.
fn learn(alloc: Global, cnf: &Cnf, search: Search, first: Event) -> Result<Answer, AllocError>
    requires { AreWithin cnf.now.vars cnf.now.clauses }
    ensures answer { IfOk result (IsAnswer cnf.now.vars cnf.now.clauses) }
    ensures exact { IfOk result (λ a. SaysUnsat a ↔ HaveNoValues cnf.now.clauses) }
{
    let clauses = copy_clauses(alloc, cnf.clauses.as_slice())?.into_vec();
    let mut learner = Learner::new(alloc, search, clauses)?;
    match learner.go_on(alloc, first, &[])? {
        Outcome::Values(values) => met(alloc, cnf, values),
        Outcome::Denied => refuted(alloc, cnf, learner),
        Outcome::Lost => prop_plain::solve(alloc, cnf),
    }
}

/// The answer that no values meet the formula, where that follows, and else what plain search
/// answers from the clauses that were taken.
fn refuted(alloc: Global, cnf: &Cnf, mut learner: Learner) -> Result<Answer, AllocError>
    requires { AreWithin cnf.now.vars cnf.now.clauses }
    ensures answer { IfOk result (IsAnswer cnf.now.vars cnf.now.clauses) }
    ensures exact { IfOk result (λ a. SaysUnsat a ↔ HaveNoValues cnf.now.clauses) }
{
    let mut checked = Checked::new(alloc, cnf)?;
    let last = Clause::new(alloc);
    follows_from_learnt(alloc, &mut checked, &mut learner, &last)?;
    let mut sources = Vec::new(alloc);
    learner.last_sources(&mut sources)?;
    checked.reserve(1)?;
    if checked.add_by(last, sources.as_slice()) {
        return Ok(Answer::Unsat(Refutation {
            clauses: checked.into_added(),
        }));
    }
    prop_plain::go_on(alloc, cnf, checked)
}
