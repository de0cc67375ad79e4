//! Questions about clauses that grow: what was learnt for one question serves the later ones.
//!
//! Only `Checked` carries a proof. Values are looked at themselves. Where the answer is that there
//! are none, the learnt clauses on which it rests are offered, in their order, those that weren't
//! offered before; last it is asked whether the clause of denied assumptions follows.
ghost use Rattle.std.specs.Prelude.{◌≡◌, ◌+◌, ◌<◌, ◌^◌, ◌↔◌, [], ◌∷◌, ◌++◌, IfOk, OnOk, OnErr, IfSome};
ghost use Rattle.prop_core.specs.Formula.{IsWithin, AreWithin};
ghost use Rattle.prop_cdcl.specs.Questions.{Known, IsReply, SaysDenied, HaveNoValuesUnder};

use crate::assumptions::{all_denied, are_true, assumed, denial};
use crate::learner::{Learner, Outcome};
use crate::offers::follows_from_learnt;
use crate::search::Search;
use fo_core::Seq;
use prop_check::Checked;
use prop_core::{Answer, Clause, Cnf, Lit, copy_clauses};
use std::alloc::{AllocError, Global};
use std::marker::Model;

/// What a question under assumptions came to.
#[derive(Drop)]
pub enum Reply {
    /// One value for each variable, which meet each clause and make each assumption true.
    Values(Seq<bool>),
    /// This clause follows from the clauses, and each of its literals denies an assumption.
    Denied(Clause),
}

/// Clauses, more of which may be added, and what was learnt about them.
#[derive(Drop)]
pub struct Solver {
    checked: Checked,
    learner: Learner,
    /// Whether the search is to be made anew, since a call that changed it was cut off.
    stale: bool,
}

impl Model for Solver {
    ghost use Rattle.prop_cdcl.specs.Questions.{Known};

    ghost Value = { Known };

    ghost view = { λ a. record { vars = a.checked.vars; clauses = a.checked.given } };
}

/// A search over these clauses.
fn learner_over(alloc: Global, vars: u32, clauses: &[Clause]) -> Result<Learner, AllocError> {
    let search = Search::new(alloc, vars, clauses)?;
    let copies = copy_clauses(alloc, clauses)?;
    Learner::new(alloc, search, copies.into_vec())
}

impl Solver {
    /// The clauses of `cnf`, the variables of which have to be below its `vars`. The one error is
    /// out of memory.
    pub fn new(alloc: Global, cnf: &Cnf) -> Result<Solver, AllocError>
        requires { AreWithin cnf.now.vars cnf.now.clauses }
        ensures vars { IfOk result (λ s. s.vars ≡ cnf.now.vars) }
        ensures clauses { IfOk result (λ s. s.clauses ≡ cnf.now.clauses) }
    {
        let learner = learner_over(alloc, cnf.vars, cnf.clauses.as_slice())?;
        Ok(Solver {
            checked: Checked::new(alloc, cnf)?,
            learner,
            stale: false,
        })
    }

    /// How many variables there are.
    pub fn vars(&self) -> u32
        ensures { result ≡ self.now.vars }
    {
        self.checked.vars()
    }

    /// About how many bytes it takes. No contract says how many: it is a hint of what throwing it
    /// away would free.
    pub fn bytes(&self) -> usize {
        self.learner.bytes()
    }

    /// Adds `n` variables. After an error, which is out of memory, the clauses and variables are
    /// what they were.
    pub fn add_vars(&mut self, n: u32) -> Result<(), AllocError>
        requires { self.old.vars + n < 2 ^ 32 }
        ensures ok { OnOk result (self.new ≡ record self.old { vars = self.old.vars + n }) }
        ensures err { OnErr result (self.new ≡ self.old) }
    {
        let before = self.stale;
        self.stale = true;
        self.learner.add_vars(n)?;
        self.checked.add_vars(n)?;
        self.stale = before;
        Ok(())
    }

    /// Adds a clause, the variables of which have to be below `vars`. After an error, which is out
    /// of memory, the clauses are what they were.
    pub fn add_clause(&mut self, alloc: Global, clause: Clause) -> Result<(), AllocError>
        requires { IsWithin self.old.vars clause }
        ensures ok { OnOk result (self.new ≡ record self.old { clauses = self.old.clauses ++ clause ∷ [] }) }
        ensures err { OnErr result (self.new ≡ self.old) }
    {
        let copy = clause.copy(alloc)?;
        self.checked.reserve(1)?;
        self.learner.give(copy)?;
        self.checked.give(clause);
        Ok(())
    }

    /// Values that meet the clauses and make the assumptions true, or a clause that says why there
    /// are none. The assumptions' variables have to be below `vars`. The one error is out of
    /// memory; the clauses are what they were whatever is answered, and after an error the next
    /// question is answered from nothing.
    ///
    /// Each assumption is decided first (Eén and Sörensson, "Temporal Induction by Incremental
    /// SAT Solving", 2003). After 2^20 conflicts plain search answers.
    pub fn solve_under(&mut self, alloc: Global, assumptions: &[Lit]) -> Result<Reply, AllocError>
        requires { IsWithin self.old.vars assumptions.now }
        ensures same { self.new ≡ self.old }
        ensures reply { IfOk result (IsReply self.old.vars self.old.clauses assumptions.now) }
        ensures exact { IfOk result (λ r. SaysDenied r ↔ HaveNoValuesUnder self.old.clauses assumptions.now) }
    {
        self.renew(alloc)?;
        self.stale = true;
        let found = search_under(alloc, &mut self.checked, &mut self.learner, assumptions)?;
        match found {
            Some(reply) => {
                self.stale = false;
                Ok(reply)
            }
            None => plainly(alloc, &self.checked, assumptions),
        }
    }

    /// Makes the search anew, if it has to be.
    fn renew(&mut self, alloc: Global) -> Result<(), AllocError>
        ensures { self.new ≡ self.old }
    {
        if !self.stale {
            return Ok(());
        }
        self.learner = learner_over(alloc, self.checked.vars(), self.checked.clauses())?;
        Ok(())
    }
}

/// The reply that the search comes to, if it stands.
fn search_under(
    alloc: Global,
    checked: &mut Checked,
    learner: &mut Learner,
    assumptions: &[Lit],
) -> Result<Option<Reply>, AllocError>
    requires { IsWithin checked.old.vars assumptions.now }
    ensures vars { checked.new.vars ≡ checked.old.vars }
    ensures given { checked.new.given ≡ checked.old.given }
    ensures reply { IfOk result (λ o. IfSome o (IsReply checked.old.vars checked.old.given assumptions.now)) }
{
    match learner.ask(alloc, assumptions)? {
        Outcome::Values(values) => Ok(met(checked, values, assumptions)),
        Outcome::Denied => denied(alloc, checked, learner, assumptions),
        Outcome::Lost => Ok(None),
    }
}

/// The reply of these values, where they meet the clauses and the assumptions.
fn met(checked: &Checked, values: Vec<bool>, assumptions: &[Lit]) -> Option<Reply>
    requires { IsWithin checked.now.vars assumptions.now }
    ensures { IfSome result (IsReply checked.now.vars checked.now.given assumptions.now) }
{
    if values.len() == checked.vars() as usize
        && checked.is_met(values.as_slice())
        && are_true(assumptions, values.as_slice())
    {
        Some(Reply::Values(Seq::from_vec(values)))
    } else {
        None
    }
}

/// The reply that the needed assumptions can't be true together, where that follows.
fn denied(
    alloc: Global,
    checked: &mut Checked,
    learner: &mut Learner,
    assumptions: &[Lit],
) -> Result<Option<Reply>, AllocError>
    requires { IsWithin checked.old.vars assumptions.now }
    ensures vars { checked.new.vars ≡ checked.old.vars }
    ensures given { checked.new.given ≡ checked.old.given }
    ensures reply { IfOk result (λ o. IfSome o (IsReply checked.old.vars checked.old.given assumptions.now)) }
{
    let clause = denial(alloc, learner, assumptions)?;
    if follows_from_learnt(alloc, checked, learner, &clause)? {
        return Ok(Some(Reply::Denied(clause)));
    }
    Ok(None)
}

/// The reply of plain search.
fn plainly(alloc: Global, checked: &Checked, assumptions: &[Lit]) -> Result<Reply, AllocError>
    requires { IsWithin checked.now.vars assumptions.now }
    ensures { IfOk result (IsReply checked.now.vars checked.now.given assumptions.now) }
{
    let cnf = assumed(alloc, checked, assumptions)?;
    match prop_plain::solve(alloc, &cnf)? {
        Answer::Sat(values) => Ok(Reply::Values(values)),
        Answer::Unsat(_) => Ok(Reply::Denied(all_denied(alloc, assumptions)?)),
    }
}
