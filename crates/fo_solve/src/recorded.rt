ghost use Rattle.std.specs.Prelude.{◌≡◌, ◌≤◌, [], OnOk, OnErr, IfOk, MatchOption};
ghost use Rattle.fo_core.specs.declared.finder.Found.{Found};
ghost use Rattle.fo_core.specs.declared.query.TheConstants.{MOST_WEIGHT};
ghost use Rattle.fo_core.specs.Finds.{CanSearch, IsAnswer};
ghost use Rattle.fo_solve.specs.Answering.{KeepsOne, IsNext, with_one_given};

use crate::search::answer;
use fo_core::{Finder, Found, Order, Query, System};
use std::alloc::{AllocError, Global};
use std::marker::Model;

/// A query with its answer.
#[derive(Debug, Drop)]
pub struct Answered {
    /// The query that was asked.
    pub query: Query,
    /// What an engine answered.
    pub answer: Found,
}

impl Answered {
    /// A copy.
    pub fn copy(&self, alloc: Global) -> Result<Answered, AllocError>
        ensures { IfOk result (λ a. a ≡ self.now) }
    {
        Ok(Answered {
            query: self.query.copy(alloc)?,
            answer: self.answer.copy(alloc)?,
        })
    }
}

/// A finder for tests. It keeps answers to queries of one system, and hands them out in the order
/// in which they were kept: where the system and the query that it is asked are those of the next
/// one. It finds any other answer anew. Contracts see its system, its limit, the queries that it
/// keeps with their answers, and how many of these it has handed out.
#[derive(Debug, Drop)]
pub struct Recorded {
    sys: System,
    limit: u64,
    kept: Vec<Answered>,
    given: usize,
}

impl Model for Recorded {
    ghost use Rattle.std.specs.Prelude.{◌≤◌};
    ghost use Rattle.std.specs.Coded.{codes};
    ghost use Rattle.fo_core.specs.contracts.formula.Formula as formula;
    ghost use Rattle.fo_solve.specs.Answering.{Record, AreAnswers};
    ghost use Rattle.fo_core.specs.declared.query.TheConstants.{MOST_WEIGHT};

    ghost Value = { Record };

    ghost coded = { Prim.hlevel (codes, formula.the_row.coded) };

    ghost view = { λ r. record { sys = r.sys; limit = r.limit; kept = r.kept.items; given = r.given } };

    ghost invariant = { λ r. (r.limit ≤ MOST_WEIGHT) × AreAnswers r.sys.sig r.limit r.kept.items };
}

impl Recorded {
    /// A finder for this system with this limit, which is at most [`fo_core::MOST_WEIGHT`]. It
    /// keeps a copy of the system, and no answers yet. The one error is out of memory.
    pub fn new(alloc: Global, sys: &System, limit: u64) -> Result<Recorded, AllocError>
        requires { limit ≤ MOST_WEIGHT }
        ensures { IfOk result (λ r. r ≡ record { sys = sys.now; limit = limit; kept = []; given = 0 }) }
    {
        Ok(Recorded {
            sys: sys.copy(alloc)?,
            limit,
            kept: Vec::new(alloc),
            given: 0,
        })
    }

    /// The next answer that it hands out, where it is to this query for this system.
    fn next(&self, sys: &System, q: &Query) -> Option<&Found>
        ensures { MatchOption result ((answer : Found) → ¬ IsNext self.now sys.now q.now answer) (λ answer. IsNext self.now sys.now q.now answer.now) }
    {
        let kept = self.kept.get(self.given)?;
        if sys.same(&self.sys) && q.same(&kept.query) {
            Some(&kept.answer)
        } else {
            None
        }
    }

    /// Finds the answer to a query of its system, and keeps both. It asks for what `find` asks.
    /// After an error, which is out of memory, nothing has changed.
    pub fn keep(&mut self, alloc: Global, order: &Order, q: &Query) -> Result<(), AllocError>
        requires { CanSearch self.old.sys order.now q.now }
        ensures kept { OnOk result (KeepsOne self.old q.now self.new) }
        ensures err { OnErr result (self.new ≡ self.old) }
    {
        let answer = answer(alloc, &self.sys, order, q, self.limit)?;
        let query = q.copy(alloc)?;
        self.kept.push(Answered { query, answer })?;
        Ok(())
    }
}

impl Finder for Recorded {
    ghost limit = { λ r. r.limit };

    fn find(
        &mut self,
        alloc: Global,
        sys: &System,
        order: &Order,
        q: &Query,
    ) -> Result<Found, AllocError>
        requires search { CanSearch sys.now order.now q.now }
        ensures found { IfOk result (IsAnswer sys.now.sig q.now self.old.limit) }
        ensures limit { self.new.limit ≡ self.old.limit }
        ensures handed { (answer : Found) → IsNext self.old sys.now q.now answer → OnOk result (self.new ≡ with_one_given self.old) }
        ensures kept { (answer : Found) → IsNext self.old sys.now q.now answer → IfOk result (λ found. found ≡ answer) }
        ensures anew { ((answer : Found) → ¬ IsNext self.old sys.now q.now answer) → OnOk result (self.new ≡ self.old) }
        ensures err { OnErr result (self.new ≡ self.old) }
    {
        let Some(kept) = self.next(sys, q) else {
            return answer(alloc, sys, order, q, self.limit);
        };
        let found = kept.copy(alloc)?;
        self.given += 1;
        Ok(found)
    }
}
