//! Unit propagation by two watched literals in each clause (Moskewicz, Madigan, Zhao, Zhang and
//! Malik, "Chaff: Engineering an Efficient SAT Solver", 2001).
//!
//! The lists are hints. Each clause that they lead to is looked at before one of its literals is
//! made true, so what is found is right whatever they hold; what they miss is left to a pass over
//! all clauses.
ghost use Rattle.std.specs.Prelude.{◌≡◌, ◌<◌, length, IsTrue};
ghost use Rattle.prop_core.specs.Formula.{AreWithin};
ghost use Rattle.prop_check.specs.Assignment.{Grows, OnlyForced, HasFalse};
ghost use Rattle.prop_check.specs.Outcomes.{FoundIs};

use crate::assignment::{Status, look_at};
use crate::lists::WatchLists;
use prop_core::{Clause, Lit};
use std::alloc::{AllocError, Global};

/// The lists of the clauses that watch a literal, and the literals whose lists are to be visited.
#[derive(Drop)]
pub struct Watches {
    lists: WatchLists,
    /// The literals that became true and whose opposite lists are still to be visited.
    queue: Vec<Lit>,
}

/// What a look at one clause found.
pub enum Found {
    /// Each of its literals is false.
    Conflict,
    /// This literal was its last one, and was made true.
    Forced(Lit),
    /// Neither.
    Nothing,
}

/// Whether the literal is true, where `value` is true, or false, where it isn't.
fn has_value(values: &[Option<bool>], lit: Lit, value: bool) -> bool {
    match values.get(lit.var as usize) {
        Some(Some(v)) => (*v == lit.positive) == value,
        _ => false,
    }
}

/// A literal of the clause other than `other` that isn't false.
fn find_open(clause: &[Lit], values: &[Option<bool>], other: Option<Lit>) -> Option<Lit> {
    for lit in clause {
        if Some(*lit) != other && !has_value(values, *lit, false) {
            return Some(*lit);
        }
    }
    None
}

/// Looks at the clause `at`, and makes its last literal true where each other one is false.
fn take_unit(clauses: &[Clause], at: usize, values: &mut [Option<bool>]) -> Found
    requires within { AreWithin (length values.old) clauses.now }
    requires place { at < length clauses.now }
    ensures grows { Grows values.old values.new }
    ensures forced { OnlyForced clauses.now values.old values.new }
    ensures outcome { FoundIs clauses.now values.new result }
{
    let clause = &clauses[at];
    match look_at(clause.as_slice(), values) {
        Status::False => Found::Conflict,
        Status::Unit(lit) => {
            values[lit.var as usize] = Some(lit.positive);
            Found::Forced(lit)
        }
        Status::Settled => Found::Nothing,
    }
}

impl Watches {
    /// No lists yet, with room for those of `vars` variables.
    pub fn new(alloc: Global, vars: u32) -> Result<Watches, AllocError> {
        Ok(Watches {
            lists: WatchLists::new(alloc, vars)?,
            queue: Vec::with_capacity(alloc, vars as usize)?,
        })
    }

    /// Adds the lists of `n` variables.
    pub fn add_vars(&mut self, n: u32) -> Result<(), AllocError> {
        self.queue.clear();
        self.queue
            .reserve((n as usize).saturating_add(self.lists.vars()))?;
        self.lists.add_vars(n)
    }

    /// Makes room for `n` more clauses.
    pub fn reserve(&mut self, n: usize) -> Result<(), AllocError> {
        self.lists.reserve(n)
    }

    /// Begins with nothing to visit.
    pub fn begin(&mut self) {
        self.queue.clear();
    }

    /// A literal became true.
    pub fn enqueue(&mut self, lit: Lit) {
        if self.queue.len() < self.queue.capacity() {
            self.queue.push_reserved(lit);
        }
    }

    /// Puts the next clause into the lists of two of its literals, where there is room: of such
    /// as aren't false, if it has them.
    pub fn watch(&mut self, clause: &[Lit], values: &[Option<bool>]) {
        let first = find_open(clause, values, None);
        let second = find_open(clause, values, first);
        self.lists.attach(first, second);
    }

    /// Looks at the clause `at` for a last literal, which it makes true.
    pub fn look(&mut self, clauses: &[Clause], at: usize, values: &mut [Option<bool>]) -> bool
        requires { AreWithin (length values.old) clauses.now }
        ensures grows { Grows values.old values.new }
        ensures forced { OnlyForced clauses.now values.old values.new }
        ensures conflict { IsTrue result → HasFalse clauses.now values.new }
    {
        if at >= clauses.len() {
            return false;
        }
        match take_unit(clauses, at, values) {
            Found::Conflict => true,
            Found::Forced(lit) => {
                self.enqueue(lit);
                false
            }
            Found::Nothing => false,
        }
    }

    /// Where the clause of `node` is watched instead of at `falsified`, if it can be.
    fn replacement(
        &self,
        clauses: &[Clause],
        node: usize,
        falsified: Lit,
        values: &[Option<bool>],
    ) -> Option<Lit> {
        let other = self.lists.twin(node);
        if has_value(values, other, true) {
            return Some(falsified);
        }
        match clauses.get(node / 2) {
            Some(clause) => find_open(clause.as_slice(), values, Some(other)),
            None => Some(falsified),
        }
    }

    /// Goes through the clauses that watch `falsified`, and answers whether one of them is false.
    fn visit(&mut self, clauses: &[Clause], falsified: Lit, values: &mut [Option<bool>]) -> bool
        requires { AreWithin (length values.old) clauses.now }
        ensures grows { Grows values.old values.new }
        ensures forced { OnlyForced clauses.now values.old values.new }
        ensures conflict { IsTrue result → HasFalse clauses.now values.new }
    {
        let mut node = self.lists.take(falsified);
        for _ in 0..self.lists.len() {
            let Some(next) = self.lists.next(node) else {
                break
            };
            match self.replacement(clauses, node, falsified, values) {
                Some(lit) => self.lists.link(node, lit),
                None => {
                    self.lists.link(node, falsified);
                    if self.look(clauses, node / 2, values) {
                        self.lists.link_rest(next, falsified);
                        return true;
                    }
                }
            }
            node = next;
        }
        false
    }

    /// Propagates from the literals that became true, and answers whether some clause is false.
    /// One that is found is; none may be found where there is one.
    pub fn run(&mut self, clauses: &[Clause], values: &mut [Option<bool>]) -> bool
        requires { AreWithin (length values.old) clauses.now }
        ensures grows { Grows values.old values.new }
        ensures forced { OnlyForced clauses.now values.old values.new }
        ensures conflict { IsTrue result → HasFalse clauses.now values.new }
    {
        for at in 0..values.len() {
            if at >= self.queue.len() {
                break;
            }
            let falsified = self.queue[at].negated();
            if self.visit(clauses, falsified, values) {
                return true;
            }
        }
        false
    }

    /// Looks at the clauses at these places, one after the other, propagates from there, and
    /// answers whether some clause is false. One that is found is; none may be found where there
    /// is one.
    pub fn run_by(
        &mut self,
        clauses: &[Clause],
        places: &[usize],
        values: &mut [Option<bool>],
    ) -> bool
        requires { AreWithin (length values.old) clauses.now }
        ensures grows { Grows values.old values.new }
        ensures forced { OnlyForced clauses.now values.old values.new }
        ensures conflict { IsTrue result → HasFalse clauses.now values.new }
    {
        for at in places {
            if self.look(clauses, *at, values) {
                return true;
            }
        }
        self.run(clauses, values)
    }
}
