//! The search with all that it goes over and what it learnt. No contract says anything of it.
use crate::log::Log;
use crate::search::{Event, Search};
use prop_core::{Clause, Lit};
use std::alloc::{AllocError, Global};

/// Conflicts of one question before plain search answers it.
const MOST_CONFLICTS: usize = 1 << 20;

/// Literals that stand in a clause itself, and take no memory beside it.
const INSIDE: usize = 4;

/// About the bytes that a clause takes here and in the check, with its places in the lists of both.
const CLAUSE_BYTES: usize = 240;

/// About the bytes that a literal takes that doesn't stand in its clause itself, here and in the
/// check.
const LITERAL_BYTES: usize = 24;

/// About the bytes of a note of a clause from which another one was learnt.
const SOURCE_BYTES: usize = 12;

/// About the bytes that a variable takes here and in the check.
const VARIABLE_BYTES: usize = 240;

/// What a question came to, as far as the search knows.
#[derive(Drop)]
pub enum Outcome {
    /// These values may meet the clauses and the assumptions.
    Values(Vec<bool>),
    /// The assumptions for which `is_needed` answers true may not be true together.
    Denied,
    /// It doesn't know.
    Lost,
}

/// Clauses, what was learnt from them, and the search.
#[derive(Drop)]
pub struct Learner {
    /// The given and the learnt clauses, in the order in which they came.
    clauses: Vec<Clause>,
    /// How many of their literals don't stand in the clauses themselves.
    outside: usize,
    log: Log,
    search: Search,
}

/// How many literals of a clause don't stand in the clause itself.
fn count_outside(clause: &Clause) -> usize {
    let count = clause.len();
    if count > INSIDE { count } else { 0 }
}

impl Learner {
    /// A search that was begun over these clauses goes on. The one error is out of memory.
    pub fn new(alloc: Global, search: Search, clauses: Vec<Clause>) -> Result<Learner, AllocError> {
        let log = Log::new(alloc, clauses.len())?;
        let mut outside: usize = 0;
        for clause in clauses.iter() {
            outside = outside.saturating_add(count_outside(clause));
        }
        Ok(Learner {
            clauses,
            outside,
            log,
            search,
        })
    }

    /// About how many bytes it takes, and a check of the same clauses.
    pub fn bytes(&self) -> usize {
        let clauses = self.clauses.len().saturating_mul(CLAUSE_BYTES);
        let outside = self.outside.saturating_mul(LITERAL_BYTES);
        let sources = self.log.sources().saturating_mul(SOURCE_BYTES);
        let variables = self.search.vars().saturating_mul(VARIABLE_BYTES);
        clauses
            .saturating_add(outside)
            .saturating_add(sources)
            .saturating_add(variables)
    }

    /// Adds `n` variables. After an error, which is out of memory, it is to be thrown away.
    pub fn add_vars(&mut self, n: u32) -> Result<(), AllocError> {
        self.search.add_vars(n)
    }

    /// Gives one more clause, which the check is given too. After an error, which is out of memory,
    /// it is as it was.
    pub fn give(&mut self, clause: Clause) -> Result<(), AllocError> {
        self.clauses.reserve(1)?;
        self.log.reserve(0)?;
        self.search.reserve()?;
        self.search.give(clause.as_slice(), self.clauses.len());
        self.log.push(&[]);
        self.log.keep(self.clauses.len());
        self.outside = self.outside.saturating_add(count_outside(&clause));
        self.clauses.push_reserved(clause);
        Ok(())
    }

    /// Asks for values under assumptions. After an error, which is out of memory, it is to be
    /// thrown away.
    pub fn ask(&mut self, alloc: Global, assumptions: &[Lit]) -> Result<Outcome, AllocError> {
        self.search.begin(assumptions)?;
        let event = self
            .search
            .run(alloc, self.clauses.as_slice(), assumptions)?;
        self.go_on(alloc, event, assumptions)
    }

    /// Goes on after the first event of a question.
    pub fn go_on(
        &mut self,
        alloc: Global,
        first: Event,
        assumptions: &[Lit],
    ) -> Result<Outcome, AllocError> {
        let mut event = first;
        for _ in 0..MOST_CONFLICTS {
            match event {
                Event::Values(values) => return Ok(Outcome::Values(values)),
                Event::Denied => return Ok(Outcome::Denied),
                Event::Lost => return Ok(Outcome::Lost),
                Event::Learnt(clause) => {
                    self.take(clause)?;
                    event = self
                        .search
                        .run(alloc, self.clauses.as_slice(), assumptions)?;
                }
            }
        }
        Ok(Outcome::Lost)
    }

    /// Takes a learnt clause, which is offered once an answer rests on it.
    fn take(&mut self, clause: Clause) -> Result<(), AllocError> {
        self.clauses.reserve(1)?;
        self.log.reserve(self.search.used().len())?;
        self.search.reserve()?;
        self.log.push(self.search.used());
        self.outside = self.outside.saturating_add(count_outside(&clause));
        self.clauses.push_reserved(clause);
        self.search.take(self.clauses.as_slice());
        Ok(())
    }

    /// Whether the last outcome, which was `Denied`, rests on this assumption.
    pub fn is_needed(&self, lit: Lit) -> bool {
        self.search.is_needed(lit)
    }

    /// The places of the learnt clauses on which the last outcome rests, in order, without those
    /// that were offered.
    pub fn needed(&mut self, alloc: Global) -> Result<Vec<usize>, AllocError> {
        let roots = self.search.roots(alloc)?;
        self.log.needed(alloc, roots.as_slice())
    }

    /// The places of all learnt clauses that weren't offered, in order.
    pub fn pending(&self, alloc: Global) -> Result<Vec<usize>, AllocError> {
        self.log.pending(alloc)
    }

    /// The clause at a place.
    pub fn clause(&self, at: usize) -> Option<&Clause> {
        self.clauses.get(at)
    }

    /// The clause at a place was offered and taken.
    pub fn mark_offered(&mut self, at: usize) {
        self.log.keep(at);
    }

    /// Where the clauses stand in the check from which the one at a place was learnt, in the order
    /// in which they show that it follows.
    pub fn sources(&self, at: usize, found: &mut Vec<usize>) -> Result<(), AllocError> {
        self.log.sources_in_check(at, found)
    }

    /// Where the clauses stand in the check from which the last outcome, which was `Denied`,
    /// follows, in the order in which they show it.
    pub fn last_sources(&self, found: &mut Vec<usize>) -> Result<(), AllocError> {
        self.log.in_check(self.search.used(), found)
    }
}
