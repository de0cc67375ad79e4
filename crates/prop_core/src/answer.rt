ghost use Rattle.std.specs.Prelude.{◌≡◌, IfOk};

use crate::clause::Clause;
use crate::cnf::copy_clauses;
use fo_core::Seq;
use std::alloc::{AllocError, Global};

/// Clauses over a formula's variables, each of which follows by unit propagation from the
/// formula's clauses and those before it, the last one being empty.
///
/// Goldberg and Novikov, "Verification of Proofs of Unsatisfiability for CNF Formulas", 2003.
#[derive(Drop)]
pub struct Refutation {
    /// The clauses in the order in which they follow.
    pub clauses: Seq<Clause>,
}

/// What a search for values that meet a formula found.
#[derive(Drop)]
pub enum Answer {
    /// One value for each variable, which meet each clause.
    Sat(Seq<bool>),
    /// No values meet the clauses, as the refutation shows.
    Unsat(Refutation),
}

impl Refutation {
    /// A copy.
    pub fn copy(&self, alloc: Global) -> Result<Refutation, AllocError>
        ensures { IfOk result (λ r. r ≡ self.now) }
    {
        Ok(Refutation {
            clauses: copy_clauses(alloc, self.clauses.as_slice())?,
        })
    }
}

impl Answer {
    /// A copy.
    pub fn copy(&self, alloc: Global) -> Result<Answer, AllocError>
        ensures { IfOk result (λ a. a ≡ self.now) }
    {
        match self {
            Answer::Sat(values) => Ok(Answer::Sat(Seq::from_vec(values.as_slice().to_vec(alloc)?))),
            Answer::Unsat(refutation) => Ok(Answer::Unsat(refutation.copy(alloc)?)),
        }
    }
}
