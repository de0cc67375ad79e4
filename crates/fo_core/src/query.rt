ghost use Rattle.std.specs.Prelude.{◌≡◌, ◌↔◌, IsTrue, IfOk};
ghost use Rattle.fo_core.specs.Queries.{IsQuery};

use crate::formula::{Formula, same_formulas};
use crate::seq::Seq;
use crate::signature::Sig;
use crate::sorted::are_formulas;
use std::alloc::{AllocError, Global};

/// The greatest weight of a query for which ground terms are counted exactly and listed: it keeps
/// each sort at 158 ground terms or fewer, and variables of clauses at numbers of 32 bits.
pub const MOST_WEIGHT: u64 = 4_000_000;

/// Claims about worlds of one or more copies. A world meets the query where it has that many
/// copies and all claims are true, with copies counted from 0.
#[derive(Debug, Drop)]
pub struct Query {
    pub copies: u32,
    pub claims: Seq<Formula>,
}

impl Query {
    /// A copy.
    pub fn copy(&self, alloc: Global) -> Result<Query, AllocError>
        ensures { IfOk result (λ x. x ≡ self.now) }
    {
        Ok(Query {
            copies: self.copies,
            claims: self.claims.copy(alloc)?,
        })
    }

    /// Whether both are equal. It takes no memory.
    pub fn same(&self, other: &Query) -> bool
        ensures { IsTrue result ↔ (self.now ≡ other.now) }
    {
        self.copies == other.copies
            && same_formulas(self.claims.as_slice(), other.claims.as_slice())
    }

    /// Whether the query is well-sorted for the signature: it has a copy, and its claims are closed
    /// and speak of its copies alone. It decides what a finder asks of a query.
    pub fn is_well_sorted(&self, alloc: Global, sig: &Sig) -> Result<bool, AllocError>
        ensures { IfOk result (λ b. IsTrue b ↔ IsQuery sig.now self.now) }
    {
        if self.copies == 0 {
            return Ok(false);
        }
        are_formulas(alloc, sig, self.copies, self.claims.as_slice())
    }
}
