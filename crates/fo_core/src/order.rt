ghost use Rattle.std.specs.Prelude.{◌≡◌, IfOk};

use crate::seq::Seq;
use std::alloc::{AllocError, Global};

/// What is to be done with a system. It settles which formulas are asked about, and so which edges
/// the sort graph has.
#[derive(Clone, Copy, Debug, PartialEq, Eq)]
pub enum Purpose {
    /// To find an invariant: axioms, inits and transitions are assumed, and safeties negated.
    Infer,
    /// To verify the invariants that are claimed: besides, safeties and invariants are assumed, and
    /// invariants negated.
    Verify,
}

/// A numbering of a signature's sorts. Where it rises along each edge of the sort graph, terms
/// that Skolem functions and the signature's functions build go from lower numbers to higher ones,
/// so there are finitely many of them (Yeting Ge and Leonardo de Moura, "Complete Instantiation
/// for Quantified Formulas in Satisfiability Modulo Theories", 2009).
#[derive(Debug, Drop)]
pub struct Order {
    /// The number of each sort.
    pub numbers: Seq<u32>,
}

impl Order {
    /// A copy.
    pub fn copy(&self, alloc: Global) -> Result<Order, AllocError>
        ensures { IfOk result (λ o. o ≡ self.now) }
    {
        Ok(Order {
            numbers: self.numbers.copy(alloc)?,
        })
    }
}
