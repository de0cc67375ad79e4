ghost use Rattle.std.specs.Prelude.{◌≡◌, length, ◌↔◌, IfOk, IsTrue};
ghost use Rattle.prop_core.specs.Formula.{AreWithin, MeetsAll, value_of};

use crate::clause::Clause;
use fo_core::Seq;
use std::alloc::{AllocError, Global};

/// A formula in conjunctive normal form: clauses over the variables below `vars`.
///
/// Calls that take one ask that each variable in its clauses is below `vars`, which
/// `is_well_formed` decides.
#[derive(Drop)]
pub struct Cnf {
    /// How many variables there are.
    pub vars: u32,
    /// The clauses, each of which is to be met.
    pub clauses: Seq<Clause>,
}

/// A copy of each clause, in order.
pub fn copy_clauses(alloc: Global, clauses: &[Clause]) -> Result<Seq<Clause>, AllocError>
    ensures { IfOk result (λ s. s ≡ clauses.now) }
{
    let mut copies = Vec::with_capacity(alloc, clauses.len())?;
    'each: for clause in clauses {
        copies.push(clause.copy(alloc)?)?;
    }
    Ok(Seq::from_vec(copies))
}

impl Cnf {
    /// Whether each variable in the clauses is below `vars`.
    pub fn is_well_formed(&self) -> bool
        ensures { IsTrue result ↔ AreWithin self.now.vars self.now.clauses }
    {
        for clause in self.clauses.as_slice() {
            if !clause.is_within(self.vars) {
                return false;
            }
        }
        true
    }

    /// Whether these values meet each clause. Each variable has to have a value.
    pub fn is_met(&self, values: &[bool]) -> bool
        requires { AreWithin (length values.now) self.now.clauses }
        ensures { IsTrue result ↔ MeetsAll (value_of values.now) self.now.clauses }
    {
        for clause in self.clauses.as_slice() {
            if !clause.is_met(values) {
                return false;
            }
        }
        true
    }

    /// A copy.
    pub fn copy(&self, alloc: Global) -> Result<Cnf, AllocError>
        ensures { IfOk result (λ c. c ≡ self.now) }
    {
        Ok(Cnf {
            vars: self.vars,
            clauses: copy_clauses(alloc, self.clauses.as_slice())?,
        })
    }
}
