ghost use Rattle.std.specs.Prelude.{◌≡◌, [], ◌∷◌, ◌++◌, ◌≤◌, ◌↔◌, length, IfOk, IsOk, OnOk, OnErr, IsTrue};
ghost use Rattle.smallvec.specs.SmallVec.{small_vec_len};
ghost use Rattle.prop_core.specs.Formula.{IsWithin, MeetsClause, value_of};

use crate::lit::Lit;
use smallvec::SmallVec;
use std::alloc::{AllocError, Global};
use std::marker::Model;

/// A list of literals, one of which is to be true. Up to four of them stand in the value itself.
#[derive(Drop)]
pub struct Clause {
    lits: SmallVec<Lit, 4>,
}

impl Model for Clause {
    ghost use Rattle.std.specs.Prelude.{List};
    ghost use Rattle.prop_core.specs.declared.lit.Lit.{Lit};

    ghost Value = { List Lit };

    ghost view = { λ c. c.lits.items };
}

impl Clause {
    /// The empty clause, which no values meet.
    pub fn new(alloc: Global) -> Clause
        ensures { result ≡ [] }
    {
        Clause {
            lits: SmallVec::new(alloc),
        }
    }

    /// The clause of these literals. Up to four of them take no memory.
    pub fn from_slice(alloc: Global, lits: &[Lit]) -> Result<Clause, AllocError>
        ensures ok { IfOk result (λ c. c ≡ lits.now) }
        ensures succeeds { length lits.now ≤ 4 → IsOk result }
    {
        Ok(Clause {
            lits: SmallVec::from_slice(alloc, lits)?,
        })
    }

    /// The literals.
    pub fn as_slice(&self) -> &[Lit]
        ensures { result.now ≡ self.now }
    {
        self.lits.as_slice()
    }

    /// The number of literals.
    pub fn len(&self) -> usize
        ensures { result ≡ length self.now }
    {
        self.lits.len()
    }

    /// Whether there is no literal.
    pub fn is_empty(&self) -> bool
        ensures { IsTrue result ↔ (self.now ≡ []) }
    {
        self.lits.len() == 0
    }

    /// Puts a literal after the others. After an error, which is out of memory, nothing has
    /// changed.
    pub fn push(&mut self, lit: Lit) -> Result<(), AllocError>
        ensures ok { OnOk result (self.new ≡ self.old ++ lit ∷ []) }
        ensures err { OnErr result (self.new ≡ self.old) }
    {
        self.lits.push(lit)?;
        Ok(())
    }

    /// A copy.
    pub fn copy(&self, alloc: Global) -> Result<Clause, AllocError>
        ensures { IfOk result (λ c. c ≡ self.now) }
    {
        Clause::from_slice(alloc, self.as_slice())
    }

    /// Whether each variable is below `vars`.
    pub fn is_within(&self, vars: u32) -> bool
        ensures { IsTrue result ↔ IsWithin vars self.now }
    {
        for lit in self.as_slice() {
            if lit.var >= vars {
                return false;
            }
        }
        true
    }

    /// Whether a literal is true under these values, one for each variable in order. Each
    /// variable has to have a value.
    pub fn is_met(&self, values: &[bool]) -> bool
        requires { IsWithin (length values.now) self.now }
        ensures { IsTrue result ↔ MeetsClause (value_of values.now) self.now }
    {
        for lit in self.as_slice() {
            if values[lit.var as usize] == lit.positive {
                return true;
            }
        }
        false
    }
}
