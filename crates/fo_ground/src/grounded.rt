ghost use Rattle.std.specs.Prelude.{◌≡◌, IfOk};

use fo_core::Seq;
use prop_core::Cnf;
use std::alloc::{AllocError, Global};

/// What a variable of the clauses says.
#[derive(Debug, Drop)]
pub enum Atom {
    /// The ground terms at these places, the first of which isn't behind the second, have one
    /// value.
    Same(u32, u32),
    /// A relation symbol, in this copy, is true of the ground terms at these places.
    Fact(u32, u32, Seq<u32>),
    /// A part of an instance is true.
    Helper,
}

/// The clauses of a Skolem form over its ground terms, and what each of their variables says.
#[derive(Drop)]
pub struct Grounded {
    pub cnf: Cnf,
    pub atoms: Seq<Atom>,
}

impl Atom {
    /// A copy.
    pub fn copy(&self, alloc: Global) -> Result<Atom, AllocError>
        ensures { IfOk result (λ a. a ≡ self.now) }
    {
        match self {
            Atom::Same(p, q) => Ok(Atom::Same(*p, *q)),
            Atom::Fact(symbol, copy, args) => Ok(Atom::Fact(*symbol, *copy, args.copy(alloc)?)),
            Atom::Helper => Ok(Atom::Helper),
        }
    }
}

/// A copy of each atom, in order.
fn copy_atoms(alloc: Global, atoms: &[Atom]) -> Result<Seq<Atom>, AllocError>
    ensures { IfOk result (λ s. s ≡ atoms.now) }
{
    let mut copies = Vec::with_capacity(alloc, atoms.len())?;
    'each: for atom in atoms {
        copies.push(atom.copy(alloc)?)?;
    }
    Ok(Seq::from_vec(copies))
}

impl Grounded {
    /// A copy.
    pub fn copy(&self, alloc: Global) -> Result<Grounded, AllocError>
        ensures { IfOk result (λ g. g ≡ self.now) }
    {
        Ok(Grounded {
            cnf: self.cnf.copy(alloc)?,
            atoms: copy_atoms(alloc, self.atoms.as_slice())?,
        })
    }
}
