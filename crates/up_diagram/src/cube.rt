ghost use Rattle.std.specs.Prelude.{◌≡◌, ◌↔◌, ◌<◌, length, IsTrue, IfOk};
ghost use Rattle.std.specs.List.{All, AllZip};
ghost use Rattle.fo_core.specs.Sorted.{IsSig};
ghost use Rattle.fo_core.specs.Tables.{symbol_at};
ghost use Rattle.up_diagram.specs.Cubes.{HasSort, IsApplied, IsFlat, IsCube, HasPlaces, variables_in};

use fo_core::{Seq, Sig};
use std::alloc::{AllocError, Global};

/// A literal without nested terms, over variables that are places in a cube's list of sorts. All
/// symbols speak of copy 0.
#[derive(Debug, Drop)]
pub enum Flat {
    /// Two variables stand for different elements.
    Differ(u32, u32),
    /// A relation holds of the variables, or doesn't hold where the sign is false.
    Fact(bool, u32, Seq<u32>),
    /// A function's value for the variables is the last variable.
    Value(u32, Seq<u32>, u32),
}

/// A conjunction of flat literals over variables of these sorts: a state meets it where some elements
/// for the variables make all literals true. Its negation is a clause, as PDR learns them (Karbyshev,
/// Bjørner, Itzhaky, Rinetzky and Shoham, "Property-directed inference of universal invariants or
/// proving their absence", 2015).
#[derive(Debug, Drop)]
pub struct Cube {
    pub sorts: Seq<u32>,
    pub lits: Seq<Flat>,
}

impl Flat {
    /// A copy.
    pub fn copy(&self, alloc: Global) -> Result<Flat, AllocError>
        ensures { IfOk result (λ lit. lit ≡ self.now) }
    {
        Ok(match self {
            Flat::Differ(i, j) => Flat::Differ(*i, *j),
            Flat::Fact(sign, r, variables) => Flat::Fact(*sign, *r, variables.copy(alloc)?),
            Flat::Value(f, variables, v) => Flat::Value(*f, variables.copy(alloc)?, *v),
        })
    }
}

/// Whether the variable is one of those of these sorts, and has this sort.
fn has_sort(sorts: &[u32], v: u32, sort: u32) -> bool
    ensures { IsTrue result ↔ HasSort sorts.now v sort }
{
    (v as usize) < sorts.len() && sorts[v as usize] == sort
}

/// Whether the variables have these sorts.
fn have_sorts(sorts: &[u32], variables: &[u32], wanted: &[u32]) -> bool
    ensures { IsTrue result ↔ AllZip (HasSort sorts.now) variables.now wanted.now }
{
    if variables.len() != wanted.len() {
        return false;
    }
    'each: for i in 0..variables.len() {
        if !has_sort(sorts, variables[i], wanted[i]) {
            return false;
        }
    }
    true
}

/// Whether the symbol is one of this kind, and the variables have its arguments' sorts.
fn is_applied(sig: &Sig, sorts: &[u32], relation: bool, symbol: u32, variables: &[u32]) -> bool
    ensures { IsTrue result ↔ IsApplied sig.now sorts.now relation symbol variables.now }
{
    if symbol as usize >= sig.symbols.len() {
        return false;
    }
    let found = sig.symbols.at(symbol as usize);
    found.relation == relation && have_sorts(sorts, variables, found.args.as_slice())
}

/// Whether the literal is well-sorted under variables of these sorts.
fn is_flat(sig: &Sig, sorts: &[u32], lit: &Flat) -> bool
    ensures { IsTrue result ↔ IsFlat sig.now sorts.now lit.now }
{
    match lit {
        Flat::Differ(i, j) => {
            (*j as usize) < sorts.len() && has_sort(sorts, *i, sorts[*j as usize])
        }
        Flat::Fact(_, r, variables) => is_applied(sig, sorts, true, *r, variables.as_slice()),
        Flat::Value(f, variables, v) => {
            is_applied(sig, sorts, false, *f, variables.as_slice())
                && has_sort(sorts, *v, sig.symbols.at(*f as usize).result)
        }
    }
}

/// Whether the variables are below this number.
fn all_below(variables: &[u32], count: usize) -> bool
    ensures { IsTrue result ↔ All (λ v. v < count) variables.now }
{
    variables.iter().all(|v| (*v as usize) < count)
}

/// Whether the variables of the literal are below this number.
fn are_below(lit: &Flat, count: usize) -> bool
    ensures { IsTrue result ↔ All (λ v. v < count) (variables_in lit.now) }
{
    match lit {
        Flat::Differ(i, j) => (*i as usize) < count && (*j as usize) < count,
        Flat::Fact(_, _, variables) => all_below(variables.as_slice(), count),
        Flat::Value(_, variables, v) => {
            let last = (*v as usize) < count;
            last && all_below(variables.as_slice(), count)
        }
    }
}

impl Cube {
    /// Whether the cube is well-sorted for the signature: its sorts are sorts of the signature, its
    /// variables are places in the list of sorts, and its symbols are applied to variables of their
    /// sorts. It takes no memory.
    pub fn is_well_sorted(&self, sig: &Sig) -> bool
        ensures { IsTrue result ↔ IsCube sig.now self.now }
    {
        let sorts = self.sorts.as_slice();
        if !sorts.iter().all(|s| *s < sig.sorts) {
            return false;
        }
        'each: for lit in self.lits.as_slice() {
            if !is_flat(sig, sorts, lit) {
                return false;
            }
        }
        true
    }

    /// Whether each variable in a literal is a place in the list of sorts. It takes no memory.
    pub fn has_places(&self) -> bool
        ensures { IsTrue result ↔ HasPlaces self.now }
    {
        'each: for lit in self.lits.as_slice() {
            if !are_below(lit, self.sorts.len()) {
                return false;
            }
        }
        true
    }

    /// A copy.
    pub fn copy(&self, alloc: Global) -> Result<Cube, AllocError>
        ensures { IfOk result (λ cube. cube ≡ self.now) }
    {
        let mut lits = Seq::new(alloc);
        'each: for lit in self.lits.as_slice() {
            lits.push(lit.copy(alloc)?)?;
        }
        Ok(Cube {
            sorts: self.sorts.copy(alloc)?,
            lits,
        })
    }
}
