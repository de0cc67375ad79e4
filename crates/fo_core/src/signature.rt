ghost use Rattle.std.specs.Prelude.{◌≡◌, ◌↔◌, IsTrue, IfOk};
ghost use Rattle.fo_core.specs.Sorted.{HasSorts, IsSig};

use crate::seq::Seq;
use std::alloc::{AllocError, Global};

/// A symbol of a signature. Sorts are numbers below the signature's `sorts`.
#[derive(Debug, Drop)]
pub struct Symbol {
    /// Whether it is a relation; else it is a function, or a constant where it has no arguments.
    pub relation: bool,
    /// Whether steps may change it.
    pub mutable: bool,
    /// The sorts of its arguments.
    pub args: Seq<u32>,
    /// The sort of a function's values. A relation's result is 0 and means nothing.
    pub result: u32,
}

/// A many-sorted signature: sorts and symbols, each named by its number.
#[derive(Debug, Drop)]
pub struct Sig {
    pub sorts: u32,
    pub symbols: Seq<Symbol>,
}

impl Symbol {
    /// A copy.
    pub fn copy(&self, alloc: Global) -> Result<Symbol, AllocError>
        ensures { IfOk result (λ x. x ≡ self.now) }
    {
        Ok(Symbol {
            relation: self.relation,
            mutable: self.mutable,
            args: self.args.copy(alloc)?,
            result: self.result,
        })
    }

    /// Whether both are equal. It takes no memory.
    pub fn same(&self, other: &Symbol) -> bool
        ensures { IsTrue result ↔ (self.now ≡ other.now) }
    {
        same_symbol(self, other)
    }
}

impl Seq<Symbol> {
    /// A copy.
    pub fn copy(&self, alloc: Global) -> Result<Seq<Symbol>, AllocError>
        ensures { IfOk result (λ s. s ≡ self.now) }
    {
        let mut copies = Seq::new(alloc);
        'each: for item in self.as_slice() {
            copies.push(item.copy(alloc)?)?;
        }
        Ok(copies)
    }
}

/// Whether the sorts of the symbol are below the number.
fn has_sorts(sorts: u32, symbol: &Symbol) -> bool
    ensures { IsTrue result ↔ HasSorts sorts symbol.now }
{
    symbol.args.as_slice().iter().all(|s| *s < sorts) && (symbol.relation || symbol.result < sorts)
}

impl Sig {
    /// A copy.
    pub fn copy(&self, alloc: Global) -> Result<Sig, AllocError>
        ensures { IfOk result (λ x. x ≡ self.now) }
    {
        Ok(Sig {
            sorts: self.sorts,
            symbols: self.symbols.copy(alloc)?,
        })
    }

    /// Whether the symbols' sorts are sorts of the signature, and there are fewer than 2^32 - 1
    /// symbols. It takes no memory.
    pub fn is_well_sorted(&self) -> bool
        ensures { IsTrue result ↔ IsSig self.now }
    {
        self.symbols.len() < u32::MAX as usize
            && self
                .symbols
                .as_slice()
                .iter()
                .all(|s| has_sorts(self.sorts, s))
    }

    /// Whether both are equal. It takes no memory.
    pub fn same(&self, other: &Sig) -> bool
        ensures { IsTrue result ↔ (self.now ≡ other.now) }
    {
        self.sorts == other.sorts && same_symbols(self.symbols.as_slice(), other.symbols.as_slice())
    }
}

fn same_symbol(a: &Symbol, b: &Symbol) -> bool
    ensures { IsTrue result ↔ (a.now ≡ b.now) }
{
    a.relation == b.relation
        && a.mutable == b.mutable
        && a.args.as_slice() == b.args.as_slice()
        && a.result == b.result
}

fn same_symbols(a: &[Symbol], b: &[Symbol]) -> bool
    ensures { IsTrue result ↔ (a.now ≡ b.now) }
{
    if a.len() != b.len() {
        return false;
    }
    'each: for i in 0..a.len() {
        if !same_symbol(&a[i], &b[i]) {
            return false;
        }
    }
    true
}
