ghost use Rattle.std.specs.Prelude.{◌≡◌, IfOk};

use fo_core::{Formula, Seq, Symbol};
use std::alloc::{AllocError, Global};

/// Claims in negation normal form without existentials, about worlds of one or more copies. They
/// speak of the symbols of a signature and of Skolem symbols behind them.
#[derive(Debug, Drop)]
pub struct SkolemForm {
    pub copies: u32,
    pub claims: Seq<Formula>,
    /// Immutable functions. Their numbers follow those of the signature's symbols.
    pub skolems: Seq<Symbol>,
}

impl SkolemForm {
    /// A copy.
    pub fn copy(&self, alloc: Global) -> Result<SkolemForm, AllocError>
        ensures { IfOk result (λ x. x ≡ self.now) }
    {
        Ok(SkolemForm {
            copies: self.copies,
            claims: formulas(alloc, self.claims.as_slice())?,
            skolems: symbols(alloc, self.skolems.as_slice())?,
        })
    }
}

fn formulas(alloc: Global, items: &[Formula]) -> Result<Seq<Formula>, AllocError>
    ensures { IfOk result (λ s. s ≡ items.now) }
{
    let mut copies = Seq::new(alloc);
    'each: for item in items {
        copies.push(item.copy(alloc)?)?;
    }
    Ok(copies)
}

fn symbols(alloc: Global, items: &[Symbol]) -> Result<Seq<Symbol>, AllocError>
    ensures { IfOk result (λ s. s ≡ items.now) }
{
    let mut copies = Seq::new(alloc);
    'each: for item in items {
        copies.push(item.copy(alloc)?)?;
    }
    Ok(copies)
}
