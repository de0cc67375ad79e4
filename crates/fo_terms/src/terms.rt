ghost use Rattle.std.specs.Prelude.{◌≡◌, IfOk};

use fo_core::Seq;
use std::alloc::{AllocError, Global};

/// How many ground terms a sort has at most in a universe. A form that weighs at most
/// [`fo_core::MOST_WEIGHT`] has no more, since the triples of 159 terms weigh more than that.
pub const MOST_TERMS: u64 = 158;

/// A ground term: a function symbol, the copy in which it is read, and the places of its arguments
/// in a universe.
///
/// A spare constant has the symbol number `u32::MAX`. Skolem functions are numbered behind the
/// signature's symbols. The copy of an immutable symbol is 0.
#[derive(Debug, Drop)]
pub struct Ground {
    pub symbol: u32,
    pub copy: u32,
    pub args: Seq<u32>,
    pub sort: u32,
}

/// All ground terms of a form, each once and behind its arguments: the Herbrand universe of a
/// many-sorted signature, whose symbols are read in one or more copies.
#[derive(Debug, Drop)]
pub struct Universe {
    /// The terms, sort by sort in an order that rises along functions. Within a sort they stand by
    /// function, then by copy, then by arguments in lexicographic order.
    pub terms: Seq<Ground>,
    /// The place of each sort's first term, by the sort's number.
    pub firsts: Seq<u32>,
}

impl Ground {
    /// A copy.
    pub fn copy(&self, alloc: Global) -> Result<Ground, AllocError>
        ensures { IfOk result (λ x. x ≡ self.now) }
    {
        Ok(Ground {
            symbol: self.symbol,
            copy: self.copy,
            args: self.args.copy(alloc)?,
            sort: self.sort,
        })
    }
}

fn grounds(alloc: Global, items: &[Ground]) -> Result<Seq<Ground>, AllocError>
    ensures { IfOk result (λ s. s ≡ items.now) }
{
    let mut copies = Seq::new(alloc);
    'each: for item in items {
        copies.push(item.copy(alloc)?)?;
    }
    Ok(copies)
}

impl Universe {
    /// A copy.
    pub fn copy(&self, alloc: Global) -> Result<Universe, AllocError>
        ensures { IfOk result (λ x. x ≡ self.now) }
    {
        Ok(Universe {
            terms: grounds(alloc, self.terms.as_slice())?,
            firsts: self.firsts.copy(alloc)?,
        })
    }
}
