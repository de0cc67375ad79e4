ghost use Rattle.std.specs.Prelude.{◌≡◌, IfOk};

use crate::seq::Seq;
use std::alloc::{AllocError, Global};

/// A place in the tables of a world.
#[derive(Debug, Drop)]
pub struct Cell {
    /// The number of the symbol whose table it is.
    pub symbol: u32,
    /// The copy of which the symbol speaks; 0 for an immutable symbol.
    pub copy: u32,
    /// The arguments, elements below the sizes of their sorts.
    pub args: Seq<u32>,
}

impl Cell {
    /// A copy.
    pub fn copy(&self, alloc: Global) -> Result<Cell, AllocError>
        ensures { IfOk result (λ x. x ≡ self.now) }
    {
        Ok(Cell {
            symbol: self.symbol,
            copy: self.copy,
            args: self.args.copy(alloc)?,
        })
    }
}
