ghost use Rattle.std.specs.Prelude.{◌≡◌, ◌<◌, ℕ, cond, length, slice_index, slice_index_or, false, IfOk};
ghost use Rattle.fo_core.specs.SortGraph.{Rises};
ghost use Rattle.pyv_strat.specs.Edges.{Among, AreWithin};
ghost use Rattle.pyv_strat.specs.Walks.{NoneReturns};

use crate::edges::Edge;
use crate::walks::layer_before;
use std::alloc::{AllocError, Global};

/// Gives each marked sort the number.
fn give(numbers: &mut [u32], layer: &[bool], number: u32)
    requires { length numbers.old ≡ length layer.now }
    ensures { (a : ℕ) → a < length numbers.old → slice_index numbers.new a ≡ cond (slice_index_or layer.now a false) number (slice_index numbers.old a) }
{
    'each: for a in 0..numbers.len() {
        if layer[a] {
            numbers[a] = number;
        }
    }
}

/// Numbers that rise along the edges, which have no cycle: the number of sorts less the length of
/// a longest walk from the sort.
pub fn numbers(alloc: Global, edges: &[Edge], sorts: u32) -> Result<Vec<u32>, AllocError>
    requires within { AreWithin sorts edges.now }
    requires acyclic { (a : ℕ) → a < sorts → NoneReturns edges.now sorts a }
    ensures { IfOk result (λ numbers. Rises (Among edges.now) sorts numbers.items) }
{
    let mut numbers = vec![in alloc; sorts; sorts as usize]?;
    let mut layer = vec![in alloc; true; sorts as usize]?;
    'lengths: for k in 1..sorts {
        layer = layer_before(alloc, edges, layer.as_slice())?;
        give(numbers.as_mut_slice(), layer.as_slice(), sorts - k);
    }
    Ok(numbers)
}
