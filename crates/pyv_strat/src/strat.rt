ghost use Rattle.std.specs.Prelude.{◌≡◌, IfOk, IfErr};
ghost use Rattle.pyv_strat.specs.declared.strat.StratFault.TheVariants.{Memory};
ghost use Rattle.fo_core.specs.Sorted.{IsSystem};
ghost use Rattle.fo_core.specs.SortGraph.{SortEdge, Rises};
ghost use Rattle.pyv_strat.specs.Refusal.{IsRefusal};

use crate::cycle::{first_cycle, first_start};
use crate::graph::sort_graph;
use crate::numbering::numbers;
use fo_core::{Order, Purpose, Seq, System};
use std::alloc::{AllocError, Global};
use thiserror::Error;

/// Why a system has no order.
#[derive(Debug, Drop, Error)]
pub enum StratFault {
    /// It isn't stratified: of the cycles of its sort graph with fewest edges, each begun at its
    /// least sort, the first in lexicographic order. Its first sort is repeated at the end.
    #[error("the sort graph has a cycle")]
    Cycle(Seq<u32>),
    /// There wasn't enough memory.
    #[error("out of memory")]
    Memory,
}

impl From<AllocError> for StratFault {
    ghost from_gives = { λ _ fault. fault ≡ Memory };

    fn from(_: AllocError) -> StratFault {
        StratFault::Memory
    }
}

/// A numbering of the sorts that rises along each edge of the system's sort graph for the purpose,
/// exactly where there is one; else a cycle of the graph, or want of memory.
///
/// It asks for a well-sorted system ([`System::is_well_sorted`]), of any number of sorts. With n
/// sorts it takes about n^4 steps, and n^2 for each argument of a function and for each pair of a
/// universal and an existential in its scope; and n^2 edges and marks of memory.
pub fn order(alloc: Global, sys: &System, purpose: Purpose) -> Result<Order, StratFault>
    requires { IsSystem sys.now }
    ensures rises { IfOk result (λ order. Rises (SortEdge sys.now purpose) sys.now.sig.sorts order.numbers) }
    ensures refused { IfErr result (IsRefusal sys.now purpose) }
{
    let sorts = sys.sig.sorts;
    let edges = sort_graph(alloc, sys, purpose)?;
    match first_start(alloc, edges.as_slice(), sorts)? {
        None => Ok(Order {
            numbers: Seq::from_vec(numbers(alloc, edges.as_slice(), sorts)?),
        }),
        Some(start) => {
            let cycle = first_cycle(alloc, edges.as_slice(), sorts, start)?;
            Err(StratFault::Cycle(Seq::from_vec(cycle)))
        }
    }
}
