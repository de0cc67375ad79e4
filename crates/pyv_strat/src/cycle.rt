ghost use Rattle.std.specs.Prelude.{◌≡◌, ◌<◌, ◌≤◌, ℕ, length, IfOk, MatchOption};
ghost use Rattle.fo_core.specs.SortGraph.{IsFirstCycle};
ghost use Rattle.pyv_strat.specs.Edges.{Among, AreWithin};
ghost use Rattle.pyv_strat.specs.Walks.{Marks, Returns, NoneReturns, IsStart};

use crate::edges::{Edge, has_edge};
use crate::walks::{layer_before, layers, only};
use std::alloc::{AllocError, Global};

/// Where the printed cycle begins.
#[derive(Clone, Copy, Debug, PartialEq, Eq)]
pub struct Start {
    pub sort: u32,
    /// How many sorts it passes before it is back.
    pub between: u32,
}

/// Through how many sorts at least a walk from this one leads back to it, if fewer than the limit.
fn fewest_between(
    alloc: Global,
    edges: &[Edge],
    sorts: u32,
    sort: u32,
    limit: u32,
) -> Result<Option<u32>, AllocError>
    requires within { AreWithin sorts edges.now }
    requires sort { sort < sorts }
    ensures { IfOk result (λ r. MatchOption r (NoneReturns edges.now limit sort) (λ between. (between < limit) × Returns edges.now between sort × NoneReturns edges.now between sort)) }
{
    let mut layer = only(alloc, sorts, sort)?;
    'lengths: for between in 0..limit {
        layer = layer_before(alloc, edges, layer.as_slice())?;
        if layer[sort as usize] {
            return Ok(Some(between));
        }
    }
    Ok(None)
}

/// The least sort at which a cycle with fewest edges begins, or None where no cycle has at most as
/// many edges as there are sorts.
pub fn first_start(alloc: Global, edges: &[Edge], sorts: u32) -> Result<Option<Start>, AllocError>
    requires { AreWithin sorts edges.now }
    ensures { IfOk result (λ r. MatchOption r ((a : ℕ) → a < sorts → NoneReturns edges.now sorts a) (IsStart edges.now sorts)) }
{
    let mut best = None;
    let mut limit = sorts;
    'each: for sort in 0..sorts {
        if let Some(between) = fewest_between(alloc, edges, sorts, sort, limit)? {
            best = Some(Start { sort, between });
            limit = between;
        }
    }
    Ok(best)
}

/// The least marked sort to which an edge leads from this one.
fn least_next(edges: &[Edge], layer: &[bool], sorts: u32, from: u32) -> u32
    requires len { length layer.now ≡ sorts }
    requires some { (b : ℕ) × Among edges.now from b × Marks layer.now b }
    ensures edge { Among edges.now from result }
    ensures marked { Marks layer.now result }
    ensures least { (b : ℕ) → Among edges.now from b → Marks layer.now b → result ≤ b }
{
    'each: for to in 0..sorts {
        if layer[to as usize] && has_edge(edges, from, to) {
            return to;
        }
    }
    unreachable!()
}

/// The cycle with fewest edges that comes first in lexicographic order.
pub fn first_cycle(
    alloc: Global,
    edges: &[Edge],
    sorts: u32,
    start: Start,
) -> Result<Vec<u32>, AllocError>
    requires within { AreWithin sorts edges.now }
    requires start { IsStart edges.now sorts start }
    ensures { IfOk result (λ cycle. IsFirstCycle (Among edges.now) cycle.items) }
{
    let count = start.between + 1;
    let layers = layers(alloc, edges, sorts, start.sort, count)?;
    let mut cycle = Vec::new(alloc);
    cycle.push(start.sort)?;
    let mut at = start.sort;
    'each: for done in 0..count {
        let layer = layers.at((count - 1 - done) as usize).as_slice();
        at = least_next(edges, layer, sorts, at);
        cycle.push(at)?;
    }
    Ok(cycle)
}
