ghost use Rattle.std.specs.Prelude.{◌≡◌, ◌↔◌, ◌<◌, ℕ, length, IfOk};
ghost use Rattle.pyv_strat.specs.Edges.{Among, AreWithin};
ghost use Rattle.pyv_strat.specs.Walks.{Marks, AreLayers};

use crate::edges::Edge;
use fo_core::Seq;
use std::alloc::{AllocError, Global};

/// The layer that marks this sort alone.
pub fn only(alloc: Global, sorts: u32, sort: u32) -> Result<Vec<bool>, AllocError>
    requires { sort < sorts }
    ensures len { IfOk result (λ layer. length layer.items ≡ sorts) }
    ensures marks { IfOk result (λ layer. (a : ℕ) → Marks layer.items a ↔ (a ≡ sort)) }
{
    let mut layer = vec![in alloc; false; sorts as usize]?;
    layer[sort as usize] = true;
    Ok(layer)
}

/// The layer of the sorts from which an edge leads to a marked one.
pub fn layer_before(alloc: Global, edges: &[Edge], layer: &[bool]) -> Result<Vec<bool>, AllocError>
    requires { AreWithin (length layer.now) edges.now }
    ensures len { IfOk result (λ before. length before.items ≡ length layer.now) }
    ensures marks { IfOk result (λ before. (a : ℕ) → Marks before.items a ↔ ((b : ℕ) × Among edges.now a b × Marks layer.now b)) }
{
    let mut before = vec![in alloc; false; layer.len()]?;
    'each: for e in edges {
        if layer[e.to as usize] {
            before[e.from as usize] = true;
        }
    }
    Ok(before)
}

/// The layers of the walks to the goal of 0 edges, 1 edge and so on, as many as asked.
pub fn layers(
    alloc: Global,
    edges: &[Edge],
    sorts: u32,
    goal: u32,
    count: u32,
) -> Result<Seq<Seq<bool>>, AllocError>
    requires within { AreWithin sorts edges.now }
    requires goal { goal < sorts }
    ensures { IfOk result (λ layers. AreLayers edges.now goal sorts count layers) }
{
    let mut layers = Seq::new(alloc);
    let mut layer = only(alloc, sorts, goal)?;
    'each: for k in 0..count {
        let before = layer_before(alloc, edges, layer.as_slice())?;
        layers.push(Seq::from_vec(layer))?;
        layer = before;
    }
    Ok(layers)
}
