ghost use Rattle.std.specs.Prelude.{◌≡◌, ◌↔◌, IsTrue, OnOk};
ghost use Rattle.std.specs.List.{Contains};
ghost use Rattle.pyv_strat.specs.Edges.{Among, Adds};

use std::alloc::AllocError;

/// An edge of the sort graph.
#[derive(Clone, Copy, Debug, PartialEq, Eq)]
pub struct Edge {
    pub from: u32,
    pub to: u32,
}

/// Whether there is an edge from the one sort to the other.
pub fn has_edge(edges: &[Edge], from: u32, to: u32) -> bool
    ensures { IsTrue result ↔ Among edges.now from to }
{
    edges.iter().any(|e| e.from == from && e.to == to)
}

/// Adds the edge, unless it is there.
fn add(edges: &mut Vec<Edge>, from: u32, to: u32) -> Result<(), AllocError>
    ensures { OnOk result (Adds edges.old.items edges.new.items (λ a b. (from ≡ a) × (to ≡ b))) }
{
    if !has_edge(edges.as_slice(), from, to) {
        edges.push(Edge { from, to })?;
    }
    Ok(())
}

/// Adds an edge from each of these sorts.
pub fn add_from_each(edges: &mut Vec<Edge>, above: &[u32], to: u32) -> Result<(), AllocError>
    ensures { OnOk result (Adds edges.old.items edges.new.items (λ a b. Contains above.now a × (to ≡ b))) }
{
    'each: for from in above {
        add(edges, *from, to)?;
    }
    Ok(())
}
