//! Systems in which nodes grab something, and at most one is to hold it.
ghost use Rattle.up_diagram.specs.Cubes.{IsCube};

use crate::fixtures::state;
use fo_core::{Sig, World};
use std::alloc::Global;
use std::process::Abort;
use up_diagram::{Cube, diagram, has_few_elements};

/// Nodes grab one after the other, whether or not another one holds it.
pub const ANY_GRABS: &str = "sort node
mutable relation held(node)
init !held(N)
transition grab(n: node)
  modifies held
  new(held(N)) <-> held(N) | N = n
safety [one] held(N1) & held(N2) -> N1 = N2
";

/// A node grabs only where none holds it.
pub const FREE_GRABS: &str = "sort node
mutable relation held(node)
init !held(N)
transition grab(n: node)
  modifies held
  & (forall M. !held(M))
  & (new(held(N)) <-> held(N) | N = n)
safety [one] held(N1) & held(N2) -> N1 = N2
";

/// The state of two nodes, both held.
pub fn both_held(rt: &impl Abort, alloc: Global) -> World {
    state(rt, alloc, 2, &[1, 1])
}

/// The diagram of that state.
pub fn two_held(rt: &impl Abort, alloc: Global, sig: &Sig) -> Cube
    ensures { IsCube sig.now result }
{
    let w = both_held(rt, alloc);
    assert!(rt; sig.is_well_sorted() && w.fits(sig));
    assert!(rt; !w.copies.is_empty() && has_few_elements(&w));
    let cube = diagram(alloc, sig, &w, 0).expect(rt, "memory");
    assert!(rt; cube.is_well_sorted(sig));
    cube
}

/// Whether the world is a step of two nodes, of which the second is held before and both after.
pub fn is_second_grab(w: &World) -> bool {
    if w.copies.len() != 2 || w.sizes.as_slice() != [2].as_slice() {
        return false;
    }
    has_values(w, 0, &[0, 1]) && has_values(w, 1, &[1, 1])
}

/// Whether the copy has these values in its only table.
fn has_values(w: &World, copy: usize, values: &[u32]) -> bool {
    match w.copies.as_slice().get(copy) {
        Some(tables) => tables.len() == 1 && tables.at(0).values.as_slice() == values,
        None => false,
    }
}
