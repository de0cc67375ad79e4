//! Which elements of a world the numbers of a trial name.
ghost use Rattle.std.specs.Prelude.{◌≡◌, ◌<◌, ⊤, ℕ, slice_index, IfOk, IsTrue, MatchOption};
ghost use Rattle.fo_least.proofs.Naming.{IsNaming, named as named_of};
ghost use Rattle.fo_min.specs.Known.{element_of, IsNamed, IsSortNamed};

use fo_core::{Seq, World};
use std::alloc::{AllocError, Global};

/// The element that number x names, where there is one.
pub fn element(names: &[Seq<u32>], sort: u32, x: u32) -> Option<u32>
    ensures { MatchOption result ⊤ (λ y. y ≡ element_of names.now sort x) }
{
    let own = names.get(sort as usize)?;
    own.as_slice().get(x as usize).copied()
}

/// The elements that these numbers name, where each names one.
#[tactic(auto, using(crate::proofs::NamingLemmas::named_end, crate::proofs::NamingLemmas::named_last, crate::proofs::NamingLemmas::named_step))]
pub fn named(
    alloc: Global,
    names: &[Seq<u32>],
    sorts: &[u32],
    xs: &[u32],
) -> Result<Option<Seq<u32>>, AllocError>
    ensures { IfOk result (λ o.
        MatchOption o ⊤ (λ ys. ys ≡ named_of (element_of names.now) sorts.now xs.now)) }
{
    let mut ys = Seq::new(alloc);
    'each: for (i, s) in sorts.iter().enumerate() {
        if i == xs.len() {
            return Ok(Some(ys));
        }
        match element(names, *s, xs[i]) {
            Some(y) => ys.push(y)?,
            None => return Ok(None),
        }
    }
    Ok(Some(ys))
}

/// Whether one of the first `size` elements of the list is this one.
fn is_named(size: u32, own: &[u32], y: u32) -> bool
    ensures { IsTrue result → IsNamed size own.now y }
{
    'each: for (x, name) in own.iter().enumerate() {
        if *name == y {
            return x < size as usize;
        }
    }
    false
}

/// Whether each number below `size` names an element of a sort that has `most`.
fn is_within(size: u32, most: u32, own: &[u32]) -> bool
    ensures { IsTrue result → (x : ℕ) → x < size → slice_index own.now x < most }
{
    if own.len() < size as usize {
        return false;
    }
    'each: for x in 0..size {
        if own[x as usize] >= most {
            return false;
        }
    }
    true
}

/// Whether the numbers below `size` name all elements of a sort that has `most`, and no others.
fn is_sort_named(size: u32, most: u32, own: &[u32]) -> bool
    ensures { IsTrue result → IsSortNamed size most own.now }
{
    if !is_within(size, most, own) {
        return false;
    }
    'each: for y in 0..most {
        if !is_named(size, own, y) {
            return false;
        }
    }
    true
}

/// Whether the numbers below these sizes name all elements of the world.
pub fn is_naming(world: &World, sizes: &[u32], names: &[Seq<u32>]) -> bool
    ensures { IsTrue result → IsNaming world.now sizes.now (element_of names.now) }
{
    let most = world.sizes.as_slice();
    if most.len() != sizes.len() || names.len() != sizes.len() {
        return false;
    }
    'each: for s in 0..sizes.len() {
        if !is_sort_named(sizes[s], most[s], names[s].as_slice()) {
            return false;
        }
    }
    true
}

/// The numbers below `size`, in an order that the number says: of those that are left, it takes
/// the one at the place of its remainder, and goes on with its quotient.
fn arranged(alloc: Global, size: u32, number: &mut usize) -> Result<Seq<u32>, AllocError> {
    let mut rest = Vec::new(alloc);
    for x in 0..size {
        rest.push(x)?;
    }
    let mut taken = Seq::new(alloc);
    for _i in 0..size {
        let left = rest.len();
        if left == 0 {
            return Ok(taken);
        }
        let at = *number % left;
        *number /= left;
        taken.push(rest.remove(at))?;
    }
    Ok(taken)
}

/// A naming of as many elements as these sizes say. The number 0 gives each element its own number,
/// and each further number another naming, up to one for which there is none left.
pub fn arrangement(
    alloc: Global,
    sizes: &[u32],
    number: usize,
) -> Result<Option<Seq<Seq<u32>>>, AllocError> {
    let mut left = number;
    let mut names = Seq::new(alloc);
    for size in sizes {
        names.push(arranged(alloc, *size, &mut left)?)?;
    }
    if left == 0 { Ok(Some(names)) } else { Ok(None) }
}
