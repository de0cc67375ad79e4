//! Tuples of elements, in lexicographic order: how many there are, the number of a tuple, the tuple
//! of a number, and all of them.

ghost use Rattle.std.specs.Prelude.{◌≡◌, ◌<◌, ◌≤◌, ◌^◌, ◌++◌, ◌∷◌, length, map, slice_index, IfOk, OnOk, MatchOption};
ghost use Rattle.std.specs.List.{All, flat_map, range_with_len};
ghost use Rattle.fo_core.specs.Runs.{AreElements};
ghost use Rattle.fo_core.specs.Tables.{tuples, place as place_of};
ghost use Rattle.fo_core.specs.Tuples.{tuple_at as tuple_at_of, all_tuples as all_tuples_of};

use crate::seq::Seq;
use std::alloc::{AllocError, Global};

/// How many tuples there are of elements of these sorts, where a machine word holds the number.
pub fn tuple_count(sizes: &[u32], sorts: &[u32]) -> Option<u64>
    requires nonempty { All (λ n. 1 ≤ n) sizes.now }
    requires known { All (λ s. s < length sizes.now) sorts.now }
    ensures { MatchOption result (2 ^ 64 ≤ tuples (map (slice_index sizes.now) sorts.now)) (λ n. n ≡ tuples (map (slice_index sizes.now) sorts.now)) }
{
    let mut count: u64 = 1;
    'each: for s in sorts {
        let size = u64::from(sizes[*s as usize]);
        match count.checked_mul(size) {
            Some(more) => count = more,
            None => return None,
        }
    }
    Some(count)
}

/// The place of a tuple of elements of these sorts among all such tuples.
pub fn tuple_place(sizes: &[u32], sorts: &[u32], elements: &[u32]) -> usize
    requires elements { AreElements sizes.now elements.now sorts.now }
    requires few { tuples (map (slice_index sizes.now) sorts.now) < 2 ^ 64 }
    ensures { result ≡ place_of (map (slice_index sizes.now) sorts.now) elements.now }
{
    let mut place = 0;
    'each: for (i, element) in elements.iter().enumerate() {
        let size = sizes[sorts[i] as usize] as usize;
        place = place * size + *element as usize;
    }
    place
}

/// The tuple of elements of these sorts that has this number, from 0 on, in lexicographic order.
///
/// It asks for sizes of at least 1, for sorts below the number of sizes, and for a number below that
/// of all such tuples ([`tuple_count`]). The one error is out of memory.
pub fn tuple_at(
    alloc: Global,
    sizes: &[u32],
    sorts: &[u32],
    number: u64,
) -> Result<Seq<u32>, AllocError>
    requires nonempty { All (λ n. 1 ≤ n) sizes.now }
    requires known { All (λ s. s < length sizes.now) sorts.now }
    requires within { number < tuples (map (slice_index sizes.now) sorts.now) }
    ensures { IfOk result (λ xs. xs ≡ tuple_at_of (map (slice_index sizes.now) sorts.now) number) }
{
    let mut digits = vec![in alloc; 0u32; sorts.len()]?;
    let mut rest = number;
    'each: for i in (0..sorts.len()).rev() {
        let size = u64::from(sizes[sorts[i] as usize]);
        digits[i] = (rest % size) as u32;
        rest /= size;
    }
    Ok(Seq::from_vec(digits))
}

/// The element, and the others behind it.
fn prefixed(alloc: Global, x: u32, xs: &[u32]) -> Result<Seq<u32>, AllocError>
    ensures { IfOk result (λ ys. ys ≡ x ∷ xs.now) }
{
    let mut ys = Vec::new(alloc);
    ys.push(x)?;
    ys.extend_from_slice(xs)?;
    Ok(Seq::from_vec(ys))
}

/// Adds the tuples that have this element before one of the others.
fn add_tuples(
    alloc: Global,
    x: u32,
    others: &[Seq<u32>],
    tuples: &mut Seq<Seq<u32>>,
) -> Result<(), AllocError>
    ensures { OnOk result (tuples.new ≡ tuples.old ++ map (λ xs. x ∷ xs) others.now) }
{
    'each: for xs in others {
        tuples.push(prefixed(alloc, x, xs.as_slice())?)?;
    }
    Ok(())
}

/// The tuples of an element below the size and then one of the others.
#[tactic(auto, using(crate::proofs::Pieces::flat_map_more))]
fn tuples_from(alloc: Global, size: u32, others: &[Seq<u32>]) -> Result<Seq<Seq<u32>>, AllocError>
    ensures { IfOk result (λ ts. ts ≡ flat_map (λ x. map (λ xs. x ∷ xs) others.now) (range_with_len 0 size)) }
{
    let mut tuples = Seq::new(alloc);
    'each: for x in 0..size {
        add_tuples(alloc, x, others, &mut tuples)?;
    }
    Ok(tuples)
}

/// All tuples of elements below these sizes, in lexicographic order.
pub fn all_tuples(alloc: Global, sizes: &[u32]) -> Result<Seq<Seq<u32>>, AllocError>
    ensures { IfOk result (λ ts. ts ≡ all_tuples_of sizes.now) }
{
    let mut tuples = Seq::new(alloc);
    tuples.push(Seq::new(alloc))?;
    'each: for i in (0..sizes.len()).rev() {
        tuples = tuples_from(alloc, sizes[i], tuples.as_slice())?;
    }
    Ok(tuples)
}

/// The sizes of these sorts.
pub fn sizes_of(alloc: Global, sizes: &[u32], sorts: &[u32]) -> Result<Seq<u32>, AllocError>
    requires { All (λ s. s < length sizes.now) sorts.now }
    ensures { IfOk result (λ ns. ns ≡ map (slice_index sizes.now) sorts.now) }
{
    let mut ns = Seq::new(alloc);
    'each: for s in sorts {
        ns.push(sizes[*s as usize])?;
    }
    Ok(ns)
}
