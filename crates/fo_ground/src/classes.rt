ghost use Rattle.std.specs.Prelude.{◌≡◌, ◌<◌, ◌≤◌, ℕ, List, length, map, slice_index_or, IfOk};
ghost use Rattle.std.specs.List.{All, list_any, position_or_len, range_with_len};
ghost use Rattle.prop_core.specs.Formula.{value_of};
ghost use Rattle.fo_terms.specs.Universe.{IsOf};
ghost use Rattle.fo_ground.specs.Classes.{heads_of};
ghost use Rattle.fo_ground.specs.Reading.{AreRead};
ghost use Rattle.fo_ground.specs.Layout.{IsLaidOut, slot, same_by, fact_by};

use crate::layout::Layout;
use crate::place::same;
use fo_core::Seq;
use fo_terms::Universe;
use std::alloc::{AllocError, Global};

/// How many classes each sort has, the first terms of these, and the number of each term's class in
/// its sort.
#[derive(Drop)]
pub struct Classes {
    pub sizes: Seq<u32>,
    pub heads: Seq<Seq<u32>>,
    pub numbers: Seq<u32>,
}

/// The number of a term's class among these first terms, or how many these are where it has none.
fn class_number(lay: &Layout, u: &Universe, values: &[bool], heads: &[u32], p: u32) -> usize
    requires ready { IsLaidOut u.now lay.now }
    requires sorted { (sort : ℕ) × All (IsOf u.now.terms sort) heads.now × IsOf u.now.terms sort p }
    requires long { lay.now.base ≤ length values.now }
    ensures { result ≡ position_or_len (λ q. same_by u.now lay.now (value_of values.now) q p) heads.now }
{
    'each: for (i, q) in heads.iter().enumerate() {
        if values[same(lay, u, *q, p) as usize] {
            return i;
        }
    }
    heads.len()
}

/// Of each class of a sort the term that stands first.
fn heads(
    alloc: Global,
    lay: &Layout,
    u: &Universe,
    values: &[bool],
    sort: u32,
) -> Result<Seq<u32>, AllocError>
    requires ready { IsLaidOut u.now lay.now }
    requires sort { sort < lay.now.sig.sorts }
    requires long { lay.now.base ≤ length values.now }
    ensures { IfOk result (λ hs. hs ≡ heads_of u.now.terms (slot u.now lay.now) (same_by u.now lay.now (value_of values.now)) (fact_by u.now lay.now (value_of values.now)) sort) }
{
    let mut heads = Vec::new(alloc);
    let first = *u.firsts.at(sort as usize);
    let end = first + *lay.sizes.at(sort as usize);
    'each: for p in first..end {
        let number = class_number(lay, u, values, heads.as_slice(), p);
        if number == heads.len() {
            heads.push(p)?;
        }
    }
    Ok(Seq::from_vec(heads))
}

/// The first terms of the classes of each sort.
fn all_heads(
    alloc: Global,
    lay: &Layout,
    u: &Universe,
    values: &[bool],
) -> Result<Seq<Seq<u32>>, AllocError>
    requires ready { IsLaidOut u.now lay.now }
    requires long { lay.now.base ≤ length values.now }
    ensures { IfOk result (λ all. all ≡ map (heads_of u.now.terms (slot u.now lay.now) (same_by u.now lay.now (value_of values.now)) (fact_by u.now lay.now (value_of values.now))) (range_with_len 0 lay.now.sig.sorts)) }
{
    let mut all = Vec::with_capacity(alloc, lay.sig.sorts as usize)?;
    'each: for sort in 0..lay.sig.sorts {
        all.push(heads(alloc, lay, u, values, sort)?)?;
    }
    Ok(Seq::from_vec(all))
}

/// How many classes each sort has.
fn sizes(
    alloc: Global,
    lay: &Layout,
    u: &Universe,
    heads: &[Seq<u32>],
) -> Result<Seq<u32>, AllocError>
    requires ready { IsLaidOut u.now lay.now }
    requires few { (k : ℕ) (d : List ℕ) → k < length heads.now → length (slice_index_or heads.now k d) ≤ length u.now.terms }
    ensures { IfOk result (λ sizes. sizes ≡ map length heads.now) }
{
    let mut sizes = Vec::with_capacity(alloc, heads.len())?;
    'each: for of_sort in heads {
        sizes.push(of_sort.len() as u32)?;
    }
    Ok(Seq::from_vec(sizes))
}

/// The classes of the ground terms that the values say are the same.
pub fn read_classes(
    alloc: Global,
    lay: &Layout,
    u: &Universe,
    values: &[bool],
) -> Result<Classes, AllocError>
    requires ready { IsLaidOut u.now lay.now }
    requires long { lay.now.base ≤ length values.now }
    ensures { IfOk result (AreRead u.now lay.now (value_of values.now)) }
{
    let heads = all_heads(alloc, lay, u, values)?;
    let mut numbers = Vec::with_capacity(alloc, u.terms.len())?;
    'each: for p in 0..u.terms.len() as u32 {
        let sort = u.terms.at(p as usize).sort as usize;
        let of_sort = heads.at(sort).as_slice();
        numbers.push(class_number(lay, u, values, of_sort, p) as u32)?;
    }
    Ok(Classes {
        sizes: sizes(alloc, lay, u, heads.as_slice())?,
        heads,
        numbers: Seq::from_vec(numbers),
    })
}
