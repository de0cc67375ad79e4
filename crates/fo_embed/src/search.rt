ghost use Rattle.std.specs.Prelude.{◌≡◌, ◌↔◌, ◌<◌, ◌-◌, [], ℕ, List, true, false, length, take, slice_index, slice_index_or, IsTrue, IfOk, MatchOption};
ghost use Rattle.std.specs.List.{Contains};
ghost use Rattle.fo_core.specs.Embedding.{IsEmbedding};
ghost use Rattle.fo_embed.specs.Compared.{CanCompare, IsFirstEmbedding};
ghost use Rattle.fo_embed.specs.Placing.{IsPart, AllAgree, with_image};
ghost use Rattle.fo_embed.specs.Searching.{AreNoLarger, IsBegun, IsFirstBehind, HasNoneBehind, HasNoneWith};

use crate::agree::{States, all_agree};
use crate::map::Map;
use fo_core::{Seq, Sig, World};
use std::alloc::{AllocError, Global};
use std::mem;

/// Whether no sort has more elements in the one world than in the other.
fn are_no_larger(from: &[u32], to: &[u32]) -> bool
    requires { length to.now ≡ length from.now }
    ensures { IsTrue result ↔ AreNoLarger from.now to.now }
{
    'each: for s in 0..from.len() {
        if from[s] > to[s] {
            return false;
        }
    }
    true
}

/// Whether the number is one of these.
fn is_among(images: &[u32], image: u32) -> bool
    ensures { IsTrue result ↔ Contains images.now image }
{
    images.contains(&image)
}

/// Takes the last number off.
fn take_last(alloc: Global, list: &mut Seq<u32>)
    ensures { list.new ≡ take (length list.old - 1) list.old }
{
    let mut items = mem::replace(list, Seq::new(alloc)).into_vec();
    items.pop();
    *list = Seq::from_vec(items);
}

/// Gives the next element of the sort this image, where the tables then agree as far as elements
/// have images. Else nothing changes.
fn put(
    alloc: Global,
    states: &States,
    maps: &mut [Seq<u32>],
    sort: usize,
    image: u32,
) -> Result<bool, AllocError>
    requires compared { CanCompare states.now.sig.now states.now.from.now states.now.from_copy states.now.to.now states.now.to_copy }
    requires begun { IsBegun states.now.sig.now states.now.from.now states.now.from_copy states.now.to.now states.now.to_copy maps.old sort }
    requires within { sort < length maps.old }
    requires more { length (slice_index_or maps.old sort []) < slice_index states.now.from.now.sizes sort }
    requires in_range { image < slice_index states.now.to.now.sizes sort }
    ensures put { IfOk result (λ put. put ≡ true → maps.new ≡ with_image maps.old sort image) }
    ensures begun { IfOk result (λ put. put ≡ true → IsBegun states.now.sig.now states.now.from.now states.now.from_copy states.now.to.now states.now.to_copy maps.new sort) }
    ensures same { IfOk result (λ put. put ≡ false → maps.new ≡ maps.old) }
    ensures none { IfOk result (λ put. put ≡ false → HasNoneWith states.now.sig.now states.now.from.now states.now.from_copy states.now.to.now states.now.to_copy maps.old sort image) }
{
    if is_among(maps[sort].as_slice(), image) {
        return Ok(false);
    }
    maps[sort].push(image)?;
    if all_agree(states, maps) {
        return Ok(true);
    }
    take_last(alloc, &mut maps[sort]);
    Ok(false)
}

/// Gives images to the elements that have none, from this sort on, so that the maps are the first
/// embedding that begins with what they are. Where there is none they stay as they are.
fn place(
    alloc: Global,
    states: &States,
    maps: &mut [Seq<u32>],
    sort: usize,
) -> Result<bool, AllocError>
    requires compared { CanCompare states.now.sig.now states.now.from.now states.now.from_copy states.now.to.now states.now.to_copy }
    requires begun { IsBegun states.now.sig.now states.now.from.now states.now.from_copy states.now.to.now states.now.to_copy maps.old sort }
    ensures found { IfOk result (λ found. found ≡ true → IsFirstBehind states.now.sig.now states.now.from.now states.now.from_copy states.now.to.now states.now.to_copy maps.old maps.new) }
    ensures none { IfOk result (λ found. found ≡ false → HasNoneBehind states.now.sig.now states.now.from.now states.now.from_copy states.now.to.now states.now.to_copy maps.old) }
    ensures same { IfOk result (λ found. found ≡ false → maps.new ≡ maps.old) }
{
    if sort == maps.len() {
        return Ok(true);
    }
    if maps[sort].len() == *states.from.sizes.at(sort) as usize {
        return place(alloc, states, maps, sort + 1);
    }
    let count = *states.to.sizes.at(sort);
    'each: for image in 0..count {
        if !put(alloc, states, maps, sort, image)? {
            continue;
        }
        if place(alloc, states, maps, sort)? {
            return Ok(true);
        }
        take_last(alloc, &mut maps[sort]);
    }
    Ok(false)
}

/// The first map that embeds copy `sc` of the world `s` in copy `tc` of the world `t`, in
/// lexicographic order of the images, sort by sort, or None where there is no embedding.
///
/// It asks for what [`is_embedding`](crate::is_embedding) asks. An element is given an image only
/// where all tables agree on the elements that have one so far, and none is tried where a sort of
/// the world `s` is larger than that of `t`. The one error is out of memory.
pub fn find_embedding(
    alloc: Global,
    sig: &Sig,
    s: &World,
    sc: u32,
    t: &World,
    tc: u32,
) -> Result<Option<Map>, AllocError>
    requires { CanCompare sig.now s.now sc t.now tc }
    ensures { IfOk result (λ found. MatchOption found ((maps : List (List ℕ)) → ¬ IsEmbedding sig.now s.now sc t.now tc maps) (λ m. IsFirstEmbedding sig.now s.now sc t.now tc m.images)) }
{
    let states = States {
        sig,
        from: s,
        from_copy: sc as usize,
        to: t,
        to_copy: tc as usize,
    };
    if !are_no_larger(s.sizes.as_slice(), t.sizes.as_slice()) {
        return Ok(None);
    }
    let mut maps = Vec::new(alloc);
    'each: for _i in 0..s.sizes.len() {
        maps.push(Seq::new(alloc))?;
    }
    if !all_agree(&states, maps.as_slice()) {
        return Ok(None);
    }
    if !place(alloc, &states, maps.as_mut_slice(), 0)? {
        return Ok(None);
    }
    Ok(Some(Map {
        images: Seq::from_vec(maps),
    }))
}
