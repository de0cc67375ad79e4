ghost use Rattle.std.specs.Prelude.{◌≡◌, ◌↔◌, length, IsTrue};
ghost use Rattle.fo_core.specs.Embedding.{AreInjections, IsEmbedding};
ghost use Rattle.fo_embed.specs.Compared.{CanCompare};
ghost use Rattle.fo_embed.specs.Placing.{IsInjection, AreDistinct};

use crate::agree::{States, all_agree};
use crate::map::Map;
use fo_core::{Seq, Sig, World};

/// Whether no number stands twice.
fn are_distinct(images: &[u32]) -> bool
    ensures { IsTrue result ↔ AreDistinct images.now }
{
    'each: for j in 0..images.len() {
        if images[..j].contains(&images[j]) {
            return false;
        }
    }
    true
}

/// Whether the images are those of an injective map between sorts of these sizes.
fn is_injection(from: u32, to: u32, images: &[u32]) -> bool
    ensures { IsTrue result ↔ IsInjection from to images.now }
{
    images.len() == from as usize && images.iter().all(|y| *y < to) && are_distinct(images)
}

/// Whether the maps are injective ones between sorts of these sizes, one for each sort.
fn are_injections(from: &[u32], to: &[u32], maps: &[Seq<u32>]) -> bool
    requires { length to.now ≡ length from.now }
    ensures { IsTrue result ↔ AreInjections from.now to.now maps.now }
{
    if maps.len() != from.len() {
        return false;
    }
    'each: for s in 0..maps.len() {
        if !is_injection(from[s], to[s], maps[s].as_slice()) {
            return false;
        }
    }
    true
}

/// Whether the map embeds copy `sc` of the world `s` in copy `tc` of the world `t`: it is injective
/// on each sort, keeps and reflects each relation, and commutes with each function and constant.
///
/// This is the embedding of structures of model theory. The signature has to be well-sorted, both
/// worlds have to fit it, and the copies to be there. It takes no memory.
pub fn is_embedding(sig: &Sig, s: &World, sc: u32, t: &World, tc: u32, m: &Map) -> bool
    requires { CanCompare sig.now s.now sc t.now tc }
    ensures { IsTrue result ↔ IsEmbedding sig.now s.now sc t.now tc m.now.images }
{
    let maps = m.images.as_slice();
    let states = States {
        sig,
        from: s,
        from_copy: sc as usize,
        to: t,
        to_copy: tc as usize,
    };
    are_injections(s.sizes.as_slice(), t.sizes.as_slice(), maps) && all_agree(&states, maps)
}
