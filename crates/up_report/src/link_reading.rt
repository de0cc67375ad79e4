//! Reading the links of a chain.

ghost use Rattle.std.specs.Prelude.{◌≡◌, ◌==◌, if◌then◌else◌, ◌-◌, ◌<◌, ◌≤◌, length};
ghost use Rattle.std.specs.List.{All};
ghost use Rattle.fo_core.specs.Sorted.{IsSig};
ghost use Rattle.fo_text.specs.Texts.{NamesEach, HasText};
ghost use Rattle.fo_text.specs.Reading.{Gives, number_at, values_at};
ghost use Rattle.up_report.specs.Reading.{map_at, maps_at, state_at, link_at, links_at};

use fo_core::{Names, Seq, Sig, Text, World};
use fo_embed::Map;
use fo_text::{Halt, literal, number, world_of_copies};
use std::alloc::Global;
use up_claims::Link;

/// What stands after an image that this many follow in its line: a space, or the line's end.
fn ending(following: u32) -> u8
    ensures is { result ≡ (if following == 0 then 10 else 32) }
    ensures below { result < 48 }
{
    if following == 0 { b'\n' } else { b' ' }
}

/// Reads an image up to `most` and the byte that ends it.
fn read_image(bytes: &[u8], most: u32, ending: u8) -> Result<(u32, &[u8]), Halt>
    requires { ending < 48 }
    ensures { Gives (λ x. (x.0, x.1.now)) result (number_at 0 most ending bytes.now) }
{
    let (image, rest) = number(bytes, 0, u64::from(most), ending)?;
    Ok((image as u32, rest))
}

/// Reads this many images up to `most` and the end of their line.
fn read_images(
    alloc: Global,
    count: u32,
    most: u32,
    bytes: &[u8],
) -> Result<(Seq<u32>, &[u8]), Halt>
    ensures { Gives (λ x. (x.0, x.1.now)) result (values_at count most bytes.now) }
{
    let mut images = Seq::new(alloc);
    let mut rest = bytes;
    'each: for i in 0..count {
        let (image, after) = read_image(rest, most, ending(count - i - 1))?;
        images.push(image)?;
        rest = after;
    }
    Ok((images, rest))
}

/// Reads the line of a sort's map, from this many elements to a sort of size `to`.
#[tactic(auto, unfolding(crate::specs::Reading::map_at))]
fn read_map<'a>(
    alloc: Global,
    name: &Text,
    from: u32,
    to: u32,
    bytes: &'a [u8],
) -> Result<(Seq<u32>, &'a [u8]), Halt>
    requires { 1 ≤ to }
    ensures { Gives (λ x. (x.0, x.1.now)) result (map_at name.now from to bytes.now) }
{
    let rest = literal(bytes, b"map ")?;
    let rest = literal(rest, name.as_str().as_bytes())?;
    let rest = literal(rest, b" ")?;
    read_images(alloc, from, to - 1, rest)
}

/// Reads the lines of the maps of sorts of these names and sizes.
fn read_maps<'a>(
    alloc: Global,
    names: &[Text],
    from: &[u32],
    to: &[u32],
    bytes: &'a [u8],
) -> Result<(Seq<Seq<u32>>, &'a [u8]), Halt>
    requires from_each { length from.now ≡ length names.now }
    requires to_each { length to.now ≡ length names.now }
    requires nonempty { All (λ n. 1 ≤ n) to.now }
    ensures { Gives (λ x. (x.0, x.1.now)) result (maps_at names.now from.now to.now bytes.now) }
{
    let mut maps = Seq::new(alloc);
    let mut rest = bytes;
    'each: for (i, name) in names.iter().enumerate() {
        let (images, after) = read_map(alloc, name, from[i], to[i], rest)?;
        maps.push(images)?;
        rest = after;
    }
    Ok((maps, rest))
}

/// Reads what follows a link's origin.
#[tactic(auto, unfolding(crate::specs::Reading::state_at))]
fn read_state<'a>(
    alloc: Global,
    sig: &Sig,
    names: &Names,
    origin: World,
    bytes: &'a [u8],
) -> Result<(Link, &'a [u8]), Halt>
    requires signature { IsSig sig.now }
    requires named { NamesEach sig.now names.now }
    requires text { HasText sig.now origin }
    ensures { Gives (λ x. (x.0, x.1.now)) result (state_at sig.now names.now origin bytes.now) }
{
    let (state, rest) = world_of_copies(alloc, sig, names, 1, bytes)?;
    let (images, rest) = read_maps(
        alloc,
        names.sorts.as_slice(),
        state.sizes.as_slice(),
        origin.sizes.as_slice(),
        rest,
    )?;
    let map = Map { images };
    Ok((Link { origin, state, map }, rest))
}

/// Reads a link with an origin of this many copies.
#[tactic(auto, unfolding(crate::specs::Reading::link_at))]
fn read_link<'a>(
    alloc: Global,
    sig: &Sig,
    names: &Names,
    copies: u32,
    bytes: &'a [u8],
) -> Result<(Link, &'a [u8]), Halt>
    requires signature { IsSig sig.now }
    requires named { NamesEach sig.now names.now }
    requires some { 1 ≤ copies }
    ensures { Gives (λ x. (x.0, x.1.now)) result (link_at sig.now names.now copies bytes.now) }
{
    let (origin, rest) = world_of_copies(alloc, sig, names, copies, bytes)?;
    read_state(alloc, sig, names, origin, rest)
}

/// Reads this many links, the first with an origin of one copy, and each other with one of two.
pub fn read_links<'a>(
    alloc: Global,
    sig: &Sig,
    names: &Names,
    count: u32,
    bytes: &'a [u8],
) -> Result<(Seq<Link>, &'a [u8]), Halt>
    requires signature { IsSig sig.now }
    requires named { NamesEach sig.now names.now }
    ensures { Gives (λ x. (x.0, x.1.now)) result (links_at sig.now names.now count 1 bytes.now) }
{
    let mut links = Seq::new(alloc);
    let mut rest = bytes;
    let mut copies = 1;
    'each: for _i in 0..count {
        let (link, after) = read_link(alloc, sig, names, copies, rest)?;
        links.push(link)?;
        rest = after;
        copies = 2;
    }
    Ok((links, rest))
}
