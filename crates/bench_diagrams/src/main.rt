//! Calls what compares states, for bench/. Each line of standard input says which call, how often it is
//! made, and of which two worlds, each by its kind and its size: `embeds 100 ring 9 ring 10`. It prints
//! whether the one world embeds in the other, the other meets the diagram of the one, or the diagram of
//! the one covers that of the other.
#![tactic(auto)]

ghost use Rattle.fo_embed.specs.Compared.{CanCompare};
ghost use Rattle.up_diagram.specs.Cubes.{HasPlaces};
ghost use Rattle.up_diagram.specs.Trying.{CanMeet};

mod worlds;

use fo_core::{Sig, World};
use fo_embed::find_embedding;
use std::alloc::Global;
use std::io::{BufRead, BufReader};
use up_diagram::{Cube, Picks, covers, diagram, has_few_elements, meets};
use worlds::{Kind, signature, world};

/// No world has more elements.
const MOST: u32 = 16;

/// Whether the one world embeds in the other.
fn embeds(alloc: Global, times: u32, sig: &Sig, s: &World, t: &World) -> anyhow::Result<bool>
    requires { CanCompare sig.now s.now 0 t.now 0 }
{
    let mut found = false;
    for _ in 0..times {
        found = find_embedding(alloc, sig, s, 0, t, 0)?.is_some();
    }
    Ok(found)
}

/// Whether the world meets the cube.
fn is_met_once(alloc: Global, sig: &Sig, cube: &Cube, t: &World) -> anyhow::Result<bool>
    requires { CanMeet sig.now t.now 0 cube.now }
{
    let vars = u32::try_from(cube.sorts.len())?;
    let mut picks = Picks::new(alloc, vars)?;
    Ok(meets(sig, t, 0, cube, &mut picks))
}

/// Whether the world meets the cube.
fn is_met(alloc: Global, times: u32, sig: &Sig, cube: &Cube, t: &World) -> anyhow::Result<bool>
    requires { CanMeet sig.now t.now 0 cube.now }
{
    let mut found = false;
    for _ in 0..times {
        found = is_met_once(alloc, sig, cube, t)?;
    }
    Ok(found)
}

/// Whether the one cube covers the other.
fn is_covered(alloc: Global, times: u32, d: &Cube, c: &Cube) -> anyhow::Result<bool>
    requires { HasPlaces d.now }
{
    let mut found = false;
    for _ in 0..times {
        found = covers(alloc, d, c)?;
    }
    Ok(found)
}

/// The answer of this call, made so often.
fn answer(
    alloc: Global,
    call: &str,
    times: u32,
    sig: &Sig,
    s: &World,
    t: &World,
) -> anyhow::Result<bool> {
    anyhow::ensure!(sig.is_well_sorted(), "no signature");
    anyhow::ensure!(s.fits(sig) && t.fits(sig), "no worlds");
    anyhow::ensure!(!s.copies.is_empty() && !t.copies.is_empty(), "no copies");
    if call == "embeds" {
        return embeds(alloc, times, sig, s, t);
    }
    anyhow::ensure!(has_few_elements(s) && has_few_elements(t), "large worlds");
    let d = diagram(alloc, sig, s, 0)?;
    if call == "meets" {
        anyhow::ensure!(d.is_well_sorted(sig), "not well-sorted");
        return is_met(alloc, times, sig, &d, t);
    }
    anyhow::ensure!(call == "covers", "no such call");
    anyhow::ensure!(d.has_places(), "no places");
    let c = diagram(alloc, sig, t, 0)?;
    is_covered(alloc, times, &d, &c)
}

/// The kind of this name.
fn kind(name: &str) -> anyhow::Result<Kind> {
    match name {
        "empty" => Ok(Kind::Empty),
        "order" => Ok(Kind::Order),
        "ring" => Ok(Kind::Ring),
        "random" => Ok(Kind::Random(1)),
        "other" => Ok(Kind::Random(2)),
        _ => anyhow::bail!("no such kind"),
    }
}

/// The world of this kind and size.
fn named(alloc: Global, name: &str, size: &str) -> anyhow::Result<World> {
    let size: u32 = size.parse()?;
    anyhow::ensure!(size <= MOST, "too many elements");
    Ok(world(alloc, kind(name)?, size)?)
}

/// The answer that a line asks for.
fn answered(alloc: Global, sig: &Sig, line: &str) -> anyhow::Result<bool> {
    let words: Vec<&str> = line.split_whitespace().collect(alloc)?;
    match words.as_slice() {
        [call, times, from, from_size, to, to_size] => {
            let s = named(alloc, from, from_size)?;
            let t = named(alloc, to, to_size)?;
            answer(alloc, call, times.parse()?, sig, &s, &t)
        }
        _ => anyhow::bail!("six words are wanted"),
    }
}

fn main(rt: HostRuntime) -> anyhow::Result<()> {
    let alloc = rt.alloc();
    let sig = signature(alloc)?;
    for line in BufReader::new(alloc, rt.reader())?.lines(alloc) {
        let line = line?;
        let found = answered(alloc, &sig, &line)?;
        println!(rt; "{line}: {found}")?;
    }
    Ok(())
}
