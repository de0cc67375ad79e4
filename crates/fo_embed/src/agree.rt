//! Whether the tables of two states agree on the elements that have an image.

ghost use Rattle.std.specs.Prelude.{◌≡◌, ◌↔◌, ◌<◌, length, false, IsTrue};
ghost use Rattle.fo_embed.specs.Compared.{CanCompare};
ghost use Rattle.fo_embed.specs.Placing.{IsPart, IsKept, Agrees, AllAgree};
ghost use Rattle.fo_embed.specs.Asked.{CanWalk, IsBlock, AgreeFrom};

use fo_core::{Seq, Sig, Symbol, Table, World};

/// Two states that are compared: copies of two worlds of one signature.
#[derive(Clone, Copy)]
pub(crate) struct States<'a> {
    pub(crate) sig: &'a Sig,
    pub(crate) from: &'a World,
    pub(crate) from_copy: usize,
    pub(crate) to: &'a World,
    pub(crate) to_copy: usize,
}

/// The tables of one symbol in the two states.
#[derive(Clone, Copy)]
struct Tables<'a> {
    symbol: &'a Symbol,
    here: &'a Seq<u32>,
    there: &'a Seq<u32>,
}

/// Whether the value becomes the other one: a truth value stays, an element goes to its image.
/// Nothing is asked of an element without an image.
fn is_kept(symbol: &Symbol, maps: &[Seq<u32>], here: u32, there: u32) -> bool
    requires known { symbol.now.relation ≡ false → symbol.now.result < length maps.now }
    ensures { IsTrue result ↔ IsKept symbol.now maps.now here there }
{
    if symbol.relation {
        return there == here;
    }
    let images = maps[symbol.result as usize].as_slice();
    here as usize >= images.len() || there == images[here as usize]
}

/// Whether the two tables agree at all tuples that begin as those at these places and go on with
/// elements of these sorts that have an image.
fn agree_from(
    states: &States,
    maps: &[Seq<u32>],
    tables: &Tables,
    sorts: &[u32],
    at: usize,
    to: usize,
) -> bool
    requires walk { CanWalk states.now.from.now states.now.to.now maps.now tables.now.symbol.now sorts.now }
    requires here { IsBlock states.now.from.now.sizes sorts.now at tables.now.here.now }
    requires there { IsBlock states.now.to.now.sizes sorts.now to tables.now.there.now }
    ensures { IsTrue result ↔ AgreeFrom states.now.from.now.sizes states.now.to.now.sizes maps.now tables.now.symbol.now tables.now.here.now tables.now.there.now sorts.now at to }
{
    if sorts.is_empty() {
        return is_kept(
            tables.symbol,
            maps,
            *tables.here.at(at),
            *tables.there.at(to),
        );
    }
    let _cells = tables.here.len();
    let _cells_to = tables.there.len();
    let sort = sorts[0] as usize;
    let from_size = *states.from.sizes.at(sort) as usize;
    let to_size = *states.to.sizes.at(sort) as usize;
    'each: for (x, image) in maps[sort].as_slice().iter().enumerate() {
        let next = at * from_size + x;
        let next_to = to * to_size + *image as usize;
        if !agree_from(states, maps, tables, &sorts[1..], next, next_to) {
            return false;
        }
    }
    true
}

/// Whether the tables of the symbol agree at all tuples of elements that have an image.
fn agrees(states: &States, maps: &[Seq<u32>], symbol: usize) -> bool
    requires compared { CanCompare states.now.sig.now states.now.from.now states.now.from_copy states.now.to.now states.now.to_copy }
    requires part { IsPart states.now.from.now.sizes states.now.to.now.sizes maps.now }
    requires within { symbol < length states.now.sig.now.symbols }
    ensures { IsTrue result ↔ Agrees states.now.sig.now states.now.from.now states.now.from_copy states.now.to.now states.now.to_copy maps.now symbol }
{
    let here = states.from.table(states.sig, states.from_copy, symbol);
    let there = states.to.table(states.sig, states.to_copy, symbol);
    let symbol = states.sig.symbols.at(symbol);
    let tables = Tables {
        symbol,
        here: &here.values,
        there: &there.values,
    };
    agree_from(states, maps, &tables, symbol.args.as_slice(), 0, 0)
}

/// Whether all tables agree at all tuples of elements that have an image.
pub(crate) fn all_agree(states: &States, maps: &[Seq<u32>]) -> bool
    requires compared { CanCompare states.now.sig.now states.now.from.now states.now.from_copy states.now.to.now states.now.to_copy }
    requires part { IsPart states.now.from.now.sizes states.now.to.now.sizes maps.now }
    ensures { IsTrue result ↔ AllAgree states.now.sig.now states.now.from.now states.now.from_copy states.now.to.now states.now.to_copy maps.now }
{
    'each: for k in 0..states.sig.symbols.len() {
        if !agrees(states, maps, k) {
            return false;
        }
    }
    true
}
