use crate::fixtures::{list, numbers, table};
use fo_core::{Sig, Symbol, World};
use fo_embed::{Map, find_embedding, is_embedding};
use std::alloc::Global;
use std::process::Abort;

/// One sort, a mutable relation of two elements, and an immutable constant.
fn graphs(rt: &impl Abort, alloc: Global) -> Sig {
    let edge = Symbol {
        relation: true,
        mutable: true,
        args: numbers(rt, alloc, &[0, 0]),
        result: 0,
    };
    let root = Symbol {
        relation: false,
        mutable: false,
        args: numbers(rt, alloc, &[]),
        result: 0,
    };
    Sig {
        sorts: 1,
        symbols: list(rt, alloc, [edge, root]),
    }
}

/// A world of one copy over so many elements, with these edges and this constant.
fn graph(rt: &impl Abort, alloc: Global, size: u32, edges: &[u32], root: u32) -> World {
    let copy = list(rt, alloc, [table(rt, alloc, edges)]);
    World {
        sizes: numbers(rt, alloc, &[size]),
        fixed: list(rt, alloc, [table(rt, alloc, &[root])]),
        copies: list(rt, alloc, [copy]),
    }
}

fn is_map(map: &Map, images: &[u32]) -> bool {
    map.images.len() == 1 && map.images.at(0).as_slice() == images
}

/// The first embedding of the one world in the other has these images.
fn first_is(rt: &impl Abort, alloc: Global, s: &World, t: &World, images: &[u32]) {
    let sig = graphs(rt, alloc);
    assert!(rt; sig.is_well_sorted() && s.fits(&sig) && t.fits(&sig));
    let found = find_embedding(alloc, &sig, s, 0, t, 0).expect(rt, "memory");
    let found = found.expect(rt, "no embedding");
    assert!(rt; is_embedding(&sig, s, 0, t, 0, &found));
    assert!(rt; is_map(&found.copy(alloc).expect(rt, "memory"), images));
}

/// There is no embedding of the one world in the other, and the map with these images is none.
fn none_is(rt: &impl Abort, alloc: Global, s: &World, t: &World, images: &[u32]) {
    let sig = graphs(rt, alloc);
    assert!(rt; sig.is_well_sorted() && s.fits(&sig) && t.fits(&sig));
    let found = find_embedding(alloc, &sig, s, 0, t, 0).expect(rt, "memory");
    assert!(rt; found.is_none());
    let tried = Map {
        images: list(rt, alloc, [numbers(rt, alloc, images)]),
    };
    assert!(rt; !is_embedding(&sig, s, 0, t, 0, &tried));
}

#[test]
fn the_first_is_found(rt: HostRuntime) {
    let alloc = rt.alloc();
    let path = graph(&rt, alloc, 2, &[0, 1, 0, 0], 0);
    let there = graph(&rt, alloc, 3, &[0, 0, 0, 1, 0, 1, 0, 0, 0], 1);
    first_is(&rt, alloc, &path, &there, &[1, 0]);
    first_is(&rt, alloc, &path, &path, &[0, 1]);
}

#[test]
fn relations_are_reflected(rt: HostRuntime) {
    let alloc = rt.alloc();
    let empty = graph(&rt, alloc, 2, &[0, 0, 0, 0], 0);
    let path = graph(&rt, alloc, 2, &[0, 1, 0, 0], 0);
    none_is(&rt, alloc, &empty, &path, &[0, 1]);
    none_is(&rt, alloc, &path, &empty, &[0, 1]);
}

#[test]
fn maps_are_injective(rt: HostRuntime) {
    let alloc = rt.alloc();
    let two = graph(&rt, alloc, 2, &[0, 0, 0, 0], 0);
    let one = graph(&rt, alloc, 1, &[0], 0);
    none_is(&rt, alloc, &two, &one, &[0, 0]);
    first_is(&rt, alloc, &one, &two, &[0]);
}
