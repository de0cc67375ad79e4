use crate::fixtures::{held_signature, list, numbers, table};
use fo_core::{Names, Seq, Text, World};
use fo_text::{TextFault, world_read, world_text};
use std::alloc::Global;
use std::process::Abort;

/// The names of one sort and a relation.
fn held_names(rt: &impl Abort, alloc: Global) -> Names {
    let node = String::from_str(alloc, "node").expect(rt, "memory");
    let held = String::from_str(alloc, "held").expect(rt, "memory");
    Names {
        sorts: list(rt, alloc, [Text::from_string(node)]),
        symbols: list(rt, alloc, [Text::from_string(held)]),
        steps: Seq::new(alloc),
        definitions: Seq::new(alloc),
    }
}

const HELD: &[u8] = b"world 2\nsort node 2\nfixed\ncopy 0\nheld 0 0\ncopy 1\nheld 0 1\nend\n";

/// The world of that text.
fn world(rt: &impl Abort, alloc: Global) -> World {
    let first = list(rt, alloc, [table(rt, alloc, &[0, 0])]);
    let second = list(rt, alloc, [table(rt, alloc, &[0, 1])]);
    World {
        sizes: numbers(rt, alloc, &[2]),
        fixed: Seq::new(alloc),
        copies: list(rt, alloc, [first, second]),
    }
}

#[test]
fn a_world_made_by_hand_is_written(rt: HostRuntime) {
    let alloc = rt.alloc();
    let sig = held_signature(&rt, alloc);
    let names = held_names(&rt, alloc);
    let world = world(&rt, alloc);
    assert!(rt; sig.is_well_sorted() && names.fit(&sig, 0));
    assert!(rt; world.fits(&sig) && world.copies.len() < 1000);
    let mut into = Vec::new(alloc);
    world_text(alloc, &sig, &names, &world, &mut into).expect(&rt, "memory");
    assert_eq!(rt; into.as_slice(), HELD);
}

#[test]
fn a_cut_text_is_bad_at_its_end(rt: HostRuntime) {
    let alloc = rt.alloc();
    let sig = held_signature(&rt, alloc);
    let names = held_names(&rt, alloc);
    assert!(rt; sig.is_well_sorted() && names.fit(&sig, 0));
    for len in 0..HELD.len() {
        let mut at = 0;
        let read = world_read(alloc, &sig, &names, &HELD[..len], &mut at);
        assert!(rt; matches!(read, Err(TextFault::Bad(place)) if place as usize == len));
    }
}
