use crate::fixtures::{held_signature, list, numbers, state};
use crate::grabs::two_held;
use fo_core::{Formula, Seq, Sig};
use std::alloc::Global;
use std::process::Abort;
use up_diagram::{Cube, Flat, Picks, claim, clause, covers, meets, without};

/// The cube that says that variable 0, the only one, is held.
fn one_held(rt: &impl Abort, alloc: Global) -> Cube {
    let held = Flat::Fact(true, 0, numbers(rt, alloc, &[0]));
    Cube {
        sorts: numbers(rt, alloc, &[0]),
        lits: list(rt, alloc, [held]),
    }
}

fn is_held(lit: &Flat, variable: u32) -> bool {
    match lit {
        Flat::Fact(sign, r, variables) => {
            *sign && *r == 0 && variables.len() == 1 && *variables.at(0) == variable
        }
        _ => false,
    }
}

fn is_differ(lit: &Flat, first: u32, second: u32) -> bool {
    match lit {
        Flat::Differ(i, j) => *i == first && *j == second,
        _ => false,
    }
}

/// The diagram of the state of two held elements.
fn both_held(rt: &impl Abort, alloc: Global) -> Cube {
    two_held(rt, alloc, &held_signature(rt, alloc))
}

#[test]
fn the_diagram_says_all(rt: HostRuntime) {
    let cube = both_held(&rt, rt.alloc());
    assert_eq!(rt; cube.sorts.len(), 2);
    assert_eq!(rt; cube.lits.len(), 3);
    assert!(rt; is_differ(cube.lits.at(0), 0, 1));
    assert!(rt; is_held(cube.lits.at(1), 0));
    assert!(rt; is_held(cube.lits.at(2), 1));
}

/// Whether the one cube covers the other.
fn is_cover(rt: &impl Abort, alloc: Global, general: &Cube, special: &Cube) -> bool {
    assert!(rt; general.has_places() && special.has_places());
    covers(alloc, general, special).expect(rt, "memory")
}

#[test]
fn cubes_cover_others(rt: HostRuntime) {
    let alloc = rt.alloc();
    let cube = both_held(&rt, alloc);
    let one = one_held(&rt, alloc);
    let empty = Cube {
        sorts: Seq::new(alloc),
        lits: Seq::new(alloc),
    };
    assert!(rt; is_cover(&rt, alloc, &cube, &cube));
    assert!(rt; is_cover(&rt, alloc, &empty, &cube));
    assert!(rt; !is_cover(&rt, alloc, &cube, &one));
    assert!(rt; is_cover(&rt, alloc, &one, &cube));
}

/// The cube without the literal of this place.
fn less(rt: &impl Abort, alloc: Global, cube: &Cube, place: u32) -> Cube {
    assert!(rt; cube.has_places() && (place as usize) < cube.lits.len());
    without(alloc, cube, place).expect(rt, "memory")
}

#[test]
fn literals_are_left_out(rt: HostRuntime) {
    let alloc = rt.alloc();
    let cube = both_held(&rt, alloc).copy(alloc).expect(&rt, "memory");
    assert_eq!(rt; cube.lits.len(), 3);
    let two = less(&rt, alloc, &cube, 2);
    assert_eq!(rt; two.sorts.len(), 2);
    assert_eq!(rt; two.lits.len(), 2);
    let one = less(&rt, alloc, &two, 0);
    assert_eq!(rt; one.sorts.len(), 1);
    assert_eq!(rt; one.lits.len(), 1);
    assert!(rt; is_held(one.lits.at(0), 0));
}

/// Whether the state of this size and these held elements meets the cube.
fn is_met(rt: &impl Abort, alloc: Global, sig: &Sig, size: u32, held: &[u32], cube: &Cube) -> bool {
    let w = state(rt, alloc, size, held);
    assert!(rt; sig.is_well_sorted() && w.fits(sig) && !w.copies.is_empty());
    assert!(rt; cube.is_well_sorted(sig) && cube.sorts.len() <= 2);
    let mut picks = Picks::new(alloc, 2).expect(rt, "memory");
    meets(sig, &w, 0, cube, &mut picks)
}

#[test]
fn states_meet_cubes(rt: HostRuntime) {
    let alloc = rt.alloc();
    let sig = held_signature(&rt, alloc);
    let cube = both_held(&rt, alloc);
    assert!(rt; is_met(&rt, alloc, &sig, 2, &[1, 1], &cube));
    assert!(rt; is_met(&rt, alloc, &sig, 3, &[1, 0, 1], &cube));
    assert!(rt; !is_met(&rt, alloc, &sig, 3, &[1, 0, 0], &cube));
    assert!(rt; is_met(&rt, alloc, &sig, 3, &[1, 0, 0], &one_held(&rt, alloc)));
}

#[test]
fn sentences_speak_of_a_copy(rt: HostRuntime) {
    let alloc = rt.alloc();
    let sig = held_signature(&rt, alloc);
    let cube = one_held(&rt, alloc);
    assert!(rt; cube.is_well_sorted(&sig));
    let said = claim(alloc, &sig, &cube, 3).expect(&rt, "memory");
    let denied = clause(alloc, &sig, &cube, 0).expect(&rt, "memory");
    assert!(rt; matches!(said, Formula::Ex(0, _)));
    assert!(rt; matches!(denied, Formula::All(0, _)));
}
