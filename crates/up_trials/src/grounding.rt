//! Forms that are grounded, solved by plain search, and read back as worlds.
ghost use Rattle.fo_core.specs.Sorted.{IsSig};
ghost use Rattle.fo_norm.specs.Forms.{IsForm};

use crate::fixtures::{held_signature, list, numbers};
use crate::formulas::{differ, for_all, for_some, held, not};
use fo_core::{Formula, MOST_WEIGHT, Order, Query, Seq, Sig, World};
use fo_ground::{ground, world_of};
use fo_norm::{SkolemForm, normal};
use fo_terms::{counts, rises, universe, weight};
use prop_core::Answer;
use prop_plain::solve;
use std::alloc::Global;
use std::process::Abort;

/// A world that meets the form, if there is one.
fn find(rt: &impl Abort, alloc: Global, sig: &Sig, form: &SkolemForm) -> Option<World>
    requires sig { IsSig sig.now }
    requires form { IsForm sig.now form.now }
{
    let order = Order {
        numbers: numbers(rt, alloc, &[0]),
    };
    assert!(rt; rises(sig, form, &order));
    let counts = counts(alloc, sig, form, &order).expect(rt, "memory");
    assert!(rt; weight(sig, form, counts.as_slice()) <= MOST_WEIGHT);
    let universe = universe(alloc, sig, form, &order).expect(rt, "memory");
    let grounded = ground(alloc, sig, form, &universe).expect(rt, "memory");
    match solve(alloc, &grounded.cnf).expect(rt, "memory") {
        Answer::Sat(values) => {
            let values = values.as_slice();
            let world = world_of(alloc, sig, form, &grounded, &universe, values);
            Some(world.expect(rt, "memory"))
        }
        Answer::Unsat(_) => None,
    }
}

/// A world of one copy that meets the claims, if there is one.
fn world(rt: &impl Abort, alloc: Global, claims: Seq<Formula>) -> Option<World> {
    let sig = held_signature(rt, alloc);
    assert!(rt; sig.is_well_sorted());
    let query = Query { copies: 1, claims };
    assert!(rt; query.is_well_sorted(alloc, &sig).expect(rt, "memory"));
    let form = normal(alloc, &sig, &query).expect(rt, "memory");
    find(rt, alloc, &sig, &form)
}

#[test]
fn without_symbols_there_is_one_element(rt: HostRuntime) {
    let alloc = rt.alloc();
    let sig = Sig {
        sorts: 1,
        symbols: Seq::new(alloc),
    };
    let form = SkolemForm {
        copies: 1,
        claims: Seq::new(alloc),
        skolems: Seq::new(alloc),
    };
    let world = find(&rt, alloc, &sig, &form).expect(&rt, "no world");
    assert!(rt; world.sizes.as_slice() == [1].as_slice());
    assert_eq!(rt; world.copies.len(), 1);
}

/// Variable 0 isn't held.
fn not_held(rt: &impl Abort, alloc: Global) -> Formula {
    not(rt, alloc, held(rt, alloc, 0, 0))
}

#[test]
fn two_are_not_held_where_none_is(rt: HostRuntime) {
    let alloc = rt.alloc();
    let none = for_all(&rt, alloc, &[0], not_held(&rt, alloc));
    let first = held(&rt, alloc, 0, 0);
    let second = held(&rt, alloc, 0, 1);
    let two = list(&rt, alloc, [first, second, differ(&rt, alloc, 0, 1)]);
    let two = for_some(&rt, alloc, &[0, 0], Formula::And(two));
    assert!(rt; world(&rt, alloc, list(&rt, alloc, [none, two])).is_none());
}

#[test]
fn one_held_and_one_not_are_two_elements(rt: HostRuntime) {
    let alloc = rt.alloc();
    let some = for_some(&rt, alloc, &[0], held(&rt, alloc, 0, 0));
    let not_all = for_some(&rt, alloc, &[0], not_held(&rt, alloc));
    let world = world(&rt, alloc, list(&rt, alloc, [some, not_all]));
    let world = world.expect(&rt, "no world");
    assert!(rt; world.sizes.as_slice() == [2].as_slice());
}
