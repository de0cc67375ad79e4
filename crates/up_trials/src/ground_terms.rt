use crate::fixtures::{held_signature, list, numbers};
use crate::formulas::{for_all, for_some, held, not};
use fo_core::{Formula, MOST_WEIGHT, Order, Query, Seq, Sig, Symbol, Term};
use fo_norm::normal;
use fo_terms::{Universe, counts, rises, universe_from, weight};
use std::alloc::Global;
use std::process::Abort;

/// What is reckoned for a query about one copy.
#[derive(Drop)]
struct Reckoned {
    counts: Vec<u64>,
    weight: u64,
    universe: Universe,
}

fn reckon(
    rt: &impl Abort,
    alloc: Global,
    sig: &Sig,
    claims: Seq<Formula>,
    sorts: &[u32],
) -> Reckoned {
    let query = Query { copies: 1, claims };
    assert!(rt; sig.is_well_sorted());
    assert!(rt; query.is_well_sorted(alloc, sig).expect(rt, "memory"));
    let form = normal(alloc, sig, &query).expect(rt, "memory");
    let order = Order {
        numbers: numbers(rt, alloc, sorts),
    };
    assert!(rt; rises(sig, &form, &order));
    let counts = counts(alloc, sig, &form, &order).expect(rt, "memory");
    let weight = weight(sig, &form, counts.as_slice());
    assert!(rt; weight <= MOST_WEIGHT);
    let shown = counts.as_slice().to_vec(alloc).expect(rt, "memory");
    let universe = universe_from(alloc, sig, &form, &order, counts).expect(rt, "memory");
    Reckoned {
        weight,
        counts: shown,
        universe,
    }
}

#[test]
fn a_sort_without_constants_has_a_spare_one(rt: HostRuntime) {
    let alloc = rt.alloc();
    let id = Symbol {
        relation: false,
        mutable: false,
        args: numbers(&rt, alloc, &[0]),
        result: 1,
    };
    let sig = Sig {
        sorts: 2,
        symbols: list(&rt, alloc, [id]),
    };
    // For each node there is an id that is its value.
    let value = Term::App(0, 0, list(&rt, alloc, [Term::Var(0)]));
    let some = for_some(&rt, alloc, &[1], Formula::Eq(value, Term::Var(1)));
    let claim = for_all(&rt, alloc, &[0], some);
    let found = reckon(&rt, alloc, &sig, list(&rt, alloc, [claim]), &[0, 1]);
    assert!(rt; found.counts.as_slice() == [1, 2].as_slice());
}

/// It isn't so that nodes that both are held are equal.
fn two_held(rt: &impl Abort, alloc: Global) -> Formula {
    let both = list(rt, alloc, [held(rt, alloc, 0, 0), held(rt, alloc, 0, 1)]);
    let other = not(rt, alloc, Formula::And(both));
    let same = Formula::Eq(Term::Var(0), Term::Var(1));
    let safe = Formula::Or(list(rt, alloc, [other, same]));
    not(rt, alloc, for_all(rt, alloc, &[0, 0], safe))
}

#[test]
fn the_weight_counts_nodes_sorts_and_symbols(rt: HostRuntime) {
    let alloc = rt.alloc();
    let free = not(&rt, alloc, held(&rt, alloc, 0, 0));
    let none = for_all(&rt, alloc, &[0], free);
    let broken = Formula::Or(list(&rt, alloc, [two_held(&rt, alloc)]));
    let claims = list(&rt, alloc, [none, broken]);
    let found = reckon(&rt, alloc, &held_signature(&rt, alloc), claims, &[0]);
    assert!(rt; found.counts.as_slice() == [2].as_slice());
    assert_eq!(rt; found.weight, 29);
}

#[test]
fn a_sort_alone_has_one_term(rt: HostRuntime) {
    let alloc = rt.alloc();
    let sig = Sig {
        sorts: 1,
        symbols: Seq::new(alloc),
    };
    let found = reckon(&rt, alloc, &sig, Seq::new(alloc), &[7]);
    assert!(rt; found.counts.as_slice() == [1].as_slice());
    let universe = found.universe.copy(alloc).expect(&rt, "memory");
    assert_eq!(rt; universe.terms.len(), 1);
    assert_eq!(rt; universe.terms.at(0).symbol, u32::MAX);
}
