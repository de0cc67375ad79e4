use crate::fixtures::{held_signature, list, numbers, system, table};
use crate::formulas::for_some;
use fo_core::{Cell, Formula, Names, Query, Seq, Term, Text, World, all_tuples, tuple_at};
use std::alloc::Global;
use std::process::Abort;

/// All nodes are always held.
const ALL_HELD: &str = "sort node
mutable relation held(node)
transition idle(n: node)
  true
safety held(X)
";

#[test]
fn systems_are_sorted_or_not(rt: HostRuntime) {
    let alloc = rt.alloc();
    let mut sys = system(&rt, alloc, ALL_HELD);
    assert!(rt; sys.is_well_sorted(alloc).expect(&rt, "memory"));
    assert!(rt; sys.copy(alloc).expect(&rt, "memory").same(&sys));
    assert!(rt; sys.is_within_depth(1) && !sys.is_within_depth(0));
    let open = Formula::Eq(Term::Var(0), Term::Var(0));
    sys.safeties.push(open).expect(&rt, "memory");
    let is_sorted = sys.is_well_sorted(alloc).expect(&rt, "memory");
    assert!(rt; !is_sorted, "a variable without a binder");
}

#[test]
fn queries_are_sorted_or_not(rt: HostRuntime) {
    let alloc = rt.alloc();
    let sig = held_signature(&rt, alloc);
    let next = Formula::Rel(0, 1, list(&rt, alloc, [Term::Var(0)]));
    let claims = list(&rt, alloc, [for_some(&rt, alloc, &[0], next)]);
    let mut query = Query { copies: 2, claims };
    assert!(rt; query.is_well_sorted(alloc, &sig).expect(&rt, "memory"));
    assert!(rt; query.copy(alloc).expect(&rt, "memory").same(&query));
    query.copies = 1;
    let is_sorted = query.is_well_sorted(alloc, &sig).expect(&rt, "memory");
    assert!(rt; !is_sorted, "a copy that isn't there");
}

/// One element, and for each value a copy that gives it to the element.
fn world<const N: usize>(rt: &impl Abort, alloc: Global, values: [u32; N]) -> World {
    let mut copies = Seq::new(alloc);
    for value in values {
        let tables = list(rt, alloc, [table(rt, alloc, &[value])]);
        copies.push(tables).expect(rt, "memory");
    }
    World {
        sizes: numbers(rt, alloc, &[1]),
        fixed: Seq::new(alloc),
        copies,
    }
}

#[test]
fn worlds_are_copied(rt: HostRuntime) {
    let alloc = rt.alloc();
    let sig = held_signature(&rt, alloc);
    let w = world(&rt, alloc, [1, 0, 1]);
    assert!(rt; sig.is_well_sorted());
    assert!(rt; w.fits(&sig) && !world(&rt, alloc, [2]).fits(&sig));
    assert!(rt; w.copy(alloc).expect(&rt, "memory").same(&w));
    assert!(rt; !w.same(&world(&rt, alloc, [1, 0, 0])), "another value");
    assert_eq!(rt; w.copies.len(), 3);
    let alone = w.alone(alloc, 1).expect(&rt, "memory");
    assert!(rt; alone.same(&world(&rt, alloc, [0])));
    let pair = w.pair(alloc, 1).expect(&rt, "memory");
    assert!(rt; pair.same(&world(&rt, alloc, [0, 1])));
}

fn text(rt: &impl Abort, alloc: Global, text: &str) -> Text {
    Text::from_string(String::from_str(alloc, text).expect(rt, "memory"))
}

#[test]
fn names_fit_or_not(rt: HostRuntime) {
    let alloc = rt.alloc();
    let sig = held_signature(&rt, alloc);
    let mut names = Names {
        sorts: list(&rt, alloc, [text(&rt, alloc, "node")]),
        symbols: Seq::new(alloc),
        steps: Seq::new(alloc),
        definitions: Seq::new(alloc),
    };
    assert!(rt; !names.fit(&sig, 0), "a symbol without a name");
    names
        .symbols
        .push(text(&rt, alloc, "held"))
        .expect(&rt, "memory");
    assert!(rt; names.copy(alloc).expect(&rt, "memory").fit(&sig, 0));
    let reserved = text(&rt, alloc, "false");
    names.definitions.push(reserved).expect(&rt, "memory");
    assert!(rt; !names.fit(&sig, 0), "a reserved word");
}

#[test]
fn tuples_are_listed(rt: HostRuntime) {
    let alloc = rt.alloc();
    let tuples = all_tuples(alloc, &[2, 3]).expect(&rt, "memory");
    assert_eq!(rt; tuples.len(), 6);
    let args = tuple_at(alloc, &[2], &[0], 1).expect(&rt, "memory");
    let cell = Cell {
        symbol: 0,
        copy: 0,
        args,
    };
    let copy = cell.copy(alloc).expect(&rt, "memory");
    assert!(rt; copy.args.as_slice() == [1].as_slice());
}
