//! Finders that are asked whether a property can fail at the start.
use crate::fixtures::system;
use fo_core::{Finder, Finders, Found, MOST_WEIGHT, Purpose, Query, Seq, System};
use fo_solve::{Answered, Engine, Engines, Recorded};
use pyv_strat::order;
use std::alloc::Global;
use std::process::Abort;
use up_claims::verify_query;

/// None is held, so no two different ones are.
const NO_TWO_OF_NONE: &str = "sort node
mutable relation held(node)
init !held(X)
safety !(exists X, Y. held(X) & held(Y) & X != Y)
";

/// There are not five elements, which nothing rules out.
const NO_FIVE: &str = "sort node
mutable relation held(node)
safety !(exists A: node, B, C, D, E. distinct(A, B, C, D, E))
";

/// No three different elements are held, which nothing rules out.
const NO_THREE_HELD: &str = "sort node
mutable relation held(node)
safety !(exists A, B, C. held(A) & held(B) & held(C) & distinct(A, B, C))
";

/// The answer of a finder to the query whether the system's property fails at the start.
fn answer<F: Finder>(rt: &impl Abort, alloc: Global, finder: &mut F, sys: &System) -> Found {
    assert!(rt; sys.is_well_sorted(alloc).expect(rt, "memory"));
    assert_eq!(rt; sys.safeties.len(), 1);
    let order = order(alloc, sys, Purpose::Verify).expect(rt, "an order");
    let q = verify_query(alloc, sys, None, 0).expect(rt, "memory");
    finder.find(alloc, sys, &order, &q).expect(rt, "memory")
}

/// A finder that keeps that answer.
fn recorded(rt: &impl Abort, alloc: Global, sys: &System) -> Recorded {
    assert!(rt; sys.is_well_sorted(alloc).expect(rt, "memory"));
    assert_eq!(rt; sys.safeties.len(), 1);
    let order = order(alloc, sys, Purpose::Verify).expect(rt, "an order");
    let q = verify_query(alloc, sys, None, 0).expect(rt, "memory");
    let mut finder = Recorded::new(alloc, sys, MOST_WEIGHT).expect(rt, "memory");
    finder.keep(alloc, &order, &q).expect(rt, "memory");
    finder
}

/// The number of elements of the first sort of a found world.
fn elements(found: &Found) -> u32 {
    match found {
        Found::Model(world) => world.sizes.as_slice().first().copied().unwrap_or(0),
        _ => 0,
    }
}

#[test]
fn two_of_none_are_not_found(rt: HostRuntime) {
    let alloc = rt.alloc();
    let sys = system(&rt, alloc, NO_TWO_OF_NONE);
    let found = answer(&rt, alloc, &mut Engine::new(27), &sys);
    assert!(rt; matches!(found, Found::Nothing));
    let mut engine = Engines { limit: 26 }.one(alloc).expect(&rt, "memory");
    let found = answer(&rt, alloc, &mut engine, &sys);
    assert!(rt; matches!(found, Found::Over(27)));
}

#[test]
fn five_different_elements_are_found(rt: HostRuntime) {
    let alloc = rt.alloc();
    let sys = system(&rt, alloc, NO_FIVE);
    let answer = answer(&rt, alloc, &mut Engine::new(MOST_WEIGHT), &sys);
    let query = Query {
        copies: 1,
        claims: Seq::new(alloc),
    };
    let answered = Answered { query, answer };
    let copy = answered.copy(alloc).expect(&rt, "memory");
    assert!(rt; elements(&copy.answer) >= 5);
}

#[test]
fn kept_answers_are_those_of_an_engine(rt: HostRuntime) {
    let alloc = rt.alloc();
    let three = system(&rt, alloc, NO_THREE_HELD);
    let none = system(&rt, alloc, NO_TWO_OF_NONE);
    let mut finder = recorded(&rt, alloc, &three);
    // Another system's query is answered anew, and leaves what is kept.
    assert!(rt; matches!(answer(&rt, alloc, &mut finder, &none), Found::Nothing));
    assert!(rt; elements(&answer(&rt, alloc, &mut finder, &three)) >= 3);
    assert!(rt; elements(&answer(&rt, alloc, &mut finder, &three)) >= 3);
}
