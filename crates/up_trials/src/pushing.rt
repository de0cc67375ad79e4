//! Clauses that hold one frame further on, or don't.
ghost use Rattle.up_claims.specs.Inferring.{CanInfer};

use crate::fixtures::{Problem, problem_of};
use crate::grabs::{ANY_GRABS, FREE_GRABS, is_second_grab, two_held};
use fo_core::{Finder, MOST_WEIGHT};
use fo_solve::{Engine, Recorded};
use std::alloc::Global;
use std::process::Abort;
use std::slice;
use up_claims::{Kind, before_query};
use up_push::{Pushing, push};

/// Pushes the clause of two held nodes from its own frame.
fn pushed<F: Finder>(rt: &impl Abort, alloc: Global, finder: &mut F, problem: &Problem) -> Pushing
    requires { CanInfer problem.now.sys problem.now.order }
{
    let Problem { sys, order } = problem;
    let cube = two_held(rt, alloc, &sys.sig);
    push(alloc, finder, sys, order, slice::from_ref(&cube), &cube).expect(rt, "memory")
}

/// A finder that keeps the answer to the query of that push.
fn recorded(rt: &impl Abort, alloc: Global, problem: &Problem) -> Recorded
    requires { CanInfer problem.now.sys problem.now.order }
{
    let Problem { sys, order } = problem;
    let cube = two_held(rt, alloc, &sys.sig);
    let frame = slice::from_ref(&cube);
    let query = before_query(alloc, sys, Some(frame), &cube).expect(rt, "memory");
    let mut finder = Recorded::new(alloc, sys, MOST_WEIGHT).expect(rt, "memory");
    finder.keep(alloc, order, &query).expect(rt, "memory");
    finder
}

fn is_second_grab_told(found: &Pushing) -> bool {
    match found {
        Pushing::Fails(w) => is_second_grab(w),
        _ => false,
    }
}

#[test]
fn a_clause_holds_where_only_the_free_grab(rt: HostRuntime) {
    let alloc = rt.alloc();
    let free = problem_of(&rt, alloc, FREE_GRABS);
    let found = pushed(&rt, alloc, &mut Engine::new(MOST_WEIGHT), &free);
    assert!(rt; matches!(found, Pushing::Holds));
    let found = pushed(&rt, alloc, &mut recorded(&rt, alloc, &free), &free);
    assert!(rt; matches!(found, Pushing::Holds));
}

#[test]
fn a_second_grab_breaks_the_clause(rt: HostRuntime) {
    let alloc = rt.alloc();
    let any = problem_of(&rt, alloc, ANY_GRABS);
    let found = pushed(&rt, alloc, &mut Engine::new(MOST_WEIGHT), &any);
    assert!(rt; is_second_grab_told(&found));
    let found = pushed(&rt, alloc, &mut recorded(&rt, alloc, &any), &any);
    assert!(rt; is_second_grab_told(&found));
}

#[test]
fn a_push_above_the_limit_is_told(rt: HostRuntime) {
    let alloc = rt.alloc();
    let free = problem_of(&rt, alloc, FREE_GRABS);
    let found = pushed(&rt, alloc, &mut Engine::new(1), &free);
    let copy = found.copy(alloc).expect(&rt, "memory");
    assert!(rt; matches!(copy, Pushing::Over(Kind::Push, _)));
}
