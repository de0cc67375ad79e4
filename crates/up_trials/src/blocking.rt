//! States that are blocked, or have a step into them.
ghost use Rattle.up_claims.specs.Inferring.{CanInfer};

use crate::fixtures::{Problem, problem_of};
use crate::grabs::{ANY_GRABS, FREE_GRABS, both_held, is_second_grab, two_held};
use fo_core::{Finder, MOST_WEIGHT};
use fo_min::Least;
use fo_solve::{Engine, Recorded};
use std::alloc::Global;
use std::process::Abort;
use up_block::{Blocking, block, look};
use up_claims::{Kind, before_query, root_query};
use up_diagram::{Cube, has_few_elements};

/// Blocks the state of two held nodes at this level, with an empty frame.
fn blocked<F: Finder>(
    rt: &impl Abort,
    alloc: Global,
    finder: &mut F,
    problem: &Problem,
    level: u32,
) -> Blocking
    requires { CanInfer problem.now.sys problem.now.order }
{
    let Problem { sys, order } = problem;
    let w = both_held(rt, alloc);
    assert!(rt; w.fits(&sys.sig) && !w.copies.is_empty() && has_few_elements(&w));
    assert!(rt; level >= 1);
    block(alloc, finder, sys, order, &[], level, &w, 0).expect(rt, "memory")
}

/// A finder that keeps the answers to the two queries of that state's diagram, without a frame.
fn recorded(rt: &impl Abort, alloc: Global, problem: &Problem) -> Recorded
    requires { CanInfer problem.now.sys problem.now.order }
{
    let Problem { sys, order } = problem;
    let cube = two_held(rt, alloc, &sys.sig);
    let root = root_query(alloc, sys, &cube).expect(rt, "memory");
    let before = before_query(alloc, sys, None, &cube).expect(rt, "memory");
    let mut finder = Recorded::new(alloc, sys, MOST_WEIGHT).expect(rt, "memory");
    finder.keep(alloc, order, &root).expect(rt, "memory");
    finder.keep(alloc, order, &before).expect(rt, "memory");
    finder
}

/// How many literals and variables a blocked cube keeps.
fn kept(found: &Blocking) -> (usize, usize) {
    match found {
        Blocking::Blocked(cube) => (cube.lits.len(), cube.sorts.len()),
        _ => (0, 0),
    }
}

fn is_step_into_it(found: &Blocking) -> bool {
    match found {
        Blocking::Step(w) => is_second_grab(w),
        _ => false,
    }
}

#[test]
fn two_held_nodes_are_blocked_with_all_literals(rt: HostRuntime) {
    let alloc = rt.alloc();
    let free = problem_of(&rt, alloc, FREE_GRABS);
    let found = blocked(&rt, alloc, &mut Engine::new(MOST_WEIGHT), &free, 1);
    assert_eq!(rt; kept(&found), (3, 2));
    let found = blocked(&rt, alloc, &mut recorded(&rt, alloc, &free), &free, 1);
    assert_eq!(rt; kept(&found), (3, 2));
}

#[test]
fn a_second_grab_leads_to_two_held_nodes(rt: HostRuntime) {
    let alloc = rt.alloc();
    let any = problem_of(&rt, alloc, ANY_GRABS);
    let found = blocked(&rt, alloc, &mut Engine::new(MOST_WEIGHT), &any, 2);
    assert!(rt; is_step_into_it(&found));
    let found = blocked(&rt, alloc, &mut recorded(&rt, alloc, &any), &any, 2);
    assert!(rt; is_step_into_it(&found));
}

#[test]
fn queries_above_the_limit_are_told(rt: HostRuntime) {
    let alloc = rt.alloc();
    let free = problem_of(&rt, alloc, FREE_GRABS);
    let found = blocked(&rt, alloc, &mut Engine::new(1), &free, 1);
    let copy = found.copy(alloc).expect(&rt, "memory");
    assert!(rt; matches!(copy, Blocking::Over(Kind::Root, _)));
}

/// Looks for a state of this frame that violates the safety.
fn seed(rt: &impl Abort, alloc: Global, problem: &Problem, frame: &[Cube]) -> Least
    requires { CanInfer problem.now.sys problem.now.order }
{
    let Problem { sys, order } = problem;
    assert!(rt; frame.iter().all(|cube| cube.is_well_sorted(&sys.sig)));
    let mut engine = Engine::new(MOST_WEIGHT);
    look(alloc, &mut engine, sys, order, frame, &[]).expect(rt, "memory")
}

#[test]
fn no_seed_is_left_in_the_frame_of_its_clause(rt: HostRuntime) {
    let alloc = rt.alloc();
    let free = problem_of(&rt, alloc, FREE_GRABS);
    assert!(rt; matches!(seed(&rt, alloc, &free, &[]), Least::Model(_)));
    let found = blocked(&rt, alloc, &mut Engine::new(MOST_WEIGHT), &free, 1);
    let Blocking::Blocked(cube) = found else {
        panic!(rt; "not blocked")
    };
    assert!(rt; matches!(seed(&rt, alloc, &free, &[cube]), Least::Nothing));
}
