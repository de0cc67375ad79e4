//! A whole search by rounds, event by event.
use crate::fixtures::{limits, smallest_generated};
use fo_core::MOST_WEIGHT;
use fo_solve::Engines;
use std::alloc::{AllocError, Global};
use std::process::Abort;
use std::thread::Threads;
use up_core::Core;
use up_machine::{End, Event, Job, Origin, Why};
use up_rounds::infer_rounds;

/// An event in words, without the states and cubes that it found.
fn told(alloc: Global, event: &Event) -> Result<String, AllocError> {
    match event {
        Event::Take(seat, Job::Look) => format!(in alloc; "{seat} takes a look"),
        Event::Take(seat, Job::Work(ob)) => format!(in alloc; "{seat} takes work {ob}"),
        Event::Take(seat, Job::Push(clause)) => format!(in alloc; "{seat} takes push {clause}"),
        Event::Take(seat, Job::Trace(ob)) => format!(in alloc; "{seat} takes trace {ob}"),
        Event::Seed(seat, _) => format!(in alloc; "{seat} finds a violating state"),
        Event::Secure(seat) => format!(in alloc; "{seat} finds none"),
        Event::Learn(seat, _) => format!(in alloc; "{seat} learns a clause"),
        Event::Before(seat, Origin::Initial(_)) => format!(in alloc; "{seat} finds a root"),
        Event::Before(seat, Origin::Step(_)) => format!(in alloc; "{seat} finds a step"),
        Event::Drop(seat, clause) => format!(in alloc; "{seat} drops for {clause}"),
        Event::Raise(seat) => format!(in alloc; "{seat} raises"),
        Event::Fail(seat, _) => format!(in alloc; "{seat} fails"),
        Event::Return(seat, Why::Refuted(_, clause)) => {
            format!(in alloc; "{seat} is refuted by {clause}")
        }
        Event::Return(seat, Why::NoMore) => format!(in alloc; "{seat} finds no more"),
        Event::Return(seat, _) => format!(in alloc; "{seat} gives up"),
        Event::Advance(seat) => format!(in alloc; "{seat} advances"),
        Event::Retire(seat, gone, by) => format!(in alloc; "{seat} retires {gone} for {by}"),
        Event::Close(seat, End::Safe(level)) => format!(in alloc; "{seat} ends, safe at {level}"),
        Event::Close(seat, _) => format!(in alloc; "{seat} ends"),
    }
}

/// The events in words, a line each.
fn all_told(rt: &impl Abort, alloc: Global, events: &[Event]) -> String {
    let mut lines = String::new(alloc);
    for event in events {
        let line = told(alloc, event).expect(rt, "memory");
        lines.push_str(line.as_str()).expect(rt, "memory");
        lines.push('\n').expect(rt, "memory");
    }
    lines
}

/// The run of this search with four seats and this many workers.
fn run<R: Abort + Threads + Sync>(rt: &R, alloc: Global, workers: u32) -> Core {
    let token = smallest_generated(rt, alloc);
    let limits = limits(workers, 100);
    assert!(rt; limits.are_in_range());
    let makers = Engines { limit: MOST_WEIGHT };
    infer_rounds(rt, alloc, &makers, &token.sys, &token.order, limits).expect(rt, "memory")
}

/// The history of this search, worked out by the rules of the machine: 12 productive events.
const HISTORY: &str = "0 takes a look
0 finds a violating state
0 takes work 0
1 takes a look
0 learns a clause
1 is refuted by 0
0 takes a look
1 takes push 0
0 finds none
1 fails
0 advances
0 takes a look
0 finds a violating state
0 takes work 1
1 takes a look
0 finds a step
1 finds a violating state
0 takes work 2
1 takes work 3
2 takes a look
0 learns a clause
1 learns a clause
2 finds no more
0 retires 1 for 2
0 takes work 1
1 takes a look
2 takes push 0
3 takes push 2
0 learns a clause
1 finds no more
2 raises
3 is refuted by 0
0 ends, safe at 1
";

/// The run of this many workers has the history, and comes to the second frame with four clauses.
fn has_the_history<R: Abort + Threads + Sync>(rt: &R, alloc: Global, workers: u32) {
    let core = run(rt, alloc, workers);
    let told = all_told(rt, alloc, core.history());
    assert_eq!(rt; told.as_str(), HISTORY);
    let numbers = core.numbers();
    assert_eq!(rt; numbers.frontier, 2);
    assert_eq!(rt; numbers.productive, 12);
    assert_eq!(rt; numbers.clauses, 4);
}

#[test]
fn one_worker_makes_the_history(rt: HostRuntime) {
    has_the_history(&rt, rt.alloc(), 1);
}

#[test]
fn two_workers_make_the_history(rt: HostRuntime) {
    has_the_history(&rt, rt.alloc(), 2);
}

#[test]
fn sixteen_workers_make_the_history(rt: HostRuntime) {
    has_the_history(&rt, rt.alloc(), 16);
}
