//! Whole searches by workers that run freely, and that two of them are outside the turn at one
//! time. Where memory runs out a test stops.

ghost use Rattle.std.specs.Prelude.{◌≡◌};
ghost use Rattle.fo_core.specs.declared.query.TheConstants.{MOST_WEIGHT};
ghost use Rattle.up_claims.specs.Inferring.{CanInfer};

use crossbeam_utils::Backoff;
use fo_core::{Finder, Finders, Found, MOST_WEIGHT, Order, Purpose, Query, System};
use fo_solve::Engine;
use pyv_lex::tokens;
use pyv_parse::parse;
use pyv_sorts::elaborate;
use pyv_strat::order;
use std::alloc::{AllocError, Global};
use std::process::Abort;
use std::sync::Wait;
use std::sync::atomic::{AtomicU64, Ordering};
use std::thread::Threads;
use up_core::Core;
use up_free::{FreeGate, Gate, Place, infer_free};
use up_gen::model_text;
use up_machine::{End, Event, Limits};

/// How often a worker that waits for another looks, before it gives the wait up.
const LOOKS: u32 = 100_000_000;

/// Waits until the count is no longer 0, and gives whether it was seen so.
fn is_reached(count: &AtomicU64) -> bool {
    let backoff = Backoff::new();
    for _ in 0..LOOKS {
        if count.load(Ordering::SeqCst) > 0 {
            return true;
        }
        backoff.snooze();
    }
    false
}

/// A gate that, once some job is solved, stops one worker at its first job until the other has
/// taken one too.
#[derive(Drop)]
struct Meeting<'a> {
    stopped: u32,
    solved: &'a AtomicU64,
    waited: &'a AtomicU64,
    passed: &'a AtomicU64,
    met: &'a AtomicU64,
}

impl<'a> Gate for Meeting<'a> {
    fn pass(&self, worker: u32, place: Place) {
        match place {
            Place::Solved => self.solved.store(1, Ordering::SeqCst),
            Place::Taken => {
                if self.solved.load(Ordering::SeqCst) == 0 {
                    return;
                }
                if worker != self.stopped {
                    self.passed.store(1, Ordering::SeqCst);
                    return;
                }
                if self.waited.fetch_add(1, Ordering::SeqCst) == 0 && is_reached(self.passed) {
                    self.met.store(1, Ordering::SeqCst);
                }
            }
        }
    }
}

/// A gate that tells when the first job is solved.
#[derive(Drop)]
struct Telling<'a> {
    solved: &'a AtomicU64,
}

impl<'a> Gate for Telling<'a> {
    fn pass(&self, _worker: u32, place: Place) {
        match place {
            Place::Solved => self.solved.store(1, Ordering::SeqCst),
            Place::Taken => {}
        }
    }
}

/// Makes finders that keep nothing: each question is answered by a new engine.
#[derive(Drop)]
struct Plain;

#[derive(Drop)]
struct PlainOne;

impl Finder for PlainOne {
    ghost limit = { λ _. MOST_WEIGHT };

    fn find(
        &mut self,
        alloc: Global,
        sys: &System,
        order: &Order,
        q: &Query,
    ) -> Result<Found, AllocError> {
        Engine::new(MOST_WEIGHT).find(alloc, sys, order, q)
    }
}

impl Finders for Plain {
    type One = PlainOne;

    ghost limit = { λ _. MOST_WEIGHT };

    fn one(&self, _alloc: Global) -> Result<PlainOne, AllocError> {
        Ok(PlainOne)
    }
}

/// Makes finders of which the first that is asked after the first job is solved waits until another
/// is asked.
#[derive(Drop)]
struct Pairs<'a> {
    solved: &'a AtomicU64,
    asked: &'a AtomicU64,
    second: &'a AtomicU64,
    met: &'a AtomicU64,
}

#[derive(Drop)]
struct OneOfPair<'a> {
    solved: &'a AtomicU64,
    asked: &'a AtomicU64,
    second: &'a AtomicU64,
    met: &'a AtomicU64,
}

/// The first to come after the first job is solved waits for a second.
fn meet(solved: &AtomicU64, asked: &AtomicU64, second: &AtomicU64, met: &AtomicU64) {
    if solved.load(Ordering::SeqCst) == 0 {
        return;
    }
    if asked.fetch_add(1, Ordering::SeqCst) > 0 {
        second.store(1, Ordering::SeqCst);
        return;
    }
    if is_reached(second) {
        met.store(1, Ordering::SeqCst);
    }
}

impl<'a> Finder for OneOfPair<'a> {
    ghost limit = { λ _. MOST_WEIGHT };

    fn find(
        &mut self,
        alloc: Global,
        sys: &System,
        order: &Order,
        q: &Query,
    ) -> Result<Found, AllocError> {
        meet(self.solved, self.asked, self.second, self.met);
        Engine::new(MOST_WEIGHT).find(alloc, sys, order, q)
    }
}

impl<'a> Finders for Pairs<'a> {
    type One = OneOfPair<'a>;

    ghost limit = { λ _. MOST_WEIGHT };

    fn one(&self, _alloc: Global) -> Result<OneOfPair<'a>, AllocError> {
        Ok(OneOfPair {
            solved: self.solved,
            asked: self.asked,
            second: self.second,
            met: self.met,
        })
    }
}

/// A system with an order of its sorts for inference.
#[derive(Drop)]
struct Problem {
    sys: System,
    order: Order,
}

/// The smallest of the generated models: at first the server has the token, nodes take it and give
/// it back, and no two are to hold it.
fn smallest_generated(rt: &impl Abort, alloc: Global) -> Problem
    ensures { CanInfer result.sys result.order }
{
    let text = model_text(alloc, 1).expect(rt, "memory");
    let text = text.as_str().as_bytes();
    assert!(rt; u32::try_from(text.len()).is_ok());
    let tokens = tokens(alloc, text).expect(rt, "tokens");
    let model = parse(alloc, text, tokens.as_slice()).expect(rt, "a tree");
    let sys = elaborate(alloc, text, &model).expect(rt, "a system").sys;
    assert!(rt; sys.is_well_sorted(alloc).expect(rt, "memory"));
    let order = order(alloc, &sys, Purpose::Infer).expect(rt, "an order");
    Problem { sys, order }
}

/// The free search of it, by this many workers.
fn run<M: Finders, G: Gate, R: Abort + Threads + Wait + Sync>(
    rt: &R,
    alloc: Global,
    makers: &M,
    workers: u32,
    gate: &G,
) -> Core
    requires { M.limit makers.now ≡ MOST_WEIGHT }
{
    let problem = smallest_generated(rt, alloc);
    let limits = Limits {
        workers,
        batch: 1,
        frames: 8,
        steps: 1000,
        weight: MOST_WEIGHT,
    };
    assert!(rt; limits.are_in_range());
    infer_free(
        rt,
        alloc,
        makers,
        &problem.sys,
        &problem.order,
        limits,
        gate,
    )
    .expect(rt, "memory")
}

/// The run has ended, and its verdict is an invariant.
fn is_safe(core: &Core) -> bool {
    matches!(core.history().last(), Some(Event::Close(_, End::Safe(_))))
}

/// This many workers come to an invariant.
fn come_to_an_invariant<R: Abort + Threads + Wait + Sync>(rt: &R, alloc: Global, workers: u32) {
    let core = run(rt, alloc, &Plain, workers, &FreeGate);
    assert!(rt; is_safe(&core));
}

/// Two workers hold jobs at one time, of which this one waits for the other.
fn hold_jobs_at_one_time<R: Abort + Threads + Wait + Sync>(rt: &R, alloc: Global, stopped: u32) {
    let solved = AtomicU64::new(0);
    let waited = AtomicU64::new(0);
    let passed = AtomicU64::new(0);
    let met = AtomicU64::new(0);
    let gate = Meeting {
        stopped,
        solved: &solved,
        waited: &waited,
        passed: &passed,
        met: &met,
    };
    let core = run(rt, alloc, &Plain, 2, &gate);
    assert!(rt; is_safe(&core));
    assert_eq!(rt; met.load(Ordering::SeqCst), 1);
}

#[test]
fn one_worker_comes_to_an_invariant(rt: HostRuntime) {
    come_to_an_invariant(&rt, rt.alloc(), 1);
}

#[test]
fn four_workers_come_to_an_invariant(rt: HostRuntime) {
    come_to_an_invariant(&rt, rt.alloc(), 4);
}

#[test]
fn worker_0_waits_for_worker_1(rt: HostRuntime) {
    hold_jobs_at_one_time(&rt, rt.alloc(), 0);
}

#[test]
fn worker_1_waits_for_worker_0(rt: HostRuntime) {
    hold_jobs_at_one_time(&rt, rt.alloc(), 1);
}

#[test]
fn two_workers_solve_at_one_time(rt: HostRuntime) {
    let solved = AtomicU64::new(0);
    let asked = AtomicU64::new(0);
    let second = AtomicU64::new(0);
    let met = AtomicU64::new(0);
    let makers = Pairs {
        solved: &solved,
        asked: &asked,
        second: &second,
        met: &met,
    };
    let gate = Telling { solved: &solved };
    let core = run(&rt, rt.alloc(), &makers, 2, &gate);
    assert!(rt; is_safe(&core));
    assert_eq!(rt; met.load(Ordering::SeqCst), 1);
}
