//! The machine, event by event: each worker reports what the search of its brief has found.
ghost use Rattle.fo_min.specs.declared.found.Least.TheVariants as L;
ghost use Rattle.up_block.specs.declared.blocking.Blocking.TheVariants as B;
ghost use Rattle.up_jobs.specs.declared.solved.Solved.TheVariants as S;
ghost use Rattle.up_claims.specs.Inferring.{CanInfer};
ghost use Rattle.up_seats.specs.Seats.{IsAnswered, IsBriefed};
ghost use Rattle.up_seats.specs.Telling.{HasAnswered};
ghost use Rattle.up_trials.specs.Workers.{HasNoJobs, IsFree, KeepsOthers};

use crate::fixtures::{Problem, limits, problem_of, smallest_generated};
use crate::grabs::FREE_GRABS;
use fo_core::World;
use fo_min::Least;
use fo_solve::Engine;
use std::alloc::Global;
use std::process::Abort;
use up_block::{Blocking, block, look};
use up_core::Core;
use up_diagram::{Cube, has_few_elements};
use up_machine::{Brief, Job, NotNow, Short, Task, Why};
use up_push::{Pushing, push};
use up_seats::take_job;

/// A machine that has seen no event, with a limit on productive ones.
fn machine(rt: &impl Abort, alloc: Global, problem: &Problem, steps: u32) -> Core
    requires { CanInfer problem.now.sys problem.now.order }
    ensures { HasNoJobs result }
{
    let limits = limits(1, steps);
    assert!(rt; limits.are_in_range());
    Core::new(alloc, &problem.sys, &problem.order, limits).expect(rt, "memory")
}

/// The worker takes the job that is due, and is given its brief.
fn take(rt: &impl Abort, alloc: Global, core: &mut Core, worker: u32) -> Brief
    requires { IsFree core.old worker }
    ensures briefed { IsBriefed core.new worker result }
    ensures others { KeepsOthers core.old worker core.new }
{
    core.reserve(2).expect(rt, "memory");
    let Task::Job(job) = core.next_task(worker) else {
        panic!(rt; "no job is due")
    };
    take_job(alloc, core, worker, job).expect(rt, "memory")
}

/// What the worker's look finds.
fn looked(rt: &impl Abort, alloc: Global, core: &Core, worker: u32, brief: &Brief) -> Least
    requires { IsBriefed core.now worker brief.now }
    ensures { IsAnswered core.now worker brief.now (S.Look result) }
{
    core.stays_sound();
    let Job::Look = brief.job else {
        panic!(rt; "no look")
    };
    let mut engine = Engine::new(core.limits().weight);
    let frame = brief.frame.as_slice();
    let avoid = brief.avoid.as_slice();
    look(
        alloc,
        &mut engine,
        core.system(),
        core.order(),
        frame,
        avoid,
    )
    .expect(rt, "memory")
}

/// What the worker's work on an obligation finds.
fn worked(rt: &impl Abort, alloc: Global, core: &Core, worker: u32, brief: &Brief) -> Blocking
    requires { IsBriefed core.now worker brief.now }
    ensures { IsAnswered core.now worker brief.now (S.Work result) }
{
    core.stays_sound();
    let Job::Work(_) = brief.job else {
        panic!(rt; "no work")
    };
    let Some(world) = &brief.world else {
        panic!(rt; "no state")
    };
    let mut engine = Engine::new(core.limits().weight);
    let frame = brief.frame.as_slice();
    let (sys, order) = (core.system(), core.order());
    block(alloc, &mut engine, sys, order, frame, brief.level, world, 0).expect(rt, "memory")
}

/// What the worker's push of a clause finds.
fn pushed(rt: &impl Abort, alloc: Global, core: &Core, worker: u32, brief: &Brief) -> Pushing
    requires { IsBriefed core.now worker brief.now }
    ensures { IsAnswered core.now worker brief.now (S.Push result) }
{
    core.stays_sound();
    let Job::Push(_) = brief.job else {
        panic!(rt; "no push")
    };
    let Some(cube) = &brief.cube else {
        panic!(rt; "no cube")
    };
    let mut engine = Engine::new(core.limits().weight);
    let frame = brief.frame.as_slice();
    push(alloc, &mut engine, core.system(), core.order(), frame, cube).expect(rt, "memory")
}

/// The worker reports the violating state that its look has found.
fn report_seed(rt: &impl Abort, core: &mut Core, worker: u32, found: World)
    requires { HasAnswered core.old worker (S.Look (L.Model found)) }
    ensures free { IsFree core.new worker }
    ensures others { KeepsOthers core.old worker core.new }
{
    core.stays_sound();
    assert!(rt; has_few_elements(&found));
    core.seed(worker, found).expect(rt, "refused");
}

/// The worker takes a look, and reports the violating state that it finds.
fn seed(rt: &impl Abort, alloc: Global, core: &mut Core, worker: u32)
    requires { IsFree core.old worker }
    ensures free { IsFree core.new worker }
    ensures others { KeepsOthers core.old worker core.new }
{
    let brief = take(rt, alloc, core, worker);
    let Least::Model(found) = looked(rt, alloc, core, worker, &brief) else {
        panic!(rt; "no violating state")
    };
    report_seed(rt, core, worker, found);
}

/// The worker reports the clause of the cube that it has found.
fn learn(rt: &impl Abort, core: &mut Core, worker: u32, cube: Cube)
    requires { HasAnswered core.old worker (S.Work (B.Blocked cube)) }
    ensures free { IsFree core.new worker }
    ensures others { KeepsOthers core.old worker core.new }
{
    core.learn(worker, cube).expect(rt, "refused");
}

/// The worker takes a work, and reports the clause that it learns.
fn work(rt: &impl Abort, alloc: Global, core: &mut Core, worker: u32)
    requires { IsFree core.old worker }
    ensures { IsFree core.new worker }
{
    let brief = take(rt, alloc, core, worker);
    let Blocking::Blocked(cube) = worked(rt, alloc, core, worker, &brief) else {
        panic!(rt; "not blocked")
    };
    learn(rt, core, worker, cube);
}

/// The worker takes a look, finds nothing, and reports that the frame is secure.
fn secure(rt: &impl Abort, alloc: Global, core: &mut Core, worker: u32)
    requires { IsFree core.old worker }
    ensures { IsFree core.new worker }
{
    let brief = take(rt, alloc, core, worker);
    let Least::Nothing = looked(rt, alloc, core, worker, &brief) else {
        panic!(rt; "a violating state")
    };
    if !brief.avoid.as_slice().is_empty() {
        panic!(rt; "an unfinished obligation");
    }
    core.secure(worker).expect(rt, "refused");
}

/// The worker takes a push, and reports that the clause holds one frame further on.
fn raise(rt: &impl Abort, alloc: Global, core: &mut Core, worker: u32)
    requires { IsFree core.old worker }
{
    let brief = take(rt, alloc, core, worker);
    let Pushing::Holds = pushed(rt, alloc, core, worker, &brief) else {
        panic!(rt; "a step out of the frame")
    };
    core.raise(worker).expect(rt, "refused");
}

#[test]
fn one_worker_comes_to_an_invariant(rt: HostRuntime) {
    let alloc = rt.alloc();
    let mut core = machine(&rt, alloc, &problem_of(&rt, alloc, FREE_GRABS), 100);
    seed(&rt, alloc, &mut core, 0);
    work(&rt, alloc, &mut core, 0);
    secure(&rt, alloc, &mut core, 0);
    raise(&rt, alloc, &mut core, 0);
    assert_eq!(rt; core.next_task(0), Task::Finish(Short::Safe(1)));
    let numbers = core.numbers();
    assert_eq!(rt; numbers.productive, 4);
    assert_eq!(rt; numbers.frontier, 1);
    assert_eq!(rt; numbers.clauses, 1);
}

/// What a worker's look has found.
#[derive(Drop)]
struct FoundByLook {
    brief: Brief,
    least: Least,
}

/// Worker 0 takes a work, and worker 1 a look; then worker 0 reports the clause that it learns,
/// before worker 1 reports what its look has found.
fn learn_beside_a_look(rt: &impl Abort, alloc: Global, core: &mut Core) -> FoundByLook
    requires first { IsFree core.old 0 }
    requires second { IsFree core.old 1 }
    ensures { IsAnswered core.new 1 result.brief (S.Look result.least) }
{
    let brief = take(rt, alloc, core, 0);
    let Blocking::Blocked(cube) = worked(rt, alloc, core, 0, &brief) else {
        panic!(rt; "not blocked")
    };
    let brief = take(rt, alloc, core, 1);
    let least = looked(rt, alloc, core, 1, &brief);
    learn(rt, core, 0, cube);
    FoundByLook { brief, least }
}

/// The worker reports a violating state that a clause refutes by now: it is refused, and nothing
/// changes. Then the worker gives the look back. It tells the number of the clause.
fn refuted(rt: &impl Abort, alloc: Global, core: &mut Core, worker: u32, found: World) -> u32
    requires { HasAnswered core.old worker (S.Look (L.Model found)) }
{
    core.stays_sound();
    let events = core.history().len();
    let copy = found.copy(alloc).expect(rt, "memory");
    assert!(rt; has_few_elements(&copy));
    let Err(NotNow::Refuted(clause)) = core.seed(worker, copy) else {
        panic!(rt; "not refuted")
    };
    assert_eq!(rt; core.history().len(), events);
    let why = Why::Refuted(found, clause);
    core.give_back(worker, why).expect(rt, "refused");
    assert_eq!(rt; core.history().len(), events + 1);
    clause
}

#[test]
fn a_state_that_a_new_clause_refutes_is_refused(rt: HostRuntime) {
    let alloc = rt.alloc();
    let mut core = machine(&rt, alloc, &smallest_generated(&rt, alloc), 100);
    seed(&rt, alloc, &mut core, 0);
    let FoundByLook { least, .. } = learn_beside_a_look(&rt, alloc, &mut core);
    let Least::Model(found) = least else {
        panic!(rt; "no violating state")
    };
    assert_eq!(rt; refuted(&rt, alloc, &mut core, 1, found), 0);
}

/// The worker reports that its look has found nothing further.
fn give_back(rt: &impl Abort, core: &mut Core, worker: u32, look: &FoundByLook)
    requires { IsAnswered core.old worker look.now.brief (S.Look look.now.least) }
{
    let FoundByLook { brief, least } = look;
    let Least::Nothing = least else {
        panic!(rt; "a violating state")
    };
    if brief.avoid.as_slice().is_empty() {
        panic!(rt; "no unfinished obligation");
    }
    core.give_back(worker, Why::NoMore).expect(rt, "refused");
}

#[test]
fn a_job_is_given_back_once_the_steps_are_spent(rt: HostRuntime) {
    let alloc = rt.alloc();
    let mut core = machine(&rt, alloc, &problem_of(&rt, alloc, FREE_GRABS), 2);
    seed(&rt, alloc, &mut core, 0);
    let look = learn_beside_a_look(&rt, alloc, &mut core);
    assert_eq!(rt; core.next_task(0), Task::Finish(Short::Spent));
    give_back(&rt, &mut core, 1, &look);
}
