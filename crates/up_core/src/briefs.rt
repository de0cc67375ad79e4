//! The briefs of jobs, copied out of the history.

ghost use Rattle.std.specs.Prelude.{◌≡◌, ◌++◌, ◌^◌, ◌<◌, IfOk, OnOk, option_map, slice_get};
ghost use Rattle.std.specs.Option.{option_and_then};
ghost use Rattle.up_claims.specs.Frames.{frame_at};
ghost use Rattle.up_diagram.specs.Diagrams.{CanDescribe};
ghost use Rattle.up_machine.specs.Briefs.{cubes_in};
ghost use Rattle.up_machine.specs.Finding.{HoldsJob, state_cube};
ghost use Rattle.up_core.specs.Briefing.{AreDescribable, IsBriefHeld, IsBriefNow, avoided, brief_at, look_brief, push_brief, state_from, trace_brief, work_brief};
ghost use Rattle.up_core.specs.Choice.{is_open_seed};
ghost use Rattle.up_core.specs.Listing.{listed};
ghost use Rattle.up_core.specs.Mirror.{IsWorldAt, world_of};
ghost use Rattle.up_core.specs.Taking.{HasOnlyTakesSince};
ghost use Rattle.up_core.specs.View.{now};

use crate::clauses::Clauses;
use crate::frames::{copy_cube_at, copy_cubes};
use crate::kept::Core;
use crate::lists::job_of;
use crate::obligations::Obligations;
use crate::refuting::world_at;
use crate::state::{ClauseEntry, ObligationEntry, Progress, State};
use fo_core::{Seq, Sig, World};
use std::alloc::{AllocError, Global};
use up_diagram::{Cube, diagram};
use up_machine::{Brief, Event, Job};

/// A copy of the world that the event at a place brought, if it did.
fn copy_world_at(
    alloc: Global,
    history: &[Event],
    place: usize,
) -> Result<Option<World>, AllocError>
    ensures { IfOk result (λ world. world ≡
        option_and_then world_of (slice_get history.now place)) }
{
    match world_at(history, place) {
        Some(world) => Ok(Some(world.copy(alloc)?)),
        None => Ok(None),
    }
}

/// The diagram of copy 0 of that world.
fn diagram_at(
    alloc: Global,
    sig: &Sig,
    history: &[Event],
    place: usize,
) -> Result<Option<Cube>, AllocError>
    requires { (w : _) → IsWorldAt history.now place w → CanDescribe sig.now w 0 }
    ensures { IfOk result (λ cube. cube ≡ option_map (state_cube sig.now)
        (option_and_then world_of (slice_get history.now place))) }
{
    match world_at(history, place) {
        Some(world) => Ok(Some(diagram(alloc, sig, world, 0)?)),
        None => Ok(None),
    }
}

/// Whether the obligation is a seed that isn't done.
fn is_open(entry: &ObligationEntry) -> bool
    ensures { result ≡ is_open_seed entry.now }
{
    entry.parent.is_none() && !matches!(entry.progress, Progress::Done)
}

/// Appends the diagram of the entry's state, if it is an unfinished seed of this level.
fn push_state(
    alloc: Global,
    sig: &Sig,
    history: &[Event],
    level: u32,
    entry: &ObligationEntry,
    cubes: &mut Seq<Cube>,
) -> Result<(), AllocError>
    requires { (w : _) → IsWorldAt history.now entry.now.found w → CanDescribe sig.now w 0 }
    ensures { OnOk result (cubes.new ≡
        cubes.old ++ state_from sig.now history.now level entry.now) }
{
    if !is_open(entry) || entry.level != level {
        return Ok(());
    }
    if let Some(cube) = diagram_at(alloc, sig, history, entry.found)? {
        cubes.push(cube)?;
    }
    Ok(())
}

/// The diagrams of the states of the unfinished seeds of this level, in their order.
fn states_to_avoid(
    alloc: Global,
    sig: &Sig,
    history: &[Event],
    level: u32,
    obligations: &Obligations,
) -> Result<Seq<Cube>, AllocError>
    requires { AreDescribable sig.now history.now obligations.now.items }
    ensures { IfOk result (λ cubes. cubes ≡
        avoided sig.now history.now level obligations.now.items) }
{
    let mut cubes = Seq::new(alloc);
    'each: for at in 0..obligations.count_open() {
        let next = obligations.open_at(at);
        push_state(alloc, sig, history, level, &next.entry, &mut cubes)?;
    }
    Ok(cubes)
}

/// The cubes of the frame of this number; none of frame 0, the initial states.
fn copy_frame(
    alloc: Global,
    history: &[Event],
    level: u32,
    clauses: &Clauses,
) -> Result<Seq<Cube>, AllocError>
    ensures { IfOk result (λ cubes. cubes ≡
        cubes_in (frame_at level (listed history.now level clauses.now.items))) }
{
    if level == 0 {
        return Ok(Seq::new(alloc));
    }
    copy_cubes(alloc, history, level, clauses)
}

/// The brief of a work on the obligation of this entry.
fn brief_work(
    alloc: Global,
    history: &[Event],
    clauses: &Clauses,
    k: u32,
    entry: ObligationEntry,
) -> Result<Brief, AllocError>
    ensures { IfOk result (λ brief. brief ≡ work_brief history.now clauses.now.items k entry) }
{
    Ok(Brief {
        job: Job::Work(k),
        level: entry.level,
        frame: copy_frame(alloc, history, entry.level.saturating_sub(1), clauses)?,
        avoid: Seq::new(alloc),
        world: copy_world_at(alloc, history, entry.found)?,
        cube: None,
    })
}

/// The brief of a look.
fn brief_look(
    alloc: Global,
    sig: &Sig,
    history: &[Event],
    state: &State,
) -> Result<Brief, AllocError>
    requires { AreDescribable sig.now history.now state.now.obligations.items }
    ensures { IfOk result (λ brief. brief ≡ look_brief sig.now history.now state.now) }
{
    let level = state.clauses.frontier();
    Ok(Brief {
        job: Job::Look,
        level,
        frame: copy_cubes(alloc, history, level, &state.clauses)?,
        avoid: states_to_avoid(alloc, sig, history, level, &state.obligations)?,
        world: None,
        cube: None,
    })
}

/// The brief of a push of the clause of this entry.
fn brief_push(
    alloc: Global,
    history: &[Event],
    clauses: &Clauses,
    k: u32,
    entry: ClauseEntry,
) -> Result<Brief, AllocError>
    ensures { IfOk result (λ brief. brief ≡ push_brief history.now clauses.now.items k entry) }
{
    Ok(Brief {
        job: Job::Push(k),
        level: entry.level,
        frame: copy_cubes(alloc, history, entry.level, clauses)?,
        avoid: Seq::new(alloc),
        world: None,
        cube: copy_cube_at(alloc, history, entry.learnt)?,
    })
}

/// The brief of a trace of the obligation of this entry.
fn brief_trace(alloc: Global, frontier: u32, k: u32, entry: ObligationEntry) -> Brief
    ensures { result ≡ trace_brief frontier k entry }
{
    Brief {
        job: Job::Trace(k),
        level: frontier.saturating_sub(entry.level),
        frame: Seq::new(alloc),
        avoid: Seq::new(alloc),
        world: None,
        cube: None,
    }
}

/// The entry of an obligation, if it is there.
fn obligation_at(obligations: &[ObligationEntry], k: u32) -> Option<ObligationEntry>
    ensures { result ≡ slice_get obligations.now k }
{
    obligations.get(k as usize).copied()
}

/// The entry of a clause, if it is there.
fn clause_at(clauses: &[ClauseEntry], k: u32) -> Option<ClauseEntry>
    ensures { result ≡ slice_get clauses.now k }
{
    clauses.get(k as usize).copied()
}

/// The brief of a work now, if its obligation is there.
fn work_now(
    alloc: Global,
    history: &[Event],
    clauses: &Clauses,
    obligations: &[ObligationEntry],
    k: u32,
) -> Result<Option<Brief>, AllocError>
    ensures { IfOk result (λ brief. brief ≡
        option_map (work_brief history.now clauses.now.items k) (slice_get obligations.now k)) }
{
    match obligation_at(obligations, k) {
        Some(entry) => Ok(Some(brief_work(alloc, history, clauses, k, entry)?)),
        None => Ok(None),
    }
}

/// The brief of a push now, if its clause is there.
fn push_now(
    alloc: Global,
    history: &[Event],
    clauses: &Clauses,
    k: u32,
) -> Result<Option<Brief>, AllocError>
    ensures { IfOk result (λ brief. brief ≡
        option_map (push_brief history.now clauses.now.items k) (slice_get clauses.now.items k)) }
{
    match clause_at(clauses.entries(), k) {
        Some(entry) => Ok(Some(brief_push(alloc, history, clauses, k, entry)?)),
        None => Ok(None),
    }
}

/// The brief of a trace now, if its obligation is there.
fn trace_now(alloc: Global, frontier: u32, obligations: &[ObligationEntry], k: u32) -> Option<Brief>
    ensures { result ≡ option_map (trace_brief frontier k) (slice_get obligations.now k) }
{
    match obligation_at(obligations, k) {
        Some(entry) => Some(brief_trace(alloc, frontier, k, entry)),
        None => None,
    }
}

/// The brief of a job now, if its obligation or clause is there.
fn brief_for(
    alloc: Global,
    sig: &Sig,
    history: &[Event],
    state: &State,
    job: Job,
) -> Result<Option<Brief>, AllocError>
    requires { AreDescribable sig.now history.now state.now.obligations.items }
    ensures { IfOk result (λ brief. brief ≡ brief_at sig.now history.now state.now job) }
{
    let clauses = &state.clauses;
    let obligations = state.obligations.entries();
    match job {
        Job::Work(k) => work_now(alloc, history, clauses, obligations, k),
        Job::Look => Ok(Some(brief_look(alloc, sig, history, state)?)),
        Job::Push(k) => push_now(alloc, history, clauses, k),
        Job::Trace(k) => Ok(trace_now(alloc, state.clauses.frontier(), obligations, k)),
    }
}

/// That a number has 32 bits.
fn is_narrow(_number: u32)
    ensures { _number < 2 ^ 32 }
{}

impl Core {
    /// The brief of the job that the worker holds, as the frames and obligations are now.
    ///
    /// It asks that the worker holds a job. Where since its take only others took jobs, it is the
    /// brief of what the worker was given. The one error is out of memory.
    pub fn brief(&self, alloc: Global, worker: u32) -> Result<Brief, AllocError>
        requires { HoldsJob (now self.now) worker }
        ensures now_is { IfOk result (λ brief. IsBriefNow self.now worker brief) }
        ensures taken { HasOnlyTakesSince self.now.history worker →
            IfOk result (λ brief. IsBriefHeld self.now worker brief) }
    {
        // No obligation's state has more elements than this, so each can be described.
        is_narrow(self.widest);
        let history = self.history.as_slice();
        match job_of(self.state.jobs.as_slice(), worker) {
            Some(entry) => {
                let job = entry.job;
                match brief_for(alloc, &self.sys.sig, history, &self.state, job)? {
                    Some(brief) => Ok(brief),
                    None => unreachable!(),
                }
            }
            None => unreachable!(),
        }
    }
}
