//! Which clause refutes a state. None of this takes memory.

ghost use Rattle.std.specs.Prelude.{◌≡◌, ◌↔◌, ◌<◌, IfSome, IsTrue, length, option_map, slice_get};
ghost use Rattle.std.specs.Option.{option_and_then};
ghost use Rattle.up_core.specs.Mirror.{cube_of, world_of};
ghost use Rattle.up_core.specs.Refuting.{AreTriable, AreTriableForOwn, CanTry, IsFirstBelow, IsFirstMet, IsFirstOwn, IsFirstPushed, IsMetAt, IsRefuting, own_in, pushed_in};

use crate::clauses::Clauses;
use crate::lists::{push_of, work_of};
use crate::state::{ClauseEntry, JobEntry, ObligationEntry, State};
use fo_core::{Sig, World};
use up_diagram::{Cube, Picks, meets};
use up_machine::{Event, Origin};

/// The cube that the event at a place learnt.
pub(crate) fn cube_at(history: &[Event], place: usize) -> Option<&Cube>
    ensures { option_map (λ cube. cube.now) result ≡
        option_and_then cube_of (slice_get history.now place) }
{
    match history.get(place) {
        Some(Event::Learn(_, cube)) => Some(cube),
        _ => None,
    }
}

/// Whether copy 0 of the world meets the cube that the event at a place learnt.
fn meets_at(history: &[Event], place: usize, sig: &Sig, w: &World, picks: &mut Picks) -> bool
    requires { CanTry history.now sig.now w.now picks.old place }
    ensures met { IsTrue result ↔ IsMetAt history.now sig.now w.now place }
    ensures room { picks.new ≡ picks.old }
{
    match cube_at(history, place) {
        Some(cube) => meets(sig, w, 0, cube, picks),
        None => false,
    }
}

/// Whether a clause is live, has at least this level, and says that copy 0 of the world isn't in
/// the frame of this level.
fn refutes(
    history: &[Event],
    entry: &ClauseEntry,
    sig: &Sig,
    w: &World,
    level: u32,
    picks: &mut Picks,
) -> bool
    requires { CanTry history.now sig.now w.now picks.old entry.now.learnt }
    ensures met { IsTrue result ↔ IsRefuting history.now sig.now w.now level entry.now }
    ensures room { picks.new ≡ picks.old }
{
    if !entry.live || entry.level < level {
        return false;
    }
    meets_at(history, entry.learnt, sig, w, picks)
}

/// The first clause that does.
pub(crate) fn first_refuter(
    history: &[Event],
    clauses: &Clauses,
    sig: &Sig,
    w: &World,
    level: u32,
    picks: &mut Picks,
) -> Option<usize>
    requires { AreTriable history.now sig.now w.now picks.old clauses.now.items }
    ensures first { IsFirstMet history.now sig.now w.now level clauses.now.items result }
    ensures within { IfSome result (λ k. k < length clauses.now.items) }
    ensures room { picks.new ≡ picks.old }
{
    'each: for at in 0..clauses.count_live() {
        let clause = clauses.live_at(at);
        if refutes(history, &clause.entry, sig, w, level, picks) {
            return Some(clause.number);
        }
    }
    None
}

/// The world that the event at a place brought.
pub(crate) fn world_at(history: &[Event], place: usize) -> Option<&World>
    ensures { option_map (λ world. world.now) result ≡
        option_and_then world_of (slice_get history.now place) }
{
    match history.get(place) {
        Some(Event::Seed(_, world)) => Some(world),
        Some(Event::Before(_, Origin::Initial(world))) => Some(world),
        Some(Event::Before(_, Origin::Step(world))) => Some(world),
        Some(Event::Fail(_, world)) => Some(world),
        _ => None,
    }
}

/// The entry of the obligation that the worker works on, if it does.
pub(crate) fn own_entry(
    obligations: &[ObligationEntry],
    jobs: &[JobEntry],
    worker: u32,
) -> Option<ObligationEntry>
    ensures { result ≡ own_in worker obligations.now jobs.now }
{
    match work_of(jobs, worker) {
        Some(k) => obligations.get(k).copied(),
        None => None,
    }
}

/// The first clause that refutes the state of the obligation that the worker works on.
pub(crate) fn own_refuter(
    history: &[Event],
    state: &State,
    sig: &Sig,
    worker: u32,
    picks: &mut Picks,
) -> Option<usize>
    requires { AreTriableForOwn history.now sig.now worker picks.old state.now }
    ensures first { IsFirstOwn history.now sig.now worker state.now result }
    ensures within { IfSome result (λ k. k < length state.now.clauses.items) }
    ensures room { picks.new ≡ picks.old }
{
    match own_entry(state.obligations.entries(), state.jobs.as_slice(), worker) {
        Some(entry) => match world_at(history, entry.found) {
            Some(world) => {
                first_refuter(history, &state.clauses, sig, world, entry.level, picks)
            }
            None => None,
        },
        None => None,
    }
}

/// The first clause that refutes a state in the frontier's frame.
pub(crate) fn seed_refuter(
    history: &[Event],
    state: &State,
    sig: &Sig,
    w: &World,
    picks: &mut Picks,
) -> Option<usize>
    requires { AreTriable history.now sig.now w.now picks.old state.now.clauses.items }
    ensures first { IsFirstMet history.now sig.now w.now state.now.clauses.frontier
        state.now.clauses.items result }
    ensures within { IfSome result (λ k. k < length state.now.clauses.items) }
    ensures room { picks.new ≡ picks.old }
{
    first_refuter(
        history,
        &state.clauses,
        sig,
        w,
        state.clauses.frontier(),
        picks,
    )
}

/// The first clause that refutes a step before the obligation that the worker works on, in the
/// frame below it, where that is one of those told by clauses.
pub(crate) fn step_refuter(
    history: &[Event],
    state: &State,
    sig: &Sig,
    w: &World,
    worker: u32,
    picks: &mut Picks,
) -> Option<usize>
    requires { AreTriable history.now sig.now w.now picks.old state.now.clauses.items }
    ensures first { IsFirstBelow history.now sig.now w.now worker state.now result }
    ensures within { IfSome result (λ k. k < length state.now.clauses.items) }
    ensures room { picks.new ≡ picks.old }
{
    match own_entry(state.obligations.entries(), state.jobs.as_slice(), worker) {
        Some(entry) => {
            if entry.level < 2 {
                return None;
            }
            first_refuter(history, &state.clauses, sig, w, entry.level - 1, picks)
        }
        None => None,
    }
}

/// The entry of the clause that the worker pushes, if it does.
pub(crate) fn pushed_entry(
    clauses: &[ClauseEntry],
    jobs: &[JobEntry],
    worker: u32,
) -> Option<ClauseEntry>
    ensures { result ≡ pushed_in worker clauses.now jobs.now }
{
    match push_of(jobs, worker) {
        Some(k) => clauses.get(k).copied(),
        None => None,
    }
}

/// The first clause that refutes a step out of the frame of the clause that the worker pushes.
pub(crate) fn fail_refuter(
    history: &[Event],
    state: &State,
    sig: &Sig,
    w: &World,
    worker: u32,
    picks: &mut Picks,
) -> Option<usize>
    requires { AreTriable history.now sig.now w.now picks.old state.now.clauses.items }
    ensures first { IsFirstPushed history.now sig.now w.now worker state.now result }
    ensures within { IfSome result (λ k. k < length state.now.clauses.items) }
    ensures room { picks.new ≡ picks.old }
{
    match pushed_entry(state.clauses.entries(), state.jobs.as_slice(), worker) {
        Some(entry) => { first_refuter(history, &state.clauses, sig, w, entry.level, picks) }
        None => None,
    }
}
