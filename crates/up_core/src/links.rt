//! The chain that a run without a universal invariant tells: links from an initial state through
//! obligations and their parents to a violating state.

ghost use Rattle.std.specs.Prelude.{◌≡◌, ◌<◌, ◌≤◌, ◌^◌, ◌-◌, None, Some, IfOk, length, option_map, slice_get};
ghost use Rattle.up_core.specs.Telling.{AreLinksBy, AreLinksOf, CanGoOn, CanLink, CanLinkAt, CanTellLinks, IsLinkTo, job_taken, last_job, root_in, root_place as place_of_root, traced_by};

use crate::refuting::world_at;
use crate::state::{ObligationEntry, Progress, State};
use fo_core::{Seq, Sig, World};
use fo_embed::find_embedding;
use std::alloc::{AllocError, Global};
use up_claims::Link;
use up_machine::{Event, Job};

/// The number of the last copy.
fn last_copy(world: &World) -> u32
    requires { length world.now.copies < 2 ^ 32 }
    ensures { result ≡ length world.now.copies - 1 }
{
    (world.copies.len() as u32).saturating_sub(1)
}

/// The link of copy 0 of the world, by the first map that embeds it in the last copy of the origin.
fn link_to(alloc: Global, sig: &Sig, origin: &World, world: &World) -> Result<Link, AllocError>
    requires { CanLink sig.now origin.now world.now }
    ensures { IfOk result (λ link. IsLinkTo sig.now origin.now world.now link) }
{
    let state = world.alone(alloc, 0)?;
    let last = last_copy(origin);
    match find_embedding(alloc, sig, &state, 0, origin, last)? {
        Some(map) => Ok(Link {
            origin: origin.copy(alloc)?,
            state,
            map,
        }),
        None => unreachable!(),
    }
}

/// The entry of an obligation.
fn entry_at(obligations: &[ObligationEntry], place: usize) -> ObligationEntry
    requires { place < length obligations.now }
    ensures { slice_get obligations.now place ≡ Some result }
{
    obligations[place]
}

/// The obligation that this one comes before.
fn parent_of(entry: ObligationEntry) -> Option<usize>
    ensures { result ≡ entry.parent }
{
    match entry.parent {
        Some(parent) => Some(parent as usize),
        None => None,
    }
}

/// The links from the obligation of this number on through its parents, to a seed. The first one's
/// origin is given. Levels rise from link to link, and stay below `top`.
fn links_from(
    alloc: Global,
    sig: &Sig,
    history: &[Event],
    obligations: &[ObligationEntry],
    top: u32,
    first: usize,
    start: &World,
) -> Result<Seq<Link>, AllocError>
    requires first { CanLinkAt sig.now history.now obligations.now top start.now first }
    requires more { CanGoOn sig.now history.now obligations.now top }
    ensures { IfOk result (λ links.
        AreLinksBy sig.now history.now obligations.now start.now first links) }
{
    let mut links = Seq::new(alloc);
    let mut origin = start;
    let mut place = first;
    'each: for _level in 0..top {
        let entry = entry_at(obligations, place);
        match world_at(history, entry.found) {
            Some(world) => {
                links.push(link_to(alloc, sig, origin, world)?)?;
                match parent_of(entry) {
                    Some(parent) => {
                        origin = world;
                        place = parent;
                    }
                    None => return Ok(links),
                }
            }
            None => unreachable!(),
        }
    }
    unreachable!()
}

/// The job that the worker takes by this event, if it is such.
fn taken_by(worker: u32, event: &Event) -> Option<Job>
    ensures { result ≡ job_taken worker event.now }
{
    match event {
        Event::Take(taker, job) => { if *taker == worker { Some(*job) } else { None } }
        _ => None,
    }
}

/// The job that the worker took last.
fn last_taken(worker: u32, history: &[Event]) -> Option<Job>
    ensures { result ≡ last_job worker None history.now }
{
    let mut last = None;
    'each: for event in history {
        last = taken_by(worker, event).or(last);
    }
    last
}

/// The obligation that the worker took last, if it took that to trace it.
fn traced(worker: u32, history: &[Event]) -> Option<u32>
    ensures { result ≡ traced_by (last_job worker None history.now) }
{
    match last_taken(worker, history) {
        Some(Job::Trace(k)) => Some(k),
        _ => None,
    }
}

/// Where the root of an obligation stands in the history, if it is rooted.
fn root_place(progress: Progress) -> Option<usize>
    ensures { result ≡ place_of_root progress }
{
    match progress {
        Progress::Rooted(place) => Some(place),
        _ => None,
    }
}

/// The root of an obligation, if it is rooted.
fn root_of<'a>(history: &'a [Event], obligations: &[ObligationEntry], k: usize) -> Option<&'a World>
    ensures { option_map (λ world. world.now) result ≡ root_in history.now obligations.now k }
{
    match obligations.get(k) {
        Some(entry) => match root_place(entry.progress) {
            Some(place) => world_at(history, place),
            None => None,
        },
        None => None,
    }
}

/// The links of the obligation that the worker traced last, from its root on.
pub(crate) fn links_of(
    alloc: Global,
    sig: &Sig,
    history: &[Event],
    state: &State,
    worker: u32,
) -> Result<Seq<Link>, AllocError>
    requires { CanTellLinks sig.now history.now state.now worker }
    ensures { IfOk result (λ links. AreLinksOf sig.now history.now state.now worker links) }
{
    let obligations = state.obligations.entries();
    match traced(worker, history) {
        Some(k) => match root_of(history, obligations, k as usize) {
            Some(root) => {
                let start = root.alone(alloc, 0)?;
                let top = state.clauses.frontier() + 1;
                links_from(alloc, sig, history, obligations, top, k as usize, &start)
            }
            None => unreachable!(),
        },
        None => unreachable!(),
    }
}
