//! Failed pushes that a clause makes invalid, since it refutes the state that their step begins in.
//! None of this takes memory.

ghost use Rattle.std.specs.Prelude.{◌≡◌, ◌≤◌, ◌↔◌, IsTrue, length};
ghost use Rattle.up_core.specs.Lapsing.{AreLapsable, AreLapsed, CanHit, CanLapse, IsHit, IsLapsed, IsWorldHit};
ghost use Rattle.up_core.specs.Places.{live_of};

use crate::refuting::world_at;
use crate::state::ClauseEntry;
use fo_core::Sig;
use up_diagram::{Cube, Picks, meets};
use up_machine::Event;

/// The clause's cube, and the levels of the clauses whose failed pushes are looked at.
#[derive(Clone, Copy)]
pub(crate) struct Lapse<'a> {
    pub history: &'a [Event],
    pub sig: &'a Sig,
    pub cube: &'a Cube,
    pub low: u32,
    pub high: u32,
}

/// Whether copy 0 of the world that the event at a place brought meets the cube.
fn hits_at(lapse: &Lapse, place: usize, picks: &mut Picks) -> bool
    requires meet { CanHit lapse.now.history.now lapse.now.sig.now lapse.now.cube.now place }
    requires room { length lapse.now.cube.now.sorts ≤ picks.old }
    ensures met { IsTrue result ↔
        IsWorldHit lapse.now.history.now lapse.now.sig.now lapse.now.cube.now place }
    ensures room { picks.new ≡ picks.old }
{
    match world_at(lapse.history, place) {
        Some(world) => meets(lapse.sig, world, 0, lapse.cube, picks),
        None => false,
    }
}

/// Whether the clause refutes the state that the entry's valid failed push begins in, and the entry
/// has one of the levels.
fn is_hit(lapse: &Lapse, entry: &ClauseEntry, picks: &mut Picks) -> bool
    requires meet { CanLapse lapse.now.history.now lapse.now.sig.now lapse.now.cube.now
        lapse.now.low lapse.now.high entry.now }
    requires room { length lapse.now.cube.now.sorts ≤ picks.old }
    ensures hit { IsTrue result ↔ IsHit lapse.now.history.now lapse.now.sig.now
        lapse.now.cube.now lapse.now.low lapse.now.high entry.now }
    ensures room { picks.new ≡ picks.old }
{
    if entry.level < lapse.low || entry.level > lapse.high {
        return false;
    }
    match entry.failed {
        Some(place) => hits_at(lapse, place, picks),
        None => false,
    }
}

/// The entry without its failed push, if that is hit.
fn lapse_entry(lapse: &Lapse, entry: &mut ClauseEntry, picks: &mut Picks)
    requires meet { CanLapse lapse.now.history.now lapse.now.sig.now lapse.now.cube.now
        lapse.now.low lapse.now.high entry.old }
    requires room { length lapse.now.cube.now.sorts ≤ picks.old }
    ensures lapsed { IsLapsed lapse.now.history.now lapse.now.sig.now lapse.now.cube.now
        lapse.now.low lapse.now.high entry.old entry.new }
    ensures room { picks.new ≡ picks.old }
{
    if is_hit(lapse, entry, picks) {
        entry.failed = None;
    }
}

/// Takes away the failed pushes that are hit, of the live clauses of these numbers.
pub(crate) fn lapse_all(
    lapse: &Lapse,
    entries: &mut [ClauseEntry],
    live: &[usize],
    picks: &mut Picks,
)
    requires live { live.now ≡ live_of entries.old }
    requires meet { AreLapsable lapse.now.history.now lapse.now.sig.now lapse.now.cube.now
        lapse.now.low lapse.now.high entries.old }
    requires room { length lapse.now.cube.now.sorts ≤ picks.old }
    ensures lapsed { AreLapsed lapse.now.history.now lapse.now.sig.now lapse.now.cube.now
        lapse.now.low lapse.now.high entries.old entries.new }
    ensures room { picks.new ≡ picks.old }
{
    'each: for k in live {
        lapse_entry(lapse, &mut entries[*k], picks);
    }
}
