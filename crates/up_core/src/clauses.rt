//! The clauses' entries and the last frame, and what is kept beside them: the numbers of the live
//! clauses and of those that may rise, and which levels have live clauses. But for making room none
//! of this takes memory.

ghost use Rattle.std.specs.Prelude.{◌≡◌, ℕ, ◌+◌, ◌<◌, ◌≤◌, ◌^◌, ◌||◌, cond, nat_eq, Some, slice_get, [], ◌∷◌, ◌++◌, length, IfOk, OnOk};
ghost use Rattle.std.specs.List.{list_any};
ghost use Rattle.std.specs.Vec.{vec_capacity, vec_len};
ghost use Rattle.up_core.specs.Keeping.{AreGathered, HasRoom};
ghost use Rattle.up_core.specs.Lapsing.{AreLapsable, AreLapsed};
ghost use Rattle.up_core.specs.Places.{due_of, has_level as has_level_of, live_of, may_rise};
ghost use Rattle.up_core.specs.Steps.{change_where, failed_entry, gone_entry, new_entry, raised_entry};
ghost use Rattle.up_machine.specs.Replay.{change_at};

use crate::lapsing::{Lapse, lapse_all};
use crate::numbers::{reserve_beside, strike};
use crate::state::ClauseEntry;
use std::alloc::{AllocError, Global};
use std::marker::Model;
use up_diagram::Picks;

/// The entries of all clauses, by their numbers, and the last frame. A clause that is gone keeps
/// its number and entry, but what goes through the live clauses doesn't come by it.
///
/// Contracts see the entries, the last frame, and for how many more clauses or frames there is
/// room.
#[derive(Drop)]
pub(crate) struct Clauses {
    entries: Vec<ClauseEntry>,
    /// The numbers of the live clauses, in order.
    live: Vec<usize>,
    /// The numbers of those of level 1 to the last frame without a valid failed push, in order.
    due: Vec<usize>,
    /// For each level from 0 to the last frame, whether a live clause has exactly this level.
    levels: Vec<bool>,
    frontier: u32,
    room: usize,
}

/// A live clause.
#[derive(Clone, Copy)]
pub(crate) struct LiveClause {
    /// Its number among all clauses.
    pub number: usize,
    /// Its entry.
    pub entry: ClauseEntry,
}

impl Model for Clauses {
    ghost use Rattle.up_core.specs.Places.{ClausesView};

    ghost Value = { ClausesView };

    ghost use Rattle.up_core.specs.Keeping.{AreKept};

    ghost view = { λ c. record { items = c.entries.items; frontier = c.frontier; room = c.room } };

    ghost invariant = { λ c. AreKept c.entries c.live c.due c.levels c.frontier c.room };
}

/// The clause at a place, if it is there, goes.
fn set_gone(entries: &mut [ClauseEntry], place: usize)
    ensures { entries.new ≡ change_at place gone_entry entries.old }
{
    if place < entries.len() {
        let entry = &mut entries[place];
        entry.live = false;
        entry.failed = None;
    }
}

/// The clause at a place, if one is given that is there, has the failed push that the event at this
/// place of the history brings.
fn set_failed(entries: &mut [ClauseEntry], place: Option<usize>, found: usize)
    ensures { entries.new ≡ change_where place (failed_entry found) entries.old }
{
    if let Some(k) = place {
        if k < entries.len() {
            entries[k].failed = Some(found);
        }
    }
}

/// The clause at a place, if one is given that is there, rises to this level.
fn set_level(entries: &mut [ClauseEntry], place: Option<usize>, level: u32)
    ensures { entries.new ≡ change_where place (raised_entry level) entries.old }
{
    if let Some(k) = place {
        if k < entries.len() {
            let entry = &mut entries[k];
            entry.level = level;
            entry.failed = None;
        }
    }
}

/// The entry of a clause.
pub(crate) fn entry_at(entries: &[ClauseEntry], k: usize) -> ClauseEntry
    requires { k < length entries.now }
    ensures { slice_get entries.now k ≡ Some result }
{
    entries[k]
}

/// The clause at this place of the live ones, whose numbers are these.
fn live_clause(entries: &[ClauseEntry], live: &[usize], at: usize) -> LiveClause
    requires live { live.now ≡ live_of entries.now }
    requires within { at < length live.now }
    ensures number { slice_get live.now at ≡ Some result.number }
    ensures there { slice_get entries.now result.number ≡ Some result.entry }
{
    let number = live[at];
    LiveClause {
        number,
        entry: entry_at(entries, number),
    }
}

/// Whether the clause is live, of level 1 to the last frame, and has no valid failed push.
fn can_rise(entry: &ClauseEntry, frontier: u32) -> bool
    ensures { result ≡ may_rise frontier entry.now }
{
    entry.live && 1 <= entry.level && entry.level <= frontier && entry.failed.is_none()
}

/// Appends the clause's number, if it may rise.
fn put_due(due: &mut Vec<usize>, clause: &LiveClause, frontier: u32)
    requires { vec_len due.old + 1 ≤ vec_capacity due.old }
    ensures items { due.new.items ≡
        due.old.items ++ cond (may_rise frontier clause.now.entry) (clause.now.number ∷ []) [] }
    ensures more { vec_len due.new ≤ vec_len due.old + 1 }
    ensures capacity { vec_capacity due.new ≡ vec_capacity due.old }
{
    if can_rise(&clause.entry, frontier) {
        due.push_reserved(clause.number);
    }
}

/// Gathers the numbers of the clauses that may rise.
fn gather_due(due: &mut Vec<usize>, entries: &[ClauseEntry], live: &[usize], frontier: u32)
    requires live { live.now ≡ live_of entries.now }
    requires room { length live.now ≤ vec_capacity due.old }
    ensures items { due.new.items ≡ due_of frontier entries.now }
    ensures capacity { vec_capacity due.new ≡ vec_capacity due.old }
{
    due.clear();
    'each: for at in 0..live.len() {
        let clause = live_clause(entries, live, at);
        put_due(due, &clause, frontier);
    }
}

/// Marks this level, if it is one of those that are marked.
fn mark_level(levels: &mut [bool], level: u32)
    ensures same { length levels.new ≡ length levels.old }
    ensures marked { (i : ℕ) (b : _) → slice_get levels.old i ≡ Some b →
        slice_get levels.new i ≡ Some (b || nat_eq level i) }
{
    let at = level as usize;
    if at < levels.len() {
        levels[at] = true;
    }
}

/// Gathers which levels have live clauses.
fn gather_levels(levels: &mut [bool], entries: &[ClauseEntry], live: &[usize])
    requires { live.now ≡ live_of entries.now }
    ensures same { length levels.new ≡ length levels.old }
    ensures levels { (i : ℕ) → i < length levels.new →
        slice_get levels.new i ≡ Some (list_any (has_level_of i) entries.now) }
{
    levels.fill(false);
    'each: for at in 0..live.len() {
        let clause = live_clause(entries, live, at);
        mark_level(levels, clause.entry.level);
    }
}

/// Gathers both.
fn gather(
    entries: &[ClauseEntry],
    live: &[usize],
    frontier: u32,
    due: &mut Vec<usize>,
    levels: &mut Vec<bool>,
)
    requires live { live.now ≡ live_of entries.now }
    requires room { length live.now ≤ vec_capacity due.old }
    requires levels { length levels.old.items ≡ frontier + 1 }
    ensures gathered { AreGathered entries.now frontier due.new.items levels.new.items }
    ensures due_room { vec_capacity due.new ≡ vec_capacity due.old }
    ensures levels_room { (n : ℕ) → HasRoom n levels.old → HasRoom n levels.new }
{
    gather_due(due, entries, live, frontier);
    gather_levels(levels.as_mut_slice(), entries, live);
}

impl Clauses {
    /// No clauses, and one frame.
    pub fn new(alloc: Global) -> Result<Clauses, AllocError>
        ensures { IfOk result (λ clauses. clauses ≡ record { items = []; frontier = 1; room = 0 }) }
    {
        Ok(Clauses {
            entries: Vec::new(alloc),
            live: Vec::new(alloc),
            due: Vec::new(alloc),
            levels: vec![in alloc; false; 2]?,
            frontier: 1,
            room: 0,
        })
    }

    /// Makes room for this many further clauses or frames. Where memory is refused nothing is lost.
    pub fn reserve(&mut self, more: usize) -> Result<(), AllocError>
        ensures room { OnOk result (more ≤ self.new.room) }
        ensures kept { self.old.room ≤ self.new.room }
        ensures items { self.new.items ≡ self.old.items }
        ensures frontier { self.new.frontier ≡ self.old.frontier }
    {
        self.entries.reserve(more)?;
        self.live.reserve(more)?;
        self.levels.reserve(more)?;
        reserve_beside(&mut self.due, self.live.len(), more)?;
        self.room = self.room.max(more);
        Ok(())
    }

    /// The last frame.
    pub fn frontier(&self) -> u32
        ensures { result ≡ self.now.frontier }
    {
        self.frontier
    }

    /// How many clauses there are, gone ones too.
    pub fn len(&self) -> usize
        ensures { result ≡ length self.now.items }
    {
        self.entries.len()
    }

    /// The entries of all clauses.
    pub fn entries(&self) -> &[ClauseEntry]
        ensures { result.now ≡ self.now.items }
    {
        self.entries.as_slice()
    }

    /// How many clauses are live.
    pub fn count_live(&self) -> usize
        ensures { result ≡ length (live_of self.now.items) }
    {
        self.live.len()
    }

    /// The clause at this place of the live ones.
    pub fn live_at(&self, at: usize) -> LiveClause
        requires { at < length (live_of self.now.items) }
        ensures number { slice_get (live_of self.now.items) at ≡ Some result.number }
        ensures there { slice_get self.now.items result.number ≡ Some result.entry }
    {
        live_clause(self.entries.as_slice(), self.live.as_slice(), at)
    }

    /// The numbers of the clauses that may rise: live ones of level 1 to the last frame without a
    /// valid failed push.
    pub fn due(&self) -> &[usize]
        ensures { result.now ≡ due_of self.now.frontier self.now.items }
    {
        self.due.as_slice()
    }

    /// Whether some live clause has exactly this level.
    pub fn has_level(&self, level: u32) -> bool
        requires { level ≤ self.now.frontier }
        ensures { result ≡ list_any (has_level_of level) self.now.items }
    {
        self.levels[level as usize]
    }

    /// A clause is learnt at this level, by the event at this place of the history.
    pub fn push(&mut self, found: usize, level: u32)
        requires { 1 ≤ self.old.room }
        ensures items { self.new.items ≡ self.old.items ++ new_entry found level ∷ [] }
        ensures frontier { self.new.frontier ≡ self.old.frontier }
        ensures room { self.new.room + 1 ≡ self.old.room }
    {
        self.live.push_reserved(self.entries.len());
        self.entries.push_reserved(ClauseEntry {
            learnt: found,
            level,
            live: true,
            failed: None,
        });
        self.room -= 1;
        let entries = self.entries.as_slice();
        let live = self.live.as_slice();
        gather(
            entries,
            live,
            self.frontier,
            &mut self.due,
            &mut self.levels,
        );
    }

    /// The next frame is opened.
    pub fn advance(&mut self)
        requires narrow { self.old.frontier + 1 < 2 ^ 32 }
        requires room { 1 ≤ self.old.room }
        ensures items { self.new.items ≡ self.old.items }
        ensures frontier { self.new.frontier ≡ self.old.frontier + 1 }
        ensures room { self.new.room + 1 ≡ self.old.room }
    {
        self.frontier += 1;
        self.levels.push_reserved(false);
        self.room -= 1;
        let entries = self.entries.as_slice();
        let live = self.live.as_slice();
        gather(
            entries,
            live,
            self.frontier,
            &mut self.due,
            &mut self.levels,
        );
    }

    /// The clause at a place, if it is there, goes.
    pub fn retire(&mut self, place: usize)
        ensures items { self.new.items ≡ change_at place gone_entry self.old.items }
        ensures frontier { self.new.frontier ≡ self.old.frontier }
        ensures room { self.new.room ≡ self.old.room }
    {
        set_gone(self.entries.as_mut_slice(), place);
        strike(&mut self.live, place);
        let entries = self.entries.as_slice();
        let live = self.live.as_slice();
        gather(
            entries,
            live,
            self.frontier,
            &mut self.due,
            &mut self.levels,
        );
    }

    /// The clause at a place, if one is given that is there, has the failed push that the event at
    /// this place of the history brings.
    pub fn fail(&mut self, place: Option<usize>, found: usize)
        ensures items { self.new.items ≡ change_where place (failed_entry found) self.old.items }
        ensures frontier { self.new.frontier ≡ self.old.frontier }
        ensures room { self.new.room ≡ self.old.room }
    {
        set_failed(self.entries.as_mut_slice(), place, found);
        let entries = self.entries.as_slice();
        let live = self.live.as_slice();
        gather(
            entries,
            live,
            self.frontier,
            &mut self.due,
            &mut self.levels,
        );
    }

    /// The clause at a place, if one is given that is there, rises to this level.
    pub fn raise(&mut self, place: Option<usize>, level: u32)
        ensures items { self.new.items ≡ change_where place (raised_entry level) self.old.items }
        ensures frontier { self.new.frontier ≡ self.old.frontier }
        ensures room { self.new.room ≡ self.old.room }
    {
        set_level(self.entries.as_mut_slice(), place, level);
        let entries = self.entries.as_slice();
        let live = self.live.as_slice();
        gather(
            entries,
            live,
            self.frontier,
            &mut self.due,
            &mut self.levels,
        );
    }

    /// Takes away the failed pushes that are hit.
    pub fn lapse(&mut self, lapse: &Lapse, picks: &mut Picks)
        requires meet { AreLapsable lapse.now.history.now lapse.now.sig.now lapse.now.cube.now
            lapse.now.low lapse.now.high self.old.items }
        requires fits { length lapse.now.cube.now.sorts ≤ picks.old }
        ensures lapsed { AreLapsed lapse.now.history.now lapse.now.sig.now lapse.now.cube.now
            lapse.now.low lapse.now.high self.old.items self.new.items }
        ensures frontier { self.new.frontier ≡ self.old.frontier }
        ensures room { self.new.room ≡ self.old.room }
        ensures picks { picks.new ≡ picks.old }
    {
        lapse_all(
            lapse,
            self.entries.as_mut_slice(),
            self.live.as_slice(),
            picks,
        );
        let entries = self.entries.as_slice();
        let live = self.live.as_slice();
        gather(
            entries,
            live,
            self.frontier,
            &mut self.due,
            &mut self.levels,
        );
    }
}
