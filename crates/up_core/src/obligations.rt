//! The obligations' entries, and the numbers of those that aren't done. But for making room none of
//! this takes memory.

ghost use Rattle.std.specs.Prelude.{◌≡◌, ℕ, ◌+◌, ◌<◌, ◌≤◌, cond, not, nat_eq, nat_lt, false, true, Some, slice_get, [], ◌∷◌, ◌++◌, length, OnOk};
ghost use Rattle.std.specs.List.{count_by, filter, insert};
ghost use Rattle.std.specs.Vec.{vec_capacity, vec_len};
ghost use Rattle.up_core.specs.Choice.{is_done as done_of};
ghost use Rattle.up_core.specs.Places.{is_seed, open_of};
ghost use Rattle.up_core.specs.Steps.{change_where, finished, parent_in, with_progress};

use crate::numbers::{admit, reserve_beside, strike};
use crate::state::{ObligationEntry, Progress};
use std::alloc::{AllocError, Global};
use std::marker::Model;

/// The entries of all obligations, by their numbers. What goes through those that aren't done
/// doesn't come by the others.
///
/// Contracts see the entries, and for how many more there is room.
#[derive(Drop)]
pub(crate) struct Obligations {
    entries: Vec<ObligationEntry>,
    /// The numbers of those that aren't done, in order.
    open: Vec<usize>,
    /// How many are seeds.
    seeds: usize,
    room: usize,
}

/// An obligation that isn't done.
#[derive(Clone, Copy)]
pub(crate) struct OpenObligation {
    /// Its number among all obligations.
    pub number: usize,
    /// Its entry.
    pub entry: ObligationEntry,
}

impl Model for Obligations {
    ghost use Rattle.up_core.specs.Places.{ObligationsView};

    ghost Value = { ObligationsView };

    ghost use Rattle.up_core.specs.Keeping.{AreOpenKept};

    ghost view = { λ o. record { items = o.entries.items; room = o.room } };

    ghost invariant = { λ o. AreOpenKept o.entries o.open o.seeds o.room };
}

pub(crate) fn is_done(progress: Progress) -> bool
    ensures { result ≡ done_of progress }
{
    matches!(progress, Progress::Done)
}

/// The entry of an obligation.
pub(crate) fn entry_at(entries: &[ObligationEntry], k: usize) -> ObligationEntry
    requires { k < length entries.now }
    ensures { slice_get entries.now k ≡ Some result }
{
    entries[k]
}

/// The number of an obligation whose progress changes stands in the list where it isn't done then.
fn renew(open: &mut Vec<usize>, k: usize, was_done: bool, done: bool)
    requires { was_done ≡ true → vec_len open.old < vec_capacity open.old }
    ensures items { open.new.items ≡ cond done (filter (λ j. not (nat_eq j k)) open.old.items)
        (cond was_done (insert open.old.items (count_by (λ j. nat_lt j k) open.old.items) k)
        open.old.items) }
    ensures capacity { vec_capacity open.new ≡ vec_capacity open.old }
{
    if done {
        strike(open, k);
        return;
    }
    if was_done {
        admit(open, k);
    }
}

/// Sets what has become of the obligation at a place, if one is given that is there.
fn put_progress(
    entries: &mut [ObligationEntry],
    open: &mut Vec<usize>,
    place: Option<usize>,
    progress: Progress,
)
    requires open { open.old.items ≡ open_of entries.old }
    requires room { length entries.old ≤ vec_capacity open.old }
    ensures entries { entries.new ≡ change_where place (with_progress progress) entries.old }
    ensures open { open.new.items ≡ open_of entries.new }
    ensures capacity { vec_capacity open.new ≡ vec_capacity open.old }
{
    if let Some(k) = place {
        if k < entries.len() {
            let was_done = is_done(entries[k].progress);
            entries[k].progress = progress;
            renew(open, k, was_done, is_done(progress));
        }
    }
}

/// 1 for a seed, else 0.
pub(crate) fn count_seed(entry: &ObligationEntry) -> usize
    ensures { result ≡ cond (is_seed entry.now) 1 0 }
{
    if entry.parent.is_none() { 1 } else { 0 }
}

/// The parent of the obligation at a place, if there is one.
fn parent_at(entries: &[ObligationEntry], place: Option<usize>) -> Option<usize>
    ensures { result ≡ parent_in entries.now place }
{
    match place {
        Some(k) => match entries.get(k) {
            Some(entry) => match entry.parent {
                Some(parent) => Some(parent as usize),
                None => None,
            },
            None => None,
        },
        None => None,
    }
}

impl Obligations {
    /// No obligations.
    pub fn new(alloc: Global) -> Obligations
        ensures { result ≡ record { items = []; room = 0 } }
    {
        Obligations {
            entries: Vec::new(alloc),
            open: Vec::new(alloc),
            seeds: 0,
            room: 0,
        }
    }

    /// Makes room for this many further obligations. Where memory is refused nothing is lost.
    pub fn reserve(&mut self, more: usize) -> Result<(), AllocError>
        ensures room { OnOk result (more ≤ self.new.room) }
        ensures kept { self.old.room ≤ self.new.room }
        ensures items { self.new.items ≡ self.old.items }
    {
        self.entries.reserve(more)?;
        reserve_beside(&mut self.open, self.entries.len(), more)?;
        self.room = self.room.max(more);
        Ok(())
    }

    /// The entries of all obligations.
    pub fn entries(&self) -> &[ObligationEntry]
        ensures { result.now ≡ self.now.items }
    {
        self.entries.as_slice()
    }

    /// How many obligations aren't done.
    pub fn count_open(&self) -> usize
        ensures { result ≡ length (open_of self.now.items) }
    {
        self.open.len()
    }

    /// The obligation at this place of those that aren't done.
    pub fn open_at(&self, at: usize) -> OpenObligation
        requires { at < length (open_of self.now.items) }
        ensures number { slice_get (open_of self.now.items) at ≡ Some result.number }
        ensures there { slice_get self.now.items result.number ≡ Some result.entry }
    {
        let number = self.open[at];
        OpenObligation {
            number,
            entry: entry_at(self.entries.as_slice(), number),
        }
    }

    /// How many obligations are seeds.
    pub fn seeds(&self) -> usize
        ensures value { result ≡ count_by is_seed self.now.items }
        ensures few { result ≤ length self.now.items }
    {
        self.seeds
    }

    /// A further obligation, which isn't done.
    pub fn push(&mut self, entry: ObligationEntry)
        requires room { 1 ≤ self.old.room }
        requires open { done_of entry.progress ≡ false }
        ensures items { self.new.items ≡ self.old.items ++ entry ∷ [] }
        ensures room { self.new.room + 1 ≡ self.old.room }
    {
        self.seeds += count_seed(&entry);
        self.open.push_reserved(self.entries.len());
        self.entries.push_reserved(entry);
        self.room -= 1;
    }

    /// Sets what has become of the obligation at a place, if one is given that is there.
    pub fn set_progress(&mut self, place: Option<usize>, progress: Progress)
        ensures items { self.new.items ≡
            change_where place (with_progress progress) self.old.items }
        ensures room { self.new.room ≡ self.old.room }
    {
        put_progress(self.entries.as_mut_slice(), &mut self.open, place, progress);
    }

    /// The obligation at a place, if one is given that is there, is done, and its parent ready.
    pub fn finish(&mut self, place: Option<usize>)
        ensures items { self.new.items ≡ finished place self.old.items }
        ensures room { self.new.room ≡ self.old.room }
    {
        let parent = parent_at(self.entries.as_slice(), place);
        self.set_progress(place, Progress::Done);
        self.set_progress(parent, Progress::Ready);
    }
}
