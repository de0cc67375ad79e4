//! What events that bring a world do to the numbers, and those that change a clause. None takes
//! memory. A world is named by the place that its event is to have in the history.

ghost use Rattle.std.specs.Prelude.{◌≡◌, ℕ, ◌+◌, ◌<◌, ◌≤◌, ◌^◌, false, None, Some, [], ◌∷◌, ◌++◌, length};
ghost use Rattle.std.specs.Option.{option_to_list};
ghost use Rattle.up_machine.specs.Replay.{change_at};
ghost use Rattle.up_core.specs.declared.state.Progress.TheVariants.{Ready, Rooted, Waiting};
ghost use Rattle.up_core.specs.Becoming.{IsPreceded, IsState};
ghost use Rattle.up_core.specs.Choice.{is_done};
ghost use Rattle.up_core.specs.Room.{HasSpare};
ghost use Rattle.up_core.specs.Steps.{change_where, entry_before, failed_entry, gone_entry, others_of, progress_of, push_in, with_progress, work_in};

use crate::lists::{push_of, release, work_of};
use crate::obligations::Obligations;
use crate::state::{ObligationEntry, Progress, State};
use up_machine::Origin;

/// The entry of a step before the obligation at a place, if one is given that is there.
fn step_before(
    obligations: &[ObligationEntry],
    place: Option<usize>,
    found: usize,
) -> Option<ObligationEntry>
    requires { length obligations.now < 2 ^ 32 }
    ensures { result ≡ entry_before obligations.now place found }
{
    match place {
        Some(k) => match obligations.get(k) {
            Some(entry) => Some(ObligationEntry {
                level: entry.level.saturating_sub(1),
                found,
                parent: Some(k as u32),
                progress: first_progress(entry.level, found),
            }),
            None => None,
        },
        None => None,
    }
}

/// A step into an obligation of level 1 begins in an initial state, so it is its own root.
fn first_progress(level: u32, found: usize) -> Progress
    ensures { result ≡ progress_of level found }
{
    if level >= 2 {
        Progress::Ready
    } else {
        Progress::Rooted(found)
    }
}

/// Appends an entry, if one is given.
fn push_if(obligations: &mut Obligations, entry: Option<ObligationEntry>)
    requires room { 1 ≤ obligations.old.room }
    requires fresh { (e : _) → entry ≡ Some e → is_done e.progress ≡ false }
    ensures items { obligations.new.items ≡ obligations.old.items ++ option_to_list entry }
    ensures room { (n : ℕ) → n + 1 ≤ obligations.old.room → n ≤ obligations.new.room }
{
    if let Some(entry) = entry {
        obligations.push(entry);
    }
}

impl State {
    /// A violating state of the frontier's frame becomes an obligation.
    pub(crate) fn seed(&mut self, worker: u32, found: usize)
        requires productive { self.old.productive + 1 < 2 ^ 32 }
        requires room { HasSpare 1 self.old }
        ensures state { let s = self.old in IsState self.new
            s.clauses.items
            (s.obligations.items ++ record {
              level = s.clauses.frontier;
              found = found;
              parent = None;
              progress = Ready;
            } ∷ [])
            (others_of worker s.jobs.items)
            s.clauses.frontier s.secure s.calm (s.productive + 1) s.ended }
        ensures room { (n : ℕ) → HasSpare (n + 1) self.old → HasSpare n self.new }
    {
        self.obligations.push(ObligationEntry {
            level: self.clauses.frontier(),
            found,
            parent: None,
            progress: Progress::Ready,
        });
        release(&mut self.jobs, worker);
        self.productive += 1;
    }

    /// An initial state was found in which the obligation that the worker works on embeds.
    pub(crate) fn root(&mut self, worker: u32, found: usize)
        requires { self.old.productive + 1 < 2 ^ 32 }
        ensures state { let s = self.old in IsState self.new
            s.clauses.items
            (change_where (work_in worker s.jobs.items) (with_progress (Rooted found))
            s.obligations.items)
            (others_of worker s.jobs.items)
            s.clauses.frontier s.secure s.calm (s.productive + 1) s.ended }
        ensures room { (n : ℕ) → HasSpare n self.old → HasSpare n self.new }
    {
        let work = work_of(self.jobs.as_slice(), worker);
        self.obligations.set_progress(work, Progress::Rooted(found));
        release(&mut self.jobs, worker);
        self.productive += 1;
    }

    /// A step before the obligation that the worker works on becomes an obligation.
    pub(crate) fn precede(&mut self, worker: u32, found: usize)
        requires productive { self.old.productive + 1 < 2 ^ 32 }
        requires small { length self.old.obligations.items < 2 ^ 32 }
        requires room { HasSpare 1 self.old }
        ensures state { let s = self.old in let work = work_in worker s.jobs.items in
            IsState self.new
            s.clauses.items
            (change_where work (with_progress Waiting) s.obligations.items
            ++ option_to_list (entry_before s.obligations.items work found))
            (others_of worker s.jobs.items)
            s.clauses.frontier s.secure s.calm (s.productive + 1) s.ended }
        ensures room { (n : ℕ) → HasSpare (n + 1) self.old → HasSpare n self.new }
    {
        let work = work_of(self.jobs.as_slice(), worker);
        let before = step_before(self.obligations.entries(), work, found);
        self.obligations.set_progress(work, Progress::Waiting);
        push_if(&mut self.obligations, before);
        release(&mut self.jobs, worker);
        self.productive += 1;
    }

    /// What was found before the obligation that the worker works on.
    pub(crate) fn precede_by(&mut self, worker: u32, origin: &Origin, found: usize)
        requires productive { self.old.productive + 1 < 2 ^ 32 }
        requires small { length self.old.obligations.items < 2 ^ 32 }
        requires room { HasSpare 1 self.old }
        ensures state { IsPreceded origin.now worker found self.old self.new }
        ensures room { (n : ℕ) → HasSpare (n + 1) self.old → HasSpare n self.new }
    {
        match origin {
            Origin::Initial(_) => self.root(worker, found),
            Origin::Step(_) => self.precede(worker, found),
        }
    }

    /// The clause that the worker pushes doesn't hold one frame further on.
    pub(crate) fn fail(&mut self, worker: u32, found: usize)
        requires { self.old.productive + 1 < 2 ^ 32 }
        ensures state { let s = self.old in IsState self.new
            (change_where (push_in worker s.jobs.items) (failed_entry found) s.clauses.items)
            s.obligations.items (others_of worker s.jobs.items)
            s.clauses.frontier s.secure s.calm (s.productive + 1) s.ended }
        ensures room { (n : ℕ) → HasSpare n self.old → HasSpare n self.new }
    {
        let push = push_of(self.jobs.as_slice(), worker);
        self.clauses.fail(push, found);
        release(&mut self.jobs, worker);
        self.productive += 1;
    }

    /// A clause goes.
    pub(crate) fn retire(&mut self, gone: usize)
        ensures state { let s = self.old in IsState self.new
            (change_at gone gone_entry s.clauses.items)
            s.obligations.items s.jobs.items
            s.clauses.frontier s.secure s.calm s.productive s.ended }
        ensures room { (n : ℕ) → HasSpare n self.old → HasSpare n self.new }
    {
        self.clauses.retire(gone);
    }
}
