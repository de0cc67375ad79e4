//! What Learn and Raise do to the clauses' entries. None of this takes memory.

ghost use Rattle.std.specs.Prelude.{◌≡◌, ℕ, ◌+◌, ◌<◌, ◌≤◌, ◌^◌, Some, length};
ghost use Rattle.up_core.specs.Becoming.{IsState};
ghost use Rattle.up_core.specs.Lapsing.{AreLapsable, AreLapsedAbove, CanRise, IsLearnt, IsRaised};
ghost use Rattle.up_core.specs.Refuting.{pushed_in};
ghost use Rattle.up_core.specs.Room.{HasSpare};
ghost use Rattle.up_core.specs.Steps.{finished, others_of, push_in, work_in};

use crate::clauses::Clauses;
use crate::lapsing::Lapse;
use crate::lists::{push_of, release, work_of};
use crate::refuting::{cube_at, pushed_entry};
use crate::state::{ClauseEntry, State};
use fo_core::Sig;
use up_diagram::Picks;
use up_machine::Event;

/// Takes away the failed pushes of clauses one level above this one whose steps begin in a state
/// that it refutes.
fn lapse_above(
    history: &[Event],
    sig: &Sig,
    entry: &ClauseEntry,
    clauses: &mut Clauses,
    picks: &mut Picks,
)
    requires { CanRise history.now sig.now picks.old clauses.old.items entry.now }
    ensures lapsed { AreLapsedAbove history.now sig.now clauses.old.items clauses.new.items
        entry.now }
    ensures frontier { clauses.new.frontier ≡ clauses.old.frontier }
    ensures room { clauses.new.room ≡ clauses.old.room }
    ensures picks { picks.new ≡ picks.old }
{
    if let Some(cube) = cube_at(history, entry.learnt) {
        let level = entry.level + 1;
        let lapse = Lapse {
            history,
            sig,
            cube,
            low: level,
            high: level,
        };
        clauses.lapse(&lapse, picks);
    }
}

/// The clause at a place rises, whose entry this is.
fn rise(
    history: &[Event],
    sig: &Sig,
    entry: &ClauseEntry,
    place: Option<usize>,
    clauses: &mut Clauses,
    picks: &mut Picks,
)
    requires { CanRise history.now sig.now picks.old clauses.old.items entry.now }
    ensures raised { IsRaised history.now sig.now place clauses.old.items clauses.new.items
        entry.now }
    ensures frontier { clauses.new.frontier ≡ clauses.old.frontier }
    ensures room { clauses.new.room ≡ clauses.old.room }
    ensures picks { picks.new ≡ picks.old }
{
    lapse_above(history, sig, entry, clauses, picks);
    clauses.raise(place, entry.level + 1);
}

impl State {
    /// The clause that the worker pushes rises, if it does so.
    fn rise_pushed(&mut self, history: &[Event], sig: &Sig, picks: &mut Picks, worker: u32)
        requires { (e : ClauseEntry) →
            pushed_in worker self.old.clauses.items self.old.jobs.items ≡ Some e →
            CanRise history.now sig.now picks.old self.old.clauses.items e }
        ensures raised { let s = self.old in (e : ClauseEntry) →
            pushed_in worker s.clauses.items s.jobs.items ≡ Some e →
            IsRaised history.now sig.now (push_in worker s.jobs.items) s.clauses.items
            self.new.clauses.items e }
        ensures state { let s = self.old in IsState self.new
            self.new.clauses.items s.obligations.items s.jobs.items
            s.clauses.frontier s.secure s.calm s.productive s.ended }
        ensures room { (n : ℕ) → HasSpare n self.old → HasSpare n self.new }
        ensures picks { picks.new ≡ picks.old }
    {
        let place = push_of(self.jobs.as_slice(), worker);
        let pushed = pushed_entry(self.clauses.entries(), self.jobs.as_slice(), worker);
        if let Some(entry) = pushed {
            rise(history, sig, &entry, place, &mut self.clauses, picks);
        }
    }

    /// The clause that the worker pushes holds one frame further on.
    pub(crate) fn raise(&mut self, history: &[Event], sig: &Sig, picks: &mut Picks, worker: u32)
        requires productive { self.old.productive + 1 < 2 ^ 32 }
        requires rise { (e : ClauseEntry) →
            pushed_in worker self.old.clauses.items self.old.jobs.items ≡ Some e →
            CanRise history.now sig.now picks.old self.old.clauses.items e }
        ensures raised { let s = self.old in (e : ClauseEntry) →
            pushed_in worker s.clauses.items s.jobs.items ≡ Some e →
            IsRaised history.now sig.now (push_in worker s.jobs.items) s.clauses.items
            self.new.clauses.items e }
        ensures state { let s = self.old in IsState self.new
            self.new.clauses.items s.obligations.items (others_of worker s.jobs.items)
            s.clauses.frontier s.secure s.calm (s.productive + 1) s.ended }
        ensures room { (n : ℕ) → HasSpare n self.old → HasSpare n self.new }
        ensures picks { picks.new ≡ picks.old }
    {
        self.rise_pushed(history, sig, picks, worker);
        release(&mut self.jobs, worker);
        self.productive += 1;
    }

    /// A clause with this cube is learnt from the obligation that the worker works on, by the event
    /// that is to stand at this place of the history.
    pub(crate) fn learn(&mut self, lapse: &Lapse, picks: &mut Picks, worker: u32, found: usize)
        requires productive { self.old.productive + 1 < 2 ^ 32 }
        requires room { HasSpare 1 self.old }
        requires low { lapse.now.low ≡ 0 }
        requires meet { AreLapsable lapse.now.history.now lapse.now.sig.now lapse.now.cube.now
            0 lapse.now.high self.old.clauses.items }
        requires fits { length lapse.now.cube.now.sorts ≤ picks.old }
        ensures learnt { IsLearnt lapse.now.history.now lapse.now.sig.now lapse.now.cube.now
            lapse.now.high found self.old.clauses.items self.new.clauses.items }
        ensures state { let s = self.old in IsState self.new
            self.new.clauses.items
            (finished (work_in worker s.jobs.items) s.obligations.items)
            (others_of worker s.jobs.items)
            s.clauses.frontier s.secure s.calm (s.productive + 1) s.ended }
        ensures room { (n : ℕ) → HasSpare (n + 1) self.old → HasSpare n self.new }
        ensures picks { picks.new ≡ picks.old }
    {
        self.clauses.lapse(lapse, picks);
        self.clauses.push(found, lapse.high);
        let work = work_of(self.jobs.as_slice(), worker);
        self.obligations.finish(work);
        release(&mut self.jobs, worker);
        self.productive += 1;
    }
}
