//! What is due, chosen from the numbers alone. The rules are tried in order, and the first that
//! gives a task decides.

ghost use Rattle.std.specs.Prelude.{◌≡◌, ◌↔◌, ◌≤◌, ◌&&◌, nat_lt, not, true, List, Some, IsTrue, length};
ghost use Rattle.std.specs.List.{count_by, list_any};
ghost use Rattle.fo_core.specs.declared.system.System.{System};
ghost use Rattle.up_machine.specs.declared.event.Event.{Event};
ghost use Rattle.up_machine.specs.Due.{by_end, by_closed_level, by_root, by_steps, by_obligation, by_frontier, by_clause, by_quiet, IsDue, IsFirst, IsQuiet};
ghost use Rattle.up_machine.specs.Machine.{Machine};
ghost use Rattle.up_core.specs.Choice.{IsBestPlace, IsChoice, IsClosedAt, IsFirstPlace, IsLaterDue, IsSmall, better_of, has_job, is_done as done_of, is_done_seed, is_look, is_open_seed, is_push_of, is_ready as ready_of, is_rooted as rooted_of, is_to_push, is_trace};
ghost use Rattle.up_core.specs.Mirror.{IsMirror};

use crate::clauses::Clauses;
use crate::obligations::{Obligations, OpenObligation, count_seed};
use crate::state::{JobEntry, Progress, State};
use up_machine::{Job, Limits, MOST_SEEDS, Short, Task};

/// The least level from 1 to the secure one that no live clause has.
fn closed_level(clauses: &Clauses, secure: u32) -> Option<u32>
    requires { secure ≤ clauses.now.frontier }
    ensures { IsClosedAt clauses.now.items secure result }
{
    'each: for below in 0..secure {
        if !clauses.has_level(below + 1) {
            return Some(below + 1);
        }
    }
    None
}

fn is_rooted(progress: Progress) -> bool
    ensures { result ≡ rooted_of progress }
{
    matches!(progress, Progress::Rooted(_))
}

fn is_ready(progress: Progress) -> bool
    ensures { result ≡ ready_of progress }
{
    matches!(progress, Progress::Ready)
}

/// The first obligation with an initial state before it.
fn first_rooted(obligations: &Obligations) -> Option<usize>
    ensures { IsFirstPlace obligations.now.items (λ _ e. rooted_of e.progress) result }
{
    'each: for at in 0..obligations.count_open() {
        let next = obligations.open_at(at);
        if is_rooted(next.entry.progress) {
            return Some(next.number);
        }
    }
    None
}

/// The one to work on first of the best so far, if there is one, and a later one.
fn better(best: Option<OpenObligation>, next: OpenObligation) -> Option<OpenObligation>
    ensures { result ≡ better_of best next }
{
    if !is_ready(next.entry.progress) {
        return best;
    }
    match best {
        Some(found) => {
            if next.entry.level < found.entry.level {
                Some(next)
            } else {
                Some(found)
            }
        }
        None => Some(next),
    }
}

/// The first ready obligation of least level.
fn next_work(obligations: &Obligations) -> Option<usize>
    ensures { IsBestPlace obligations.now.items (length obligations.now.items) result }
{
    let mut best = None;
    'each: for at in 0..obligations.count_open() {
        best = better(best, obligations.open_at(at));
    }
    match best {
        Some(found) => Some(found.number),
        None => None,
    }
}

/// Whether a trace is out.
fn trace_is_out(jobs: &[JobEntry]) -> bool
    ensures { result ≡ has_job is_trace jobs.now }
{
    jobs.iter().any(|entry| matches!(entry.job, Job::Trace(_)))
}

/// Whether a look is out.
fn look_is_out(jobs: &[JobEntry]) -> bool
    ensures { result ≡ has_job is_look jobs.now }
{
    jobs.iter().any(|entry| matches!(entry.job, Job::Look))
}

fn is_push_at(job: Job, clause: usize) -> bool
    ensures { result ≡ is_push_of clause job }
{
    match job {
        Job::Push(k) => k as usize == clause,
        _ => false,
    }
}

/// Whether the push of the clause is out.
pub(crate) fn push_is_out(jobs: &[JobEntry], clause: usize) -> bool
    ensures { result ≡ has_job (is_push_of clause) jobs.now }
{
    jobs.iter().any(|entry| is_push_at(entry.job, clause))
}

/// How many seed obligations aren't done.
fn open_seeds(obligations: &Obligations) -> usize
    ensures { result ≡ count_by is_open_seed obligations.now.items }
{
    let mut count = 0;
    'each: for at in 0..obligations.count_open() {
        count += count_seed(&obligations.open_at(at).entry);
    }
    count
}

/// How many are.
pub(crate) fn done_seeds(obligations: &Obligations) -> usize
    ensures value { result ≡ count_by is_done_seed obligations.now.items }
    ensures few { result ≤ length obligations.now.items }
{
    obligations.seeds() - open_seeds(obligations)
}

/// Whether some obligation isn't done.
fn has_open(obligations: &Obligations) -> bool
    ensures { result ≡ list_any (λ e. not (done_of e.progress)) obligations.now.items }
{
    obligations.count_open() > 0
}

/// The first clause that is to be pushed.
fn next_push(clauses: &Clauses, jobs: &[JobEntry]) -> Option<usize>
    ensures { IsFirstPlace clauses.now.items (is_to_push clauses.now.frontier jobs.now) result }
{
    let due = clauses.due();
    'each: for k in due {
        if !push_is_out(jobs, *k) {
            return Some(*k);
        }
    }
    None
}

impl State {
    /// After the end there is nothing to do.
    fn ended_task(&self) -> Option<Task>
        ensures { (sys : System) (limits : Limits) (history : List Event) (m : Machine) →
            IsMirror sys history m self.now → IsChoice (by_end sys limits m) result }
    {
        if self.ended { Some(Task::Ended) } else { None }
    }

    /// Frames that are a fixed point end the run.
    fn closed_task(&self) -> Option<Task>
        requires { self.now.secure ≤ self.now.clauses.frontier }
        ensures { (sys : System) (limits : Limits) (history : List Event) (m : Machine) →
            IsMirror sys history m self.now → IsChoice (by_closed_level sys limits m) result }
    {
        match closed_level(&self.clauses, self.secure) {
            Some(level) => Some(Task::Finish(Short::Safe(level))),
            None => None,
        }
    }

    /// A chain from a violating state back to an initial one is traced, by one worker.
    fn root_task(&self) -> Option<Task>
        requires { IsSmall self.now }
        ensures { (sys : System) (limits : Limits) (history : List Event) (m : Machine) →
            IsMirror sys history m self.now → IsChoice (by_root sys limits m) result }
    {
        match first_rooted(&self.obligations) {
            Some(k) => {
                if trace_is_out(self.jobs.as_slice()) {
                    Some(Task::Idle)
                } else {
                    Some(Task::Job(Job::Trace(k as u32)))
                }
            }
            None => None,
        }
    }

    /// A run that has spent its steps ends.
    fn spent_task(&self, limits: &Limits) -> Option<Task>
        ensures { (sys : System) (history : List Event) (m : Machine) →
            IsMirror sys history m self.now → IsChoice (by_steps sys limits.now m) result }
    {
        if limits.steps <= self.productive {
            Some(Task::Finish(Short::Spent))
        } else {
            None
        }
    }

    /// Obligations are worked on, those of least level first.
    fn work_task(&self) -> Option<Task>
        requires { IsSmall self.now }
        ensures { (sys : System) (limits : Limits) (history : List Event) (m : Machine) →
            IsMirror sys history m self.now → IsChoice (by_obligation sys limits m) result }
    {
        match next_work(&self.obligations) {
            Some(k) => Some(Task::Job(Job::Work(k as u32))),
            None => None,
        }
    }

    /// Whether no further seed was done since a look found nothing further.
    fn is_calm(&self) -> bool
        ensures { IsTrue result ↔
            (self.now.calm ≡ Some (count_by is_done_seed self.now.obligations.items)) }
    {
        let done = done_seeds(&self.obligations);
        match self.calm {
            Some(calm) => calm as usize == done,
            None => false,
        }
    }

    /// Violating states of the frontier's frame are looked for.
    fn look_task(&self) -> Option<Task>
        ensures { (sys : System) (limits : Limits) (history : List Event) (m : Machine) →
            IsMirror sys history m self.now → IsChoice (by_frontier sys limits m) result }
    {
        if self.secure >= self.clauses.frontier() {
            return None;
        }
        if look_is_out(self.jobs.as_slice()) {
            return None;
        }
        if self.is_calm() {
            return None;
        }
        if open_seeds(&self.obligations) >= MOST_SEEDS as usize {
            return None;
        }
        Some(Task::Job(Job::Look))
    }

    /// Clauses are pushed, the first one first.
    fn push_task(&self) -> Option<Task>
        requires { IsSmall self.now }
        ensures { (sys : System) (limits : Limits) (history : List Event) (m : Machine) →
            IsMirror sys history m self.now → IsChoice (by_clause sys limits m) result }
    {
        match next_push(&self.clauses, self.jobs.as_slice()) {
            Some(k) => Some(Task::Job(Job::Push(k as u32))),
            None => None,
        }
    }

    /// Whether the frontier is secure, and nothing is left to do.
    fn is_quiet(&self) -> bool
        ensures { (sys : System) (history : List Event) (m : Machine) →
            IsMirror sys history m self.now → (IsTrue result ↔ IsQuiet m) }
    {
        if self.secure != self.clauses.frontier() {
            return false;
        }
        if has_open(&self.obligations) {
            return false;
        }
        self.jobs.as_slice().is_empty()
    }

    /// Where all is done the frontier moves on, up to the limit.
    fn quiet_task(&self, limits: &Limits) -> Option<Task>
        ensures { (sys : System) (history : List Event) (m : Machine) →
            IsMirror sys history m self.now → IsChoice (by_quiet sys limits.now m) result }
    {
        if !self.is_quiet() {
            return None;
        }
        if self.clauses.frontier() < limits.frames {
            Some(Task::Advance)
        } else {
            Some(Task::Finish(Short::Bounded))
        }
    }

    /// What is due by the rules on obligations, the frontier, clauses and quiet.
    fn later_task(&self, limits: &Limits) -> Task
        requires { IsSmall self.now }
        ensures { (sys : System) (history : List Event) (m : Machine) →
            IsMirror sys history m self.now → IsLaterDue sys limits.now m result }
    {
        if let Some(task) = self.work_task() {
            return task;
        }
        if let Some(task) = self.look_task() {
            return task;
        }
        if let Some(task) = self.push_task() {
            return task;
        }
        if let Some(task) = self.quiet_task(limits) {
            return task;
        }
        Task::Idle
    }

    /// What is due.
    pub(crate) fn due(&self, limits: &Limits) -> Task
        requires { IsSmall self.now }
        ensures { (sys : System) (history : List Event) (m : Machine) →
            IsMirror sys history m self.now → IsDue sys limits.now m result }
    {
        if let Some(task) = self.ended_task() {
            return task;
        }
        if let Some(task) = self.closed_task() {
            return task;
        }
        if let Some(task) = self.root_task() {
            return task;
        }
        if let Some(task) = self.spent_task(limits) {
            return task;
        }
        self.later_task(limits)
    }
}
