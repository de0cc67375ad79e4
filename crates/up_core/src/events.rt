//! Events that rest on no frame as it stands now. None of their calls takes memory.

ghost use Rattle.std.specs.Prelude.{◌≡◌, ◌+◌, ◌≤◌, length, OnOk, OnErr, MatchResult};
ghost use Rattle.up_machine.specs.declared.event.Event.TheVariants.{Advance, Close, Drop, Return, Secure, Take};
ghost use Rattle.up_machine.specs.Rounds.{end_of};
ghost use Rattle.up_core.specs.Known.{IsJobEnd, IsKnown, IsNotNow, IsNow};
ghost use Rattle.up_core.specs.View.{HasVariablesForJob, now, with_event};

use crate::kept::Core;
use up_machine::{End, Event, Job, NotNow, Short, Why};

/// How a run ends without a job, as an end.
fn short_end(short: Short) -> End
    ensures { result ≡ end_of short }
{
    match short {
        Short::Safe(level) => End::Safe(level),
        Short::Bounded => End::Bounded,
        Short::Spent => End::Spent,
    }
}

impl Core {
    /// The worker, who has no job, takes the one that is due.
    ///
    /// It asks for room for two events besides one for each job that is out, so that each worker
    /// can report, and one may be retired; and for a work for as many variables as the obligation's
    /// state has elements. [`Core::reserve`] gives both.
    pub fn take(&mut self, worker: u32, job: Job)
        requires room { length (now self.old).jobs + 2 ≤ self.old.spare }
        requires variables { HasVariablesForJob self.old job }
        requires known { IsKnown self.old (Take worker job) }
        ensures made { self.new ≡ with_event self.old (Take worker job) }
    {
        self.state.take(worker, job);
        self.history.push_reserved(Event::Take(worker, job));
        self.spare -= 1;
    }

    /// The next frame is opened, where that is due.
    pub fn advance(&mut self, worker: u32)
        requires room { 1 ≤ self.old.spare }
        requires known { IsKnown self.old (Advance worker) }
        ensures made { self.new ≡ with_event self.old (Advance worker) }
    {
        self.state.advance();
        self.history.push_reserved(Event::Advance(worker));
        self.spare -= 1;
    }

    /// The run ends so, where that is due.
    pub fn finish(&mut self, worker: u32, end: Short)
        requires room { 1 ≤ self.old.spare }
        requires known { IsKnown self.old (Close worker (end_of end)) }
        ensures made { self.new ≡ with_event self.old (Close worker (end_of end)) }
    {
        self.state.finish();
        self.history
            .push_reserved(Event::Close(worker, short_end(end)));
        self.spare -= 1;
    }

    /// The worker, who looked with nothing to avoid, found no violating state.
    ///
    /// It is refused after the end, and where the steps are spent, and then nothing changes.
    pub fn secure(&mut self, worker: u32) -> Result<(), NotNow>
        requires { IsKnown self.old (Secure worker) }
        ensures made { OnOk result (self.new ≡ with_event self.old (Secure worker)) }
        ensures same { OnErr result (self.new ≡ self.old) }
        ensures when { MatchResult result
            (λ _. IsNow self.old (Secure worker))
            (λ why. IsNotNow self.old (Secure worker) why) }
    {
        if self.state.ended {
            return Err(NotNow::Closed);
        }
        if self.state.productive >= self.limits.steps {
            return Err(NotNow::Spent);
        }
        self.state.secure_frontier(worker);
        self.history.push_reserved(Event::Secure(worker));
        self.spare -= 1;
        Ok(())
    }

    /// The clause of this number, the first that does, refutes the state of the obligation that the
    /// worker works on.
    ///
    /// It is refused after the end, and where the steps are spent, and then nothing changes.
    pub fn drop_ob(&mut self, worker: u32, clause: u32) -> Result<(), NotNow>
        requires { IsKnown self.old (Drop worker clause) }
        ensures made { OnOk result (self.new ≡ with_event self.old (Drop worker clause)) }
        ensures same { OnErr result (self.new ≡ self.old) }
        ensures when { MatchResult result
            (λ _. IsNow self.old (Drop worker clause))
            (λ why. IsNotNow self.old (Drop worker clause) why) }
    {
        if self.state.ended {
            return Err(NotNow::Closed);
        }
        if self.state.productive >= self.limits.steps {
            return Err(NotNow::Spent);
        }
        self.state.drop_work(worker);
        self.history.push_reserved(Event::Drop(worker, clause));
        self.spare -= 1;
        Ok(())
    }

    /// The worker puts its job back.
    ///
    /// It is refused after the end, and then nothing changes but that what was handed in is
    /// dropped.
    pub fn give_back(&mut self, worker: u32, why: Why) -> Result<(), NotNow>
        requires { IsKnown self.old (Return worker why) }
        ensures made { OnOk result (self.new ≡ with_event self.old (Return worker why)) }
        ensures same { OnErr result (self.new ≡ self.old) }
        ensures when { MatchResult result
            (λ _. IsNow self.old (Return worker why))
            (λ refused. IsNotNow self.old (Return worker why) refused) }
    {
        if self.state.ended {
            return Err(NotNow::Closed);
        }
        self.state.give_back(worker, &why);
        self.history.push_reserved(Event::Return(worker, why));
        self.spare -= 1;
        Ok(())
    }

    /// The worker's job ends the run.
    ///
    /// It asks for an end by a job: a violating run, no universal invariant, or a query that is too
    /// heavy. It is refused after the end, and then nothing changes but that what was handed in is
    /// dropped.
    pub fn close(&mut self, worker: u32, end: End) -> Result<(), NotNow>
        requires job { IsJobEnd end }
        requires known { IsKnown self.old (Close worker end) }
        ensures made { OnOk result (self.new ≡ with_event self.old (Close worker end)) }
        ensures same { OnErr result (self.new ≡ self.old) }
        ensures when { MatchResult result
            (λ _. IsNow self.old (Close worker end))
            (λ why. IsNotNow self.old (Close worker end) why) }
    {
        if self.state.ended {
            return Err(NotNow::Closed);
        }
        self.state.close(worker);
        self.history.push_reserved(Event::Close(worker, end));
        self.spare -= 1;
        Ok(())
    }
}
