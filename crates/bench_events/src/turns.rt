//! Turns of one worker, of two events each.
ghost use Rattle.std.specs.Prelude.{◌+◌, ◌≤◌, OnOk, length};
ghost use Rattle.up_core.specs.View.{now};
ghost use Rattle.bench_events.specs.Idle.{IsIdle, LookIsDue};

use std::alloc::Global;
use up_core::Core;
use up_machine::{Job, Task, Why};

/// The worker takes the look that is due, is given its brief, and puts the look back.
fn look(alloc: Global, core: &mut Core) -> anyhow::Result<()>
    requires room { length (now core.old).jobs + 2 ≤ core.old.spare }
    requires idle { IsIdle core.old }
    requires due { LookIsDue core.old }
    ensures { OnOk result (IsIdle core.new) }
{
    core.take(0, Job::Look);
    core.brief(alloc, 0)?;
    match core.give_back(0, Why::NoMemory) {
        Ok(()) => Ok(()),
        Err(_) => anyhow::bail!("the run has ended"),
    }
}

/// A turn, where a look is due.
fn turn(alloc: Global, core: &mut Core) -> anyhow::Result<()>
    requires { IsIdle core.old }
    ensures { OnOk result (IsIdle core.new) }
{
    core.reserve(2)?;
    match core.next_task(0) {
        Task::Job(Job::Look) => look(alloc, core),
        _ => anyhow::bail!("no look is due"),
    }
}

/// This many turns, one after another.
pub fn make_turns(alloc: Global, core: &mut Core, turns: u32) -> anyhow::Result<()>
    requires { IsIdle core.old }
    ensures { OnOk result (IsIdle core.new) }
{
    'turns: for _ in 0..turns {
        turn(alloc, core)?;
    }
    Ok(())
}
