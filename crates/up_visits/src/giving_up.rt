//! A worker that is out of memory puts its job back.

ghost use Rattle.std.specs.Prelude.{◌≡◌};
ghost use Rattle.up_machine.specs.Finding.{HoldsJob};
ghost use Rattle.up_core.specs.View.{now};
ghost use Rattle.up_visits.specs.GivingUp.{GivesUpLast, NoneGivesUp};
ghost use Rattle.up_visits.specs.Passes.{IsIdle, IsReady, IsVisit, own_events, seen_core};

use crate::laws::others_leave_a_job;
use crate::returning::put_back;
use std::sync::Wait;
use turnstile::{Pass, Turnstile};
use up_core::Core;
use up_machine::Why;

/// Enters, and puts the worker's job back, since the worker is out of memory. So another can take
/// it.
///
/// It asks for a pass of one worker, who holds a job in what the pass has seen and never gave up. It
/// takes no memory, and may wait for the turn.
pub fn give_up<R: Wait>(rt: &R, shared: &Turnstile<Core>, pass: &mut Pass<Core>)
    requires ready { IsReady shared.now pass.old }
    requires none { NoneGivesUp (own_events pass.old) }
    requires holds { HoldsJob (now (seen_core shared.now pass.old)) pass.old.from }
    ensures ready { IsReady shared.now pass.new }
    ensures visit { IsVisit pass.old pass.new }
    ensures last { GivesUpLast (own_events pass.new) }
    ensures idle { IsIdle (now (seen_core shared.now pass.new)) pass.new.from }
{
    let worker = pass.first();
    let mut core = shared.enter(rt, pass);
    others_leave_a_job();
    put_back(&mut core, worker, Why::NoMemory);
    core.stays_sound();
    shared.leave(pass, core);
}
