//! A seat takes a job.

ghost use Rattle.std.specs.Prelude.{◌≡◌, ◌+◌, ◌<◌, ◌≤◌, ◌^◌, IfOk, length};
ghost use Rattle.up_machine.specs.declared.event.Event.TheVariants.{Take};
ghost use Rattle.up_machine.specs.Finding.{HoldsJob};
ghost use Rattle.up_machine.specs.Legal.{MayTake};
ghost use Rattle.up_core.specs.View.{HasVariablesForJob, now, with_event};
ghost use Rattle.up_seats.specs.Seats.{IsBriefed};

use std::alloc::{AllocError, Global};
use up_core::Core;
use up_machine::{Brief, Job};

/// That a number has 32 bits.
fn is_narrow(_number: u32)
    ensures { _number < 2 ^ 32 }
{}

/// The seat takes the job that is due, and is given its brief, which can be solved.
///
/// It asks for a seat without a job, and for room, which [`Core::reserve`] for two events gives. The
/// one error is out of memory; then the seat holds the job all the same.
pub fn take_job(alloc: Global, core: &mut Core, seat: u32, job: Job) -> Result<Brief, AllocError>
    requires room { length (now core.old).jobs + 2 ≤ core.old.spare }
    requires variables { HasVariablesForJob core.old job }
    requires may { MayTake core.old.sys core.old.limits (now core.old) seat job }
    ensures made { core.new ≡ with_event core.old (Take seat job) }
    ensures holds { HoldsJob (now core.new) seat }
    ensures briefed { IfOk result (λ brief. IsBriefed core.new seat brief) }
{
    // A state has no more elements than there is room for variables.
    is_narrow(core.variables());
    core.take(seat, job);
    // The history is legal, so what is given fits the system.
    core.stays_sound();
    core.brief(alloc, seat)
}
