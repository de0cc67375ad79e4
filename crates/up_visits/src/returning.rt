//! A worker puts its job back.

ghost use Rattle.up_machine.specs.declared.event.Event.TheVariants.{Return};
ghost use Rattle.up_core.specs.Known.{IsKnown};
ghost use Rattle.up_visits.specs.Visits.{HasPutBack};

use up_core::Core;
use up_machine::Why;

/// The worker puts its job back, for this reason. After the end it does nothing.
pub(crate) fn put_back(core: &mut Core, worker: u32, why: Why)
    requires { IsKnown core.old (Return worker why) }
    ensures { HasPutBack core.old worker why core.new }
{
    let _ = core.give_back(worker, why);
}
