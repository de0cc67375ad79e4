//! What holds of briefs, each law the contract of a function that does nothing.

ghost use Rattle.std.specs.Prelude.{◌≡◌, ℕ, List, Some};
ghost use Rattle.fo_core.specs.declared.system.System.{System};
ghost use Rattle.up_machine.specs.declared.event.Event.{Event};
ghost use Rattle.up_machine.specs.declared.limits.Limits.{Limits};
ghost use Rattle.up_machine.specs.Due.{job_of};
ghost use Rattle.up_machine.specs.Legal.{Legal};
ghost use Rattle.up_machine.specs.Machine.{Given, held_by};
ghost use Rattle.up_machine.specs.Replay.{given_for, replay};
ghost use Rattle.up_core.specs.Taking.{HasOnlyTakesSince};

/// Where since a worker's take only others took jobs, the worker holds what it would be given for
/// its job now: so its brief now ([`crate::Core::brief`]) is the brief of what it holds.
pub fn takes_keep_briefs()
    ensures { (sys : System) (limits : Limits) (history : List Event) (w : ℕ) (held : Given) →
        Legal sys limits history → HasOnlyTakesSince history w →
        held_by (replay history).jobs w ≡ Some held →
        given_for (replay history) (job_of held) ≡ Some held }
{}
