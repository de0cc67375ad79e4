//! What follows for a history of the machine that is closed, each law the contract of a function
//! that does nothing.

ghost use Rattle.std.specs.Prelude.{◌≡◌, List, Some};
ghost use Rattle.fo_core.specs.declared.system.System.{System};
ghost use Rattle.fo_core.specs.Sorted.{IsSystem};
ghost use Rattle.up_machine.specs.declared.end.End.{End};
ghost use Rattle.up_machine.specs.declared.event.Event.{Event};
ghost use Rattle.up_machine.specs.declared.limits.Limits.{Limits};
ghost use Rattle.up_machine.specs.Legal.{Legal};
ghost use Rattle.up_machine.specs.Replay.{replay};
ghost use Rattle.up_seats.specs.Sound.{IsSoundRun};

/// A legal history with an end is that of a sound run, in whichever order workers made its events:
/// its last event is the Close, at each of its moments frames hold and rise and are parts of what
/// they were before, and what it tells is true.
pub fn closed_histories_are_sound()
    ensures { (sys : System) (limits : Limits) (history : List Event) (end : End) →
        IsSystem sys → Legal sys limits history → (replay history).ending ≡ Some end →
        IsSoundRun sys limits history }
{}
