//! How a shared history goes on, each law the contract of a function that does nothing.

ghost use Rattle.std.specs.Prelude.{◌≡◌, ◌++◌, ℕ, List, Some};
ghost use Rattle.up_machine.specs.declared.end.End.{End};
ghost use Rattle.up_machine.specs.declared.event.Event.{Event};
ghost use Rattle.up_machine.specs.Machine.{held_by};
ghost use Rattle.up_machine.specs.Replay.{replay};
ghost use Rattle.up_visits.specs.Passes.{HasEnded, events_of};

/// Where a history goes on without an event of the worker, what it holds stays: a job with all that
/// it was given, or that it holds none.
pub fn others_leave_a_job()
    ensures { (seen rest : List Event) (w : ℕ) →
        events_of w (seen ++ rest) ≡ events_of w seen →
        held_by (replay (seen ++ rest)).jobs w ≡ held_by (replay seen).jobs w }
{}

/// A run that has ended stays so.
pub fn an_end_stays()
    ensures { (seen rest : List Event) →
        HasEnded (replay seen) → HasEnded (replay (seen ++ rest)) }
{}
