//! What there is at most one of, each law the contract of a function that does nothing.

ghost use Rattle.std.specs.Prelude.{◌≡◌, ℕ, List, Some, slice_get};
ghost use Rattle.fo_core.specs.declared.system.System.{System};
ghost use Rattle.fo_core.specs.Sorted.{IsSystem};
ghost use Rattle.up_machine.specs.declared.event.Event.{Event};
ghost use Rattle.up_machine.specs.declared.job.Task.{Task};
ghost use Rattle.up_machine.specs.declared.limits.Limits.{Limits};
ghost use Rattle.up_machine.specs.Due.{IsDue, IsValid};
ghost use Rattle.up_machine.specs.Legal.{Legal};
ghost use Rattle.up_machine.specs.Machine.{Clause, FailedPush, Machine};
ghost use Rattle.up_machine.specs.Replay.{replay};
ghost use Rattle.up_machine.specs.Rounds.{IsReport};

/// At most one task is due.
pub fn one_task_is_due()
    ensures { (sys : System) (limits : Limits) (m : Machine) (t u : Task) →
        IsDue sys limits m t → IsDue sys limits m u → t ≡ u }
{}

/// A clause has at most one valid failed push.
pub fn one_failed_push_is_valid()
    ensures { (sys : System) (limits : Limits) (history : List Event)
        (k i j : ℕ) (clause : Clause) (f g : FailedPush) →
        IsSystem sys → Legal sys limits history →
        slice_get (replay history).clauses k ≡ Some clause →
        slice_get (replay history).failed i ≡ Some f →
        slice_get (replay history).failed j ≡ Some g →
        IsValid sys (replay history) k clause f → IsValid sys (replay history) k clause g → i ≡ j }
{}

/// A seat has at most one report.
pub fn one_report_is_a_seats()
    ensures { (sys : System) (limits : Limits) (history : List Event) (seat : ℕ) (e f : Event) →
        IsSystem sys → Legal sys limits history →
        IsReport sys limits (replay history) seat e →
        IsReport sys limits (replay history) seat f → e ≡ f }
{}
