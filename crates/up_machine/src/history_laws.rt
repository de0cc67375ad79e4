//! How histories go on, each law the contract of a function that does nothing.

ghost use Rattle.std.specs.Prelude.{◌≡◌, ◌≤◌, ◌++◌, [], ◌∷◌, ℕ, List, Some, length};
ghost use Rattle.fo_core.specs.declared.system.System.{System};
ghost use Rattle.fo_core.specs.declared.world.World.{World};
ghost use Rattle.fo_core.specs.Sorted.{IsSystem};
ghost use Rattle.up_machine.specs.declared.event.Event.{Event};
ghost use Rattle.up_machine.specs.declared.event.Event.TheVariants.{Return, Take};
ghost use Rattle.up_machine.specs.declared.event.Why.TheVariants.{Refuted};
ghost use Rattle.up_machine.specs.declared.job.Job.TheVariants.{Look};
ghost use Rattle.up_machine.specs.declared.job.Task.TheVariants.{Idle};
ghost use Rattle.up_machine.specs.declared.limits.Limits.{Limits};
ghost use Rattle.up_machine.specs.Due.{IsDue};
ghost use Rattle.up_machine.specs.Finding.{IsOutside, frame_given};
ghost use Rattle.up_machine.specs.Legal.{IsLegal, Legal};
ghost use Rattle.up_machine.specs.Machine.{Given, IsFirstRefuter, held_by};
ghost use Rattle.up_machine.specs.Replay.{replay, worker_of};
ghost use Rattle.up_machine.specs.Rounds.{retires_of};
ghost use Rattle.up_machine.specs.Sound.{Each};

/// A history may begin: at the start the look is due, and a worker may take it.
pub fn a_history_begins_with_a_look()
    ensures { (sys : System) (limits : Limits) →
        1 ≤ limits.steps → Legal sys limits (Take 0 Look ∷ []) }
{}

/// What a worker holds stays until an event of its own: so what it was given at its take is what it
/// holds when it reports, whatever others did meanwhile.
pub fn a_worker_keeps_its_job()
    ensures { (seen rest : List Event) (w : ℕ) →
        Each rest (λ k e. ¬ (worker_of e ≡ w)) →
        held_by (replay (seen ++ rest)).jobs w ≡ held_by (replay seen).jobs w }
{}

/// Where a job is put back since a clause refutes what was found, the clause wasn't in the frame that
/// the worker was given: it came after the take.
pub fn refuters_came_after_the_take()
    ensures { (sys : System) (limits : Limits) (history : List Event)
        (w : ℕ) (p : World) (c : ℕ) (given : Given) (i : ℕ) →
        IsSystem sys → Legal sys limits history →
        IsLegal sys limits (replay history) (Return w (Refuted p c)) →
        held_by (replay history).jobs w ≡ Some given →
        (r : IsFirstRefuter sys (replay history) i p 0 c) →
        IsOutside (frame_given given) r.refutes.clause.cube }
{}

/// A history has at most as many Retires as its machine has clauses.
pub fn retires_are_no_more_than_clauses()
    ensures { (sys : System) (limits : Limits) (history : List Event) →
        Legal sys limits history → retires_of history ≤ length (replay history).clauses }
{}

/// A worker is told to wait only where a job is out, by which something may change.
pub fn idle_is_due_only_where_a_job_is_out()
    ensures { (sys : System) (limits : Limits) (history : List Event) →
        Legal sys limits history →
        IsDue sys limits (replay history) Idle → ¬ ((replay history).jobs ≡ []) }
{}
