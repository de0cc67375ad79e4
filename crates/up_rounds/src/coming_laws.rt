//! That rounds come to an end, each law the contract of a function that does nothing.

ghost use Rattle.std.specs.Prelude.{◌≡◌, ◌<◌, ◌≤◌, ◌++◌, List, [], ◌∷◌, length, None};
ghost use Rattle.fo_core.specs.declared.system.System.{System};
ghost use Rattle.fo_core.specs.Sorted.{IsSystem};
ghost use Rattle.up_machine.specs.declared.event.Event.{Event};
ghost use Rattle.up_machine.specs.declared.limits.Limits.{Limits};
ghost use Rattle.up_machine.specs.Legal.{Legal};
ghost use Rattle.up_machine.specs.Replay.{replay};
ghost use Rattle.up_machine.specs.Rounds.{Retires, Settles};
ghost use Rattle.up_rounds.specs.Coming.{left_of};
ghost use Rattle.up_rounds.specs.OneRound.{AreReports, AreTakes, IsAtRest};

/// An event of seat 0 that settles what is due leaves less to come, or ends the run.
pub fn settling_comes_to_an_end()
    ensures { (sys : System) (limits : Limits) (history : List Event) (e : Event) →
        Legal sys limits (history ++ e ∷ []) → Settles sys limits (replay history) e →
        (replay (history ++ e ∷ [])).ending ≡ None →
        left_of limits (replay (history ++ e ∷ [])) < left_of limits (replay history) }
{}

/// So does a Retire.
pub fn retiring_comes_to_an_end()
    ensures { (sys : System) (limits : Limits) (history : List Event) (e : Event) →
        Legal sys limits (history ++ e ∷ []) → Retires sys limits (replay history) e →
        left_of limits (replay (history ++ e ∷ [])) < left_of limits (replay history) }
{}

/// And so does a round of jobs that begins at rest, in which seat 0 has reported.
pub fn jobs_come_to_an_end()
    ensures { (sys : System) (limits : Limits) (history takes reports : List Event) →
        IsSystem sys → Legal sys limits (history ++ takes ++ reports) →
        IsAtRest limits (replay history) →
        AreTakes sys limits (replay history) 0 takes →
        AreReports sys limits (replay (history ++ takes)) 0 reports →
        1 ≤ length reports →
        (replay (history ++ takes ++ reports)).ending ≡ None →
        left_of limits (replay (history ++ takes ++ reports)) < left_of limits (replay history) }
{}
