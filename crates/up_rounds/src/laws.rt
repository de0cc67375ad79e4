//! What holds of the histories that rounds make, each law the contract of a function that does
//! nothing.

ghost use Rattle.std.specs.Prelude.{◌≡◌, List, ◌∷◌};
ghost use Rattle.fo_core.specs.declared.system.System.{System};
ghost use Rattle.fo_core.specs.Sorted.{IsSystem};
ghost use Rattle.up_machine.specs.declared.event.Event.{Event};
ghost use Rattle.up_machine.specs.declared.event.Event.TheVariants.{Take};
ghost use Rattle.up_machine.specs.declared.job.Job.TheVariants.{Look};
ghost use Rattle.up_machine.specs.declared.limits.Limits.{Limits};
ghost use Rattle.up_machine.specs.Ranges.{AreInRange};
ghost use Rattle.up_machine.specs.Rounds.{IsClosed, Rounds};
ghost use Rattle.up_rounds.specs.Courses.{AreAlike, IsCourse};
ghost use Rattle.up_rounds.specs.OneRound.{AreRounds};

/// Rounds make at most one history: two runs of one system in the same limits tell the same
/// events.
pub fn rounds_make_one_history()
    ensures { (sys : System) (limits : Limits) (h k : List Event) →
        IsSystem sys → IsCourse sys limits h → IsCourse sys limits k → h ≡ k }
{}

/// How many workers share the machine changes nothing: where all other limits are the same, so is
/// the history that rounds make.
pub fn workers_change_no_history()
    ensures { (sys : System) (a b : Limits) (h k : List Event) →
        IsSystem sys → AreAlike a b → IsCourse sys a h → IsCourse sys b k → h ≡ k }
{}

/// In limits in range the first event of rounds is that seat 0 takes the look.
pub fn rounds_begin_with_a_look()
    ensures { (sys : System) (limits : Limits) (history : List Event) →
        AreInRange limits → Rounds sys limits history →
        (rest : List Event) × (history ≡ Take 0 Look ∷ rest) }
{}

/// Whole rounds up to an end are the history of the rounds, and that history is whole rounds.
pub fn rounds_come_one_after_another()
    ensures joined { (sys : System) (limits : Limits) (history : List Event) →
        AreRounds sys limits history → IsClosed sys limits history → Rounds sys limits history }
    ensures parted { (sys : System) (limits : Limits) (history : List Event) →
        Rounds sys limits history → AreRounds sys limits history }
{}
