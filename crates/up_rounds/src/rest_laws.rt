//! What holds within a round that begins at rest, each law the contract of a function that does
//! nothing.

ghost use Rattle.std.specs.Prelude.{◌≡◌, ◌≤◌, ◌++◌, ◌⊎◌, ℕ, List, [], length};
ghost use Rattle.fo_core.specs.declared.system.System.{System};
ghost use Rattle.fo_core.specs.declared.world.World.{World};
ghost use Rattle.fo_core.specs.Sorted.{IsSystem};
ghost use Rattle.up_machine.specs.declared.end.End.{End};
ghost use Rattle.up_machine.specs.declared.event.Event.{Event};
ghost use Rattle.up_machine.specs.declared.event.Event.TheVariants.{Advance, Close, Retire, Return};
ghost use Rattle.up_machine.specs.declared.event.Why.TheVariants.{NoMore, Refuted};
ghost use Rattle.up_machine.specs.declared.job.Task.TheVariants.{Idle};
ghost use Rattle.up_machine.specs.declared.limits.Limits.{Limits};
ghost use Rattle.up_machine.specs.Due.{IsDue};
ghost use Rattle.up_machine.specs.Finding.{HoldsJob};
ghost use Rattle.up_machine.specs.Legal.{IsLegal, Legal};
ghost use Rattle.up_machine.specs.Machine.{Machine, start};
ghost use Rattle.up_machine.specs.Replay.{happens, replay, run};
ghost use Rattle.up_machine.specs.Rounds.{IsReport, Takes};
ghost use Rattle.up_rounds.specs.OneRound.{AreReports, AreTakes, HaveReported, IsAtRest};

/// The machine is at rest at the start, and an event that opens a frame or retires a clause
/// leaves it so.
pub fn rest_is_kept()
    ensures begins { (limits : Limits) → IsAtRest limits start }
    ensures advances { (limits : Limits) (m : Machine) (w : ℕ) →
        IsAtRest limits m → IsAtRest limits (happens m (Advance w)) }
    ensures retires { (limits : Limits) (m : Machine) (w gone by : ℕ) →
        IsAtRest limits m → IsAtRest limits (happens m (Retire w gone by)) }
{}

/// Where a round of jobs begins at rest it ends so, if those report that have to.
pub fn a_round_of_jobs_keeps_rest()
    ensures { (sys : System) (limits : Limits) (m : Machine) (takes reports : List Event) →
        IsAtRest limits m → AreTakes sys limits m 0 takes →
        AreReports sys limits (run m takes) 0 reports →
        HaveReported limits (run (run m takes) reports) takes reports →
        IsAtRest limits (run (run m takes) reports) }
{}

/// At rest nobody is told to wait: so some round begins, till the end.
pub fn nobody_waits_at_rest()
    ensures { (sys : System) (limits : Limits) (history : List Event) →
        Legal sys limits history → IsAtRest limits (replay history) →
        ¬ IsDue sys limits (replay history) Idle }
{}

/// In a round that begins at rest each take is legal: the seat that is asked has no job.
pub fn takes_of_a_round_are_legal()
    ensures { (sys : System) (limits : Limits) (m : Machine) (takes : List Event) (e : Event) →
        IsAtRest limits m → AreTakes sys limits m 0 takes →
        Takes sys limits (run m takes) (length takes) e → IsLegal sys limits (run m takes) e }
{}

/// Only a seat that has a job reports.
pub fn only_seats_with_jobs_report()
    ensures { (sys : System) (limits : Limits) (m : Machine) (seat : ℕ) (e : Event) →
        IsReport sys limits m seat e → HoldsJob m seat }
{}

/// Where no job was out at the begin of a round, and all seats that took one have reported, no
/// further seat reports.
pub fn reports_end_with_the_last_take()
    ensures { (sys : System) (limits : Limits) (m : Machine) (takes reports : List Event)
        (e : Event) →
        m.jobs ≡ [] → AreTakes sys limits m 0 takes →
        AreReports sys limits (run m takes) 0 reports → length reports ≡ length takes →
        ¬ IsReport sys limits (run (run m takes) reports) (length reports) e }
{}

/// Once the steps are spent a seat reports no more than that the run ends, or that a look found
/// nothing further.
pub fn reports_cost_nothing_once_steps_are_spent()
    ensures { (sys : System) (limits : Limits) (m : Machine) (seat : ℕ) (e : Event) →
        limits.steps ≤ m.productive → IsReport sys limits m seat e →
        (e ≡ Return seat NoMore) ⊎ ((end : End) × (e ≡ Close seat end)) }
{}

/// Seat 0 never reports that what it found is refuted: between its take and its report come only
/// takes of others, which add no clause.
pub fn seat_0_is_never_refuted()
    ensures { (sys : System) (limits : Limits) (history takes : List Event) (p : World) (c : ℕ) →
        IsSystem sys → Legal sys limits (history ++ takes) → IsAtRest limits (replay history) →
        AreTakes sys limits (replay history) 0 takes →
        ¬ IsReport sys limits (replay (history ++ takes)) 0 (Return 0 (Refuted p c)) }
{}
