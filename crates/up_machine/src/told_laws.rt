//! What a legal history tells, each law the contract of a function that does nothing.

ghost use Rattle.std.specs.Prelude.{List};
ghost use Rattle.fo_core.specs.declared.system.System.{System};
ghost use Rattle.fo_core.specs.Sorted.{IsSystem};
ghost use Rattle.up_claims.specs.declared.verdict.Verdict.{Verdict};
ghost use Rattle.up_machine.specs.declared.event.Event.{Event};
ghost use Rattle.up_machine.specs.declared.limits.Limits.{Limits};
ghost use Rattle.up_machine.specs.Legal.{Legal};
ghost use Rattle.up_machine.specs.Told.{Told, HoldsShortest};

/// What a legal history tells holds, and a violating run that it tells is a shortest one.
pub fn told_verdicts_hold()
    ensures { (sys : System) (limits : Limits) (history : List Event) (verdict : Verdict) →
        IsSystem sys → Legal sys limits history →
        Told sys history verdict → HoldsShortest sys verdict }
{}
