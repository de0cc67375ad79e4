//! What holds of what workers are given, each law the contract of a function that does nothing.

ghost use Rattle.std.specs.Prelude.{◌≡◌, ℕ, List, Some};
ghost use Rattle.fo_core.specs.declared.order.Order.{Order};
ghost use Rattle.fo_core.specs.declared.system.System.{System};
ghost use Rattle.up_claims.specs.Inferring.{CanInfer};
ghost use Rattle.up_machine.specs.declared.brief.Brief.{Brief};
ghost use Rattle.up_machine.specs.declared.event.Event.{Event};
ghost use Rattle.up_machine.specs.Briefs.{brief_of};
ghost use Rattle.up_machine.specs.Machine.{Given, held_by};
ghost use Rattle.up_machine.specs.Replay.{replay};
ghost use Rattle.up_machine.specs.Sound.{IsFitGiven};
ghost use Rattle.up_jobs.specs.Solving.{CanSolve, HasFrame, IsInRange};

/// The frame that a worker is given with an obligation is told as those of the level below are.
pub fn works_are_given_frames_of_their_levels()
    ensures { (history : List Event) (w : ℕ) (given : Given) →
        held_by (replay history).jobs w ≡ Some given → HasFrame given }
{}

/// The brief of what fits the signature and is in range can be solved.
pub fn what_fits_can_be_solved()
    ensures { (sys : System) (order : Order) (given : Given) (brief : Brief) →
        CanInfer sys order → IsFitGiven sys.sig given → IsInRange given →
        brief ≡ brief_of sys.sig given → CanSolve sys order brief }
{}
