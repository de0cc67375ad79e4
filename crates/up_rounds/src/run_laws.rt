//! What follows for a machine in code whose history is that of a run by rounds, each law the
//! contract of a function that does nothing.

ghost use Rattle.std.specs.Prelude.{◌≡◌};
ghost use Rattle.fo_core.specs.declared.order.Order.{Order};
ghost use Rattle.fo_core.specs.declared.system.System.{System};
ghost use Rattle.fo_core.specs.Sorted.{IsSystem};
ghost use Rattle.up_core.specs.View.{CoreView};
ghost use Rattle.up_machine.specs.declared.limits.Limits.{Limits};
ghost use Rattle.up_rounds.specs.Courses.{AreAlike, IsRun};
ghost use Rattle.up_seats.specs.Sound.{HasSoundFrames, IsSoundRun, IsWhole, TellsTruth};

/// Each event of a run is legal when it comes, and the last one is a Close.
pub fn runs_are_legal_and_closed()
    ensures { (sys : System) (order : Order) (limits : Limits) (c : CoreView) →
        IsRun sys order limits c → IsWhole sys limits c.history }
{}

/// At each moment of a run a state that is reached within so many steps is in the frame of that
/// number, each frame is a part of the next one, and each frame is a part of what it was at each
/// earlier moment.
pub fn frames_of_runs_are_sound()
    ensures { (sys : System) (order : Order) (limits : Limits) (c : CoreView) →
        IsSystem sys → IsRun sys order limits c → HasSoundFrames sys c.history }
{}

/// What a run tells holds, and a violating run that it tells is a shortest one.
pub fn runs_tell_the_truth()
    ensures { (sys : System) (order : Order) (limits : Limits) (c : CoreView) →
        IsSystem sys → IsRun sys order limits c → TellsTruth sys c.history }
{}

/// All of this at once.
pub fn runs_are_sound()
    ensures { (sys : System) (order : Order) (limits : Limits) (c : CoreView) →
        IsSystem sys → IsRun sys order limits c → IsSoundRun sys limits c.history }
{}

/// Two runs of one system have the same history where their limits are the same but for how many
/// workers share the machine.
pub fn runs_have_one_history()
    ensures { (sys : System) (first second : Order) (a b : Limits) (c d : CoreView) →
        IsSystem sys → AreAlike a b → IsRun sys first a c → IsRun sys second b d →
        c.history ≡ d.history }
{}
