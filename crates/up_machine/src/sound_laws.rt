//! What is so of the machine after every legal history, each law the contract of a function that
//! does nothing.

ghost use Rattle.std.specs.Prelude.{List};
ghost use Rattle.fo_core.specs.declared.system.System.{System};
ghost use Rattle.fo_core.specs.Sorted.{IsSystem};
ghost use Rattle.up_machine.specs.declared.event.Event.{Event};
ghost use Rattle.up_machine.specs.declared.limits.Limits.{Limits};
ghost use Rattle.up_machine.specs.Legal.{Legal};
ghost use Rattle.up_machine.specs.Replay.{replay};
ghost use Rattle.up_machine.specs.Sound.{AreSoundFails, AreSoundOrigins, IsFit, IsFrameSound, IsTreeOf};

/// What frames rest on: of each clause, live or gone, no initial state meets its cube, no step
/// leads into it from the frame below its level, and what avoids the live clauses of its level or
/// more doesn't meet it; levels are in range; what a worker was given is as it stands, but for
/// frames, which are at least as strong now.
pub fn what_frames_rest_on_is_so()
    ensures { (sys : System) (limits : Limits) (history : List Event) →
        Legal sys limits history → IsFrameSound sys (replay history) }
{}

/// Unfinished obligations descend from seeds of the frontier's level, none has two unfinished
/// children, and those that are worked on are out, each for one worker.
pub fn unfinished_obligations_are_trees()
    ensures { (sys : System) (limits : Limits) (history : List Event) →
        Legal sys limits history → IsTreeOf (replay history) }
{}

/// The cubes of clauses and of jobs that are out are well-sorted, and the worlds of obligations and
/// of jobs fit the signature.
pub fn cubes_are_well_sorted_and_worlds_fit()
    ensures { (sys : System) (limits : Limits) (history : List Event) →
        IsSystem sys → Legal sys limits history → IsFit sys (replay history) }
{}

/// The state of a seed obligation violates a safety, and from any other's a step leads into its
/// parent's diagram. Into the root of a rooted one, an initial state, its state embeds.
pub fn obligations_come_from_violations()
    ensures { (sys : System) (limits : Limits) (history : List Event) →
        IsSystem sys → Legal sys limits history → AreSoundOrigins sys (replay history).obligations }
{}

/// A failed push is a step into its clause's cube, from the clause's level or a lower one.
pub fn failed_pushes_step_into_their_clauses()
    ensures { (sys : System) (limits : Limits) (history : List Event) →
        IsSystem sys → Legal sys limits history → AreSoundFails sys (replay history) }
{}
