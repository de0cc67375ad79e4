//! What the machine of a search tells when its run has come to an end.

ghost use Rattle.std.specs.Prelude.{◌≡◌, IfOk};
ghost use Rattle.up_machine.specs.Told.{Told as TellsVerdict};
ghost use Rattle.updr_top.specs.OneStatus.{status_of};
ghost use Rattle.updr_top.specs.Tellings.{IsFinished};

use std::alloc::{AllocError, Global};
use up_claims::Verdict;
use up_core::Core;
use updr_model::Elaborated;
use updr_told::Status;

/// The status with which a verdict is reported.
pub fn status_of(verdict: &Verdict) -> Status
    ensures { result ≡ status_of verdict.now }
{
    match verdict {
        Verdict::Safe(_, _) => Status::Holds,
        Verdict::Unsafe(_) => Status::Unsafe,
        Verdict::NoUniversal(_) => Status::NoUniversal,
        Verdict::Bounded(_, _, _) => Status::Bounded,
        Verdict::Spent(_) => Status::Spent,
        Verdict::Over(_, _) => Status::Over,
        Verdict::NoRun(_) => Status::Holds,
    }
}

/// The verdict of a machine whose run has come to its end.
pub fn told_verdict(alloc: Global, meant: &Elaborated, core: &Core) -> Result<Verdict, AllocError>
    requires { IsFinished meant.now.sys core.now.limits core.now }
    ensures { IfOk result (TellsVerdict meant.now.sys core.now.history) }
{
    match core.verdict(alloc)? {
        Some(verdict) => Ok(verdict),
        None => unreachable!(),
    }
}
