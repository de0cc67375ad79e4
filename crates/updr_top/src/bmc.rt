ghost use Rattle.std.specs.Prelude.{◌≡◌, ◌<◌, ◌≤◌, ◌^◌, length, IfOk, None};
ghost use Rattle.fo_core.specs.declared.order.Purpose.TheVariants as purpose;
ghost use Rattle.fo_core.specs.SortGraph.{SortEdge, Rises};
ghost use Rattle.fo_core.specs.Tables.{Fits};
ghost use Rattle.up_claims.specs.declared.verdict.Verdict.TheVariants as verdict;
ghost use Rattle.up_report.specs.Ranges.{HasVerdict};
ghost use Rattle.updr_told.specs.Ends.{printing};
ghost use Rattle.updr_told.specs.declared.status.Status.TheVariants.{Unsafe};
ghost use Rattle.updr_table.specs.Rows.{Contents, Ends};
ghost use Rattle.updr_model.specs.Texts.{IsModel};
ghost use Rattle.updr_top.specs.Bmc.{bmc_table, verdict_text};

use crate::narrow::go_through;
use crate::options::{WEIGHT, finder};
use fo_core::{Finder, Order, Purpose, World};
use std::alloc::{AllocError, Global};
use std::thread::Threads;
use up_claims::{Numbers, Report, Verdict};
use up_core::Core;
use up_report::write;
use up_unroll::{Unrolled, unroll};
use updr_model::{Elaborated, OnStratified};
use updr_told::{Status, Stop, Told};
use updr_words::{Form, Giving, Job, Number};

/// `--depth`: the most steps of a run that is looked for.
const DEPTH: Number = Number {
    name: "depth",
    giving: Giving::ByOption,
    usual: "10",
    least: 0,
    most: 32,
};

/// No search with frames came to what is reported.
const NO_NUMBERS: Numbers = Numbers {
    productive: 0,
    frontier: 0,
    clauses: 0,
};

/// The end that reports a verdict.
fn reported(
    alloc: Global,
    meant: &Elaborated,
    status: Status,
    verdict: Verdict,
) -> Result<Told<Core>, AllocError>
    requires model { IsModel meant.now.sys meant.now.names }
    requires ranged { HasVerdict meant.now.sys.sig verdict }
    ensures { IfOk result (λ end. end ≡ printing status (verdict_text meant.now verdict) None) }
{
    let report = Report {
        verdict,
        numbers: NO_NUMBERS,
    };
    let mut text = Vec::new(alloc);
    write(alloc, &meant.sys.sig, &meant.names, &report, &mut text)?;
    Ok(Told::printing(alloc, status, text))
}

/// The end that reports a violating run.
fn unsafe_run(alloc: Global, meant: &Elaborated, world: World) -> Result<Told<Core>, AllocError>
    requires model { IsModel meant.now.sys meant.now.names }
    requires fits { Fits meant.now.sys.sig world }
    requires few { length world.copies ≤ 65 }
    ensures { IfOk result (λ end. end
        ≡ printing Unsafe (verdict_text meant.now (verdict.Unsafe world)) None) }
{
    go_through(world.sizes.as_slice());
    reported(alloc, meant, Status::Unsafe, Verdict::Unsafe(world))
}

/// The end that reports what a search for a violating run of at most so many steps finds.
fn unrolled<F: Finder>(
    alloc: Global,
    meant: &Elaborated,
    order: &Order,
    depth: u32,
    finder: &mut F,
) -> Result<Told<Core>, AllocError>
    requires model { IsModel meant.now.sys meant.now.names }
    requires order { Rises (SortEdge meant.now.sys purpose.Infer)
        meant.now.sys.sig.sorts order.now.numbers }
    requires depth { depth ≤ 32 }
    ensures { IfOk result (λ end. (cs : Contents)
        → Ends (bmc_table depth (F.limit finder.old)) (record { meant = meant.now; contents = cs }) end) }
{
    match unroll(alloc, finder, &meant.sys, order, depth)? {
        Unrolled::Run(world) => unsafe_run(alloc, meant, world),
        Unrolled::NoRun => reported(alloc, meant, Status::Holds, Verdict::NoRun(depth)),
        Unrolled::Over(kind, excess) => {
            let verdict = Verdict::Over(kind, excess.weight);
            reported(alloc, meant, Status::Over, verdict)
        }
    }
}

/// `bmc MODEL` looks for a violating run of few steps, by bounded model checking. Of the runs of
/// fewest steps it reports the least, by the sizes of the sorts and then by the values of the tables.
pub struct Bmc;

impl OnStratified<Core> for Bmc {
    ghost use Rattle.fo_core.specs.declared.order.Purpose.TheVariants as purpose;
    ghost use Rattle.updr_top.specs.Bmc.{bmc_form, bmc_rows, bmc_sound};

    ghost words = { bmc_form };

    ghost aim = { purpose.Infer };

    ghost rows = { bmc_rows };

    fn form() -> Form {
        Form {
            name: "bmc",
            files: &["MODEL"],
            numbers: &[DEPTH, WEIGHT],
            flags: &[],
        }
    }

    fn purpose() -> Purpose {
        Purpose::Infer
    }

    fn run<R: Threads + Sync>(
        _rt: &R,
        alloc: Global,
        job: &Job<'_>,
        meant: &Elaborated,
        order: &Order,
        _contents: &[Vec<u8>],
    ) -> Result<Told<Core>, Stop<Core>> {
        let mut finder = finder(job.numbers[1]);
        Ok(unrolled(alloc, meant, order, job.numbers[0], &mut finder)?)
    }

    ghost sound = { bmc_sound };
}
