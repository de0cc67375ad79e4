ghost use Rattle.std.specs.Prelude.{◌≡◌, length, IfOk, Some};
ghost use Rattle.fo_core.specs.declared.order.Purpose.TheVariants as purpose;
ghost use Rattle.up_machine.specs.Ranges.{AreInRange};
ghost use Rattle.up_machine.specs.Told.{Told as TellsVerdict};
ghost use Rattle.up_report.specs.Ranges.{AreNumbers};
ghost use Rattle.updr_words.specs.Forms.{form_of, texts};
ghost use Rattle.updr_words.specs.Jobs.{AreInRange as AreOptionsInRange, job_of};
ghost use Rattle.updr_model.specs.Texts.{IsModel};
ghost use Rattle.updr_top.specs.Infer.{infer_form, limits_of, report_of, search_text};
ghost use Rattle.updr_top.specs.Tellings.{IsFinished, IsReportOf};

use crate::narrow::is_narrow;
use crate::options::WEIGHT;
use crate::verdicts::{status_of, told_verdict};
use fo_core::{Order, Purpose};
use fo_solve::Engines;
use std::alloc::{AllocError, Global};
use std::thread::Threads;
use up_claims::{Report, Verdict};
use up_core::Core;
use up_machine::{Limits, MOST_FRAMES, MOST_SEATS, MOST_STEPS, MOST_WORKERS};
use up_report::write;
use up_rounds::infer_rounds;
use updr_model::{Elaborated, OnStratified};
use updr_told::{Stop, Told};
use updr_words::{Form, Giving, Job, Number};

/// `--workers`: how many threads share the jobs of a round.
const WORKERS: Number = Number {
    name: "workers",
    giving: Giving::ByOption,
    usual: "4",
    least: 1,
    most: MOST_WORKERS,
};

/// `--batch`: how many seats a round has.
const BATCH: Number = Number {
    name: "batch",
    giving: Giving::ByOption,
    usual: "8",
    least: 1,
    most: MOST_SEATS,
};

/// `--frames`: how far the frontier may go.
const FRAMES: Number = Number {
    name: "frames",
    giving: Giving::ByOption,
    usual: "20",
    least: 1,
    most: MOST_FRAMES,
};

/// `--steps`: how many productive events there may be.
const STEPS: Number = Number {
    name: "steps",
    giving: Giving::ByOption,
    usual: "20000",
    least: 1,
    most: MOST_STEPS,
};

/// The words of a search, with these options without a value.
pub fn search_form(flags: &'static [&'static str]) -> Form
    ensures { form_of result ≡ record infer_form { flags = texts flags.now } }
{
    Form {
        name: "updr",
        files: &["MODEL"],
        numbers: &[WORKERS, BATCH, FRAMES, STEPS, WEIGHT],
        flags,
    }
}

/// What the words let a search spend.
pub fn limits_by(job: &Job<'_>) -> Limits
    requires given { length job.now.numbers.items ≡ 5 }
    requires ranges { AreOptionsInRange infer_form.numbers job.now.numbers.items }
    ensures is { result ≡ limits_of (job_of job.now) }
    ensures in_range { AreInRange result }
{
    Limits {
        workers: job.numbers[0],
        batch: job.numbers[1],
        frames: job.numbers[2],
        steps: job.numbers[3],
        weight: u64::from(job.numbers[4]),
    }
}

/// The report of a verdict, with the numbers of the machine that tells it.
fn report_by(core: &Core, verdict: Verdict) -> Report
    ensures is { result ≡ report_of core.now verdict }
    ensures numbers { AreNumbers result.numbers }
{
    Report {
        verdict,
        numbers: core.numbers(),
    }
}

/// The report of a verdict that a machine tells, as a text.
///
/// A clause of 2^32 variables has no text; that is told as want of memory.
fn report_text(
    alloc: Global,
    meant: &Elaborated,
    core: &Core,
    verdict: Verdict,
) -> Result<Vec<u8>, AllocError>
    requires model { IsModel meant.now.sys meant.now.names }
    requires finished { IsFinished meant.now.sys core.now.limits core.now }
    requires told { TellsVerdict meant.now.sys core.now.history verdict }
    ensures { IfOk result (λ text. text.items ≡ search_text meant.now core.now verdict) }
{
    if !is_narrow(&verdict) {
        return Err(AllocError);
    }
    core.stays_sound();
    let report = report_by(core, verdict);
    let mut text = Vec::new(alloc);
    write(alloc, &meant.sys.sig, &meant.names, &report, &mut text)?;
    Ok(text)
}

/// The end that reports what a search has come to. It leaves the machine.
pub fn reported(alloc: Global, meant: &Elaborated, core: Core) -> Result<Told<Core>, AllocError>
    requires model { IsModel meant.now.sys meant.now.names }
    requires finished { IsFinished meant.now.sys core.limits core }
    ensures { IfOk result (IsReportOf search_text meant.now core) }
{
    let verdict = told_verdict(alloc, meant, &core)?;
    let status = status_of(&verdict);
    let text = report_text(alloc, meant, &core, verdict)?;
    Ok(Told::leaving(alloc, status, text, core))
}

/// `updr MODEL` searches for a universal inductive invariant, by rounds of a machine of
/// property-directed reachability. It reports an invariant, a shortest violating run, a chain of
/// states which shows that no universal invariant exists, or which limit was met.
pub struct Infer;

impl OnStratified<Core> for Infer {
    ghost use Rattle.fo_core.specs.declared.order.Purpose.TheVariants as purpose;
    ghost use Rattle.up_rounds.specs.Courses.{IsRun};
    ghost use Rattle.updr_top.specs.Infer.{infer_form, infer_sound, search_rows};

    ghost words = { infer_form };

    ghost aim = { purpose.Infer };

    ghost rows = { search_rows IsRun };

    fn form() -> Form {
        search_form(&[])
    }

    fn purpose() -> Purpose {
        Purpose::Infer
    }

    fn run<R: Threads + Sync>(
        rt: &R,
        alloc: Global,
        job: &Job<'_>,
        meant: &Elaborated,
        order: &Order,
        _contents: &[Vec<u8>],
    ) -> Result<Told<Core>, Stop<Core>> {
        let limits = limits_by(job);
        let makers = Engines {
            limit: limits.weight,
        };
        let core = infer_rounds(rt, alloc, &makers, &meant.sys, order, limits)?;
        Ok(reported(alloc, meant, core)?)
    }

    ghost sound = { infer_sound };
}
