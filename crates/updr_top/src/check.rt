ghost use Rattle.std.specs.Prelude.{◌≡◌, codes, string_bytes, IfOk, None};
ghost use Rattle.up_cert.specs.Asked.{CanJudgeVerdict};
ghost use Rattle.updr_told.specs.Ends.{printing};
ghost use Rattle.updr_told.specs.declared.status.Status.TheVariants as status;
ghost use Rattle.updr_table.specs.Rows.{Contents, Ends};
ghost use Rattle.updr_top.specs.Check.{init_words, judge_table, over_check_text, spot_words, wrong_text};

use crate::options::{WEIGHT, finder};
use crate::reported::{order_if_asked, read_report};
use fo_core::{Finder, Order};
use std::alloc::{AllocError, Global};
use std::thread::Threads;
use up_cert::{Judged, Spot, What, judge};
use up_claims::{Report, Verdict};
use up_core::Core;
use updr_model::{Elaborated, OnModel};
use updr_table::content;
use updr_told::{Status, Stop, Told};
use updr_words::{Form, Job};

/// How it is told that `init` of this number fails.
fn init_words(alloc: Global, verdict: &Verdict, number: u32) -> Result<String, AllocError>
    ensures { IfOk result (λ words. string_bytes words ≡ init_words verdict.now number) }
{
    match verdict {
        Verdict::Unsafe(_) => String::from_str(alloc, "init"),
        Verdict::Safe(_, _) => format!(in alloc; "init {number}"),
        Verdict::NoUniversal(_) => format!(in alloc; "init {number}"),
        Verdict::Bounded(_, _, _) => format!(in alloc; "init {number}"),
        Verdict::Spent(_) => format!(in alloc; "init {number}"),
        Verdict::Over(_, _) => format!(in alloc; "init {number}"),
        Verdict::NoRun(_) => format!(in alloc; "init {number}"),
    }
}

/// How a spot of the verdict is told.
fn spot_words(alloc: Global, verdict: &Verdict, spot: Spot) -> Result<String, AllocError>
    ensures { IfOk result (λ words. string_bytes words
        ≡ spot_words verdict.now spot.what spot.number) }
{
    let number = spot.number;
    match spot.what {
        What::State => format!(in alloc; "state {number}"),
        What::Init => init_words(alloc, verdict, number),
        What::Step => format!(in alloc; "step {number}"),
        What::Safety => String::from_str(alloc, "safety"),
        What::Start => String::from_str(alloc, "start"),
        What::Map => format!(in alloc; "map {number}"),
        What::Leave => format!(in alloc; "leave {number}"),
        What::Run => String::from_str(alloc, "run"),
    }
}

/// The line that tells which spot fails.
fn wrong_line(alloc: Global, verdict: &Verdict, spot: Spot) -> Result<Vec<u8>, AllocError>
    ensures { IfOk result (λ line. line.items ≡ wrong_text verdict.now spot) }
{
    let words = spot_words(alloc, verdict, spot)?;
    Ok(format!(in alloc; "wrong {words}\n")?.into_bytes())
}

/// The end that tells that the verdict holds.
fn confirmed(alloc: Global) -> Result<Told<Core>, AllocError>
    ensures { IfOk result (λ end. end ≡ printing status.Holds (codes "holds\n") None) }
{
    Ok(Told::printing(alloc, Status::Holds, b"holds\n".to_vec(alloc)?))
}

/// The end that tells which spot fails.
fn wrong(alloc: Global, verdict: &Verdict, spot: Spot) -> Result<Told<Core>, AllocError>
    ensures { IfOk result (λ end. end ≡ printing status.Wrong (wrong_text verdict.now spot) None) }
{
    let line = wrong_line(alloc, verdict, spot)?;
    Ok(Told::printing(alloc, Status::Wrong, line))
}

/// The end that tells a query that is too heavy.
fn too_heavy(alloc: Global, weight: u64) -> Result<Told<Core>, AllocError>
    ensures { IfOk result (λ end. end ≡ printing status.Over (over_check_text weight) None) }
{
    let line = format!(in alloc; "over check {weight}\n")?;
    Ok(Told::printing(alloc, Status::Over, line.into_bytes()))
}

/// The end that tells that the verdict says nothing of the model.
fn nothing(alloc: Global) -> Result<Told<Core>, AllocError>
    ensures { IfOk result (λ end. end
        ≡ printing status.NothingToCheck (codes "nothing to check\n") None) }
{
    let line = b"nothing to check\n".to_vec(alloc)?;
    Ok(Told::printing(alloc, Status::NothingToCheck, line))
}

/// The end that tells what judging the report's verdict comes to.
fn judged<F: Finder>(
    alloc: Global,
    meant: &Elaborated,
    order: &Order,
    report: &Report,
    finder: &mut F,
) -> Result<Told<Core>, AllocError>
    requires { CanJudgeVerdict meant.now.sys order.now report.now.verdict }
    ensures { IfOk result (λ end. (cs : Contents)
        → Ends (judge_table (F.limit finder.old))
        (record { given = record { meant = meant.now; contents = cs }; report = report.now }) end) }
{
    match judge(alloc, finder, &meant.sys, order, &report.verdict)? {
        Judged::Holds => confirmed(alloc),
        Judged::Wrong(spot) => wrong(alloc, &report.verdict, spot),
        Judged::Over(weight) => too_heavy(alloc, weight),
        Judged::Nothing => nothing(alloc),
    }
}

/// `check MODEL REPORT` says whether what a report says of a model is so.
pub struct Check;

impl OnModel<Core> for Check {
    ghost use Rattle.updr_top.specs.Check.{check_form, check_rows};
    ghost use Rattle.updr_top.specs.CheckSound.{check_sound};

    ghost words = { check_form };

    ghost rows = { check_rows };

    fn form() -> Form {
        Form {
            name: "check",
            files: &["MODEL", "REPORT"],
            numbers: &[WEIGHT],
            flags: &[],
        }
    }

    fn run<R: Threads + Sync>(
        _rt: &R,
        alloc: Global,
        job: &Job<'_>,
        meant: &Elaborated,
        contents: &[Vec<u8>],
    ) -> Result<Told<Core>, Stop<Core>> {
        let report = read_report(alloc, meant, content(contents, 1))?;
        let order = order_if_asked(alloc, meant, &report.verdict)?;
        let mut finder = finder(job.numbers[0]);
        Ok(judged(alloc, meant, &order, &report, &mut finder)?)
    }

    ghost sound = { check_sound };
}
