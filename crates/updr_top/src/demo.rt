ghost use Rattle.std.specs.Prelude.{◌≡◌, ◌≤◌, ◌++◌, ◌<◌, ◌^◌, IfOk, OnOk, decimal, length};
ghost use Rattle.up_gen.specs.Models.{model_text_of};
ghost use Rattle.up_gen.specs.declared.models.TheConstants.{MOST_RELATIONS};
ghost use Rattle.up_machine.specs.Ranges.{AreInRange};
ghost use Rattle.up_rounds.specs.Courses.{IsRun};
ghost use Rattle.updr_words.specs.Jobs.{AreInRange as AreOptionsInRange, job_of};
ghost use Rattle.updr_table.specs.Rows.{Contents, Ends};
ghost use Rattle.updr_top.specs.Demo.{demo_form, demo_line, demo_table, field, model_words, numbers_words, relations_of, usual_limits};

use crate::verdicts::{status_of, told_verdict};
use fo_core::Purpose;
use fo_solve::Engines;
use itoa::Buffer;
use std::alloc::{AllocError, Global};
use std::thread::Threads;
use up_claims::Numbers;
use up_core::Core;
use up_gen::{MOST_RELATIONS, model_text};
use up_machine::Limits;
use up_rounds::infer_rounds;
use updr_model::{Elaborated, order_for, read_model};
use updr_table::Course;
use updr_told::{Status, Stop, Told};
use updr_words::{Form, Giving, Job, Number};

/// How many relations of nodes the model has.
const RELATIONS: Number = Number {
    name: "N",
    giving: Giving::ByWord,
    usual: "",
    least: 1,
    most: MOST_RELATIONS,
};

/// How many relations the words ask for.
fn relations_by(job: &Job<'_>) -> u32
    requires given { length job.now.numbers.items ≡ 1 }
    requires ranges { AreOptionsInRange demo_form.numbers job.now.numbers.items }
    ensures is { result ≡ relations_of (job_of job.now) }
    ensures low { 1 ≤ result }
    ensures high { result ≤ MOST_RELATIONS }
{
    job.numbers[0]
}

/// What `updr` lets a search spend where its words give no option.
fn usual_limits() -> Limits
    ensures is { result ≡ usual_limits }
    ensures in_range { AreInRange result }
{
    Limits {
        workers: 4,
        batch: 8,
        frames: 20,
        steps: 20_000,
        weight: 4_000_000,
    }
}

/// Appends a word and a number.
fn push_field(line: &mut Vec<u8>, word: &[u8], number: u64) -> Result<(), AllocError>
    ensures { OnOk result (line.new.items ≡ line.old.items ++ field word.now number) }
{
    let mut buffer = Buffer::new();
    line.extend_from_slice(word)?;
    line.extend_from_slice(b" ")?;
    line.extend_from_slice(buffer.format(number).as_bytes())
}

/// Appends how many relations the model has, and how many bytes its text.
fn push_model(line: &mut Vec<u8>, relations: u32, bytes: usize) -> Result<(), AllocError>
    ensures { OnOk result (line.new.items ≡ line.old.items ++ model_words relations bytes) }
{
    push_field(line, b"demo", u64::from(relations))?;
    push_field(line, b" bytes", bytes as u64)
}

/// Appends how far the search had come.
fn push_numbers(line: &mut Vec<u8>, numbers: Numbers) -> Result<(), AllocError>
    ensures { OnOk result (line.new.items ≡ line.old.items ++ numbers_words numbers) }
{
    push_field(line, b" productive", numbers.productive)?;
    push_field(line, b" frontier", numbers.frontier)?;
    push_field(line, b" clauses", numbers.clauses)?;
    Ok(())
}

/// The line that is printed.
fn demo_line(
    alloc: Global,
    relations: u32,
    bytes: usize,
    status: Status,
    numbers: Numbers,
) -> Result<Vec<u8>, AllocError>
    ensures { IfOk result (λ line. line.items ≡ demo_line relations bytes status numbers) }
{
    let mut line = Vec::new(alloc);
    push_model(&mut line, relations, bytes)?;
    push_field(&mut line, b" status", u64::from(status.number()))?;
    push_numbers(&mut line, numbers)?;
    line.extend_from_slice(b"\n")?;
    Ok(line)
}

/// The end that tells what a search of the model of so many relations, whose text has so many bytes,
/// has come to. It leaves the machine.
fn demonstrated(
    alloc: Global,
    relations: u32,
    bytes: usize,
    meant: &Elaborated,
    core: Core,
) -> Result<Told<Core>, AllocError>
    requires length { bytes ≡ length (model_text_of relations) }
    requires ran { IsRun meant.now.sys core.order usual_limits core }
    ensures { IfOk result (λ end. (cs : Contents)
        → Ends (demo_table relations) (record { meant = meant.now; contents = cs }) end) }
{
    let verdict = told_verdict(alloc, meant, &core)?;
    let status = status_of(&verdict);
    let numbers = core.numbers();
    let line = demo_line(alloc, relations, bytes, status, numbers)?;
    Ok(Told::leaving(alloc, status, line, core))
}

/// `demo N` makes a model of N relations and searches for a universal inductive invariant of it, as
/// `updr` does where its words give no option. It prints one line: the length of the model's text,
/// the status, and how far the search had come.
pub struct Demo;

impl Course<Core> for Demo {
    ghost use Rattle.updr_top.specs.Demo.{demo_command, demo_sound};

    ghost command = { demo_command };

    fn form() -> Form {
        Form {
            name: "demo",
            files: &[],
            numbers: &[RELATIONS],
            flags: &[],
        }
    }

    fn run<R: Threads + Sync>(
        rt: &R,
        alloc: Global,
        job: &Job<'_>,
        _contents: &[Vec<u8>],
    ) -> Result<Told<Core>, Stop<Core>> {
        let relations = relations_by(job);
        let text = model_text(alloc, relations)?;
        let bytes = text.as_str().as_bytes();
        let meant = read_model(alloc, bytes)?;
        let order = order_for(alloc, &meant.sys, &meant.names, Purpose::Infer)?;
        let limits = usual_limits();
        let makers = Engines {
            limit: limits.weight,
        };
        let core = infer_rounds(rt, alloc, &makers, &meant.sys, &order, limits)?;
        Ok(demonstrated(alloc, relations, bytes.len(), &meant, core)?)
    }

    ghost sound = { demo_sound };
}
