//! `updr MODEL --free`: the search of `updr` by workers that run freely.

ghost use Rattle.std.specs.Prelude.{◌≡◌, ℕ, List, IfOk, IfSome, None, length, map, string_bytes};
ghost use Rattle.fo_core.specs.declared.order.Purpose.TheVariants as purpose;
ghost use Rattle.fo_core.specs.SortGraph.{SortEdge, Rises};
ghost use Rattle.updr_told.specs.Stops.{ComesAs};
ghost use Rattle.updr_words.specs.Forms.{form_of};
ghost use Rattle.updr_words.specs.Jobs.{AreInRange, IsJob, job_of};
ghost use Rattle.updr_table.specs.Commands.{Suits};
ghost use Rattle.updr_table.specs.Outside.{Reading, outside};
ghost use Rattle.updr_table.specs.Rows.{Contents, contents_of};
ghost use Rattle.updr_model.specs.Texts.{IsModel};
ghost use Rattle.updr_top.specs.Free.{AsksFree, EndsFreely, EndsOverFreely, MayEndFreely, free_form};

use crate::infer::{limits_by, reported, search_form};
use fo_core::{Order, Purpose};
use fo_solve::Engines;
use pv_base::Files;
use std::alloc::{AllocError, Global};
use std::sync::Wait;
use std::thread::Threads;
use up_core::Core;
use up_free::{Gate, infer_free};
use updr_model::{Elaborated, order_for, read_model};
use updr_table::{content, is_named, read_files};
use updr_told::{Stop, Told};
use updr_words::{Form, Job, WordsFault, read};

/// The words of `updr`, and `--free`.
fn free_form() -> Form
    ensures { form_of result ≡ free_form }
{
    search_form(&["free"])
}

/// Searches a system, and reports what the search has come to.
fn search<R: Threads + Wait + Sync, G: Gate>(
    rt: &R,
    alloc: Global,
    job: &Job<'_>,
    meant: &Elaborated,
    order: &Order,
    gate: &G,
) -> Result<Told<Core>, AllocError>
    requires model { IsModel meant.now.sys meant.now.names }
    requires order { Rises (SortEdge meant.now.sys purpose.Infer)
        meant.now.sys.sig.sorts order.now.numbers }
    requires given { length job.now.numbers.items ≡ 5 }
    requires ranges { AreInRange free_form.numbers job.now.numbers.items }
    ensures { IfOk result (λ end. (cs : Contents)
        → EndsOverFreely (job_of job.now) (record { meant = meant.now; contents = cs }) end) }
{
    let limits = limits_by(job);
    let makers = Engines {
        limit: limits.weight,
    };
    let core = infer_free(rt, alloc, &makers, &meant.sys, order, limits, gate)?;
    reported(alloc, meant, core)
}

/// Searches the model whose text is the first content.
fn search_text<R: Threads + Wait + Sync, G: Gate>(
    rt: &R,
    alloc: Global,
    job: &Job<'_>,
    contents: &[Vec<u8>],
    gate: &G,
) -> Result<Told<Core>, Stop<Core>>
    requires { Suits free_form (job_of job.now) (contents_of contents.now) }
    ensures { ComesAs (EndsFreely (job_of job.now) (contents_of contents.now)) result }
{
    let meant = read_model(alloc, content(contents, 0))?;
    let order = order_for(alloc, &meant.sys, &meant.names, Purpose::Infer)?;
    Ok(search(rt, alloc, job, &meant, &order, gate)?)
}

/// Serves words that were read and have `--free`.
fn serve_job<R: Threads + Wait + Sync, F: Files, G: Gate>(
    rt: &R,
    alloc: Global,
    job: &Job<'_>,
    files: &mut F,
    gate: &G,
) -> Result<Told<Core>, Stop<Core>>
    requires { (words : List (List ℕ)) × IsJob free_form words (job_of job.now) }
    ensures { ComesAs (Reading
        (outside F.contents F.faults F.refused files.old files.new)
        (job_of job.now).files
        (EndsFreely (job_of job.now))) result }
{
    let contents = read_files(alloc, files, &job.files)?;
    search_text(rt, alloc, job, &contents, gate)
}

/// Serves the words of `updr` where `--free` is one of them. Other words aren't served, and then no
/// file is read.
pub fn serve_free<R: Threads + Wait + Sync, F: Files, G: Gate>(
    rt: &R,
    alloc: Global,
    words: &[String],
    files: &mut F,
    gate: &G,
) -> Option<Result<Told<Core>, Stop<Core>>>
    ensures served { IfSome result (ComesAs (MayEndFreely
        (outside F.contents F.faults F.refused files.old files.new)
        (map string_bytes words.now))) }
    ensures others { result ≡ None → ¬ AsksFree (map string_bytes words.now) }
    ensures unread { result ≡ None → files.new ≡ files.old }
{
    let form = free_form();
    if !is_named(&form, words) {
        return None;
    }
    match read(alloc, &form, words) {
        Ok(job) => {
            if job.flags[0] {
                Some(serve_job(rt, alloc, &job, files, gate))
            } else {
                None
            }
        }
        Err(WordsFault::Usage) => None,
        Err(WordsFault::Memory) => Some(Err(Stop::Memory)),
    }
}
