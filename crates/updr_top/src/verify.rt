ghost use Rattle.std.specs.Prelude.{◌≡◌, ◌++◌, codes, decimal, length, string_bytes, IfOk, None};
ghost use Rattle.fo_core.specs.declared.order.Purpose.TheVariants as purpose;
ghost use Rattle.fo_core.specs.SortGraph.{SortEdge, Rises};
ghost use Rattle.up_claims.specs.Breaking.{Breaks};
ghost use Rattle.up_verify.specs.Verifying.{case_of};
ghost use Rattle.updr_told.specs.Ends.{printing};
ghost use Rattle.updr_told.specs.declared.status.Status.TheVariants.{Holds, NotInductive, Over};
ghost use Rattle.updr_table.specs.Rows.{Contents, Ends};
ghost use Rattle.updr_model.specs.Texts.{IsModel};
ghost use Rattle.updr_top.specs.Verify.{case_words, failing_text, heavy_text, step_name, verify_table};

use crate::options::{WEIGHT, finder};
use fo_core::{Finder, Names, Order, Purpose};
use fo_text::world_text;
use std::alloc::{AllocError, Global};
use std::thread::Threads;
use up_core::Core;
use up_verify::{Failure, Verified, verify};
use updr_model::{Elaborated, OnStratified};
use updr_told::{Status, Stop, Told};
use updr_words::{Form, Job};

/// The name of a transition.
fn step_name(names: &Names, step: u32) -> &str
    ensures { result.now ≡ step_name names.now step }
{
    match names.steps.as_slice().get(step as usize) {
        Some(name) => name.as_str(),
        None => "",
    }
}

/// The words of a property that a transition of this name doesn't keep.
fn step_words(alloc: Global, name: &str, property: u32) -> Result<String, AllocError>
    ensures { IfOk result (λ words. string_bytes words
        ≡ codes "step " ++ (name.now ++ (codes " property " ++ decimal property))) }
{
    format!(in alloc; "step {name} property {property}")
}

/// The words of a case: which property, and where it fails.
fn case_words(
    alloc: Global,
    names: &Names,
    step: Option<u32>,
    property: u32,
) -> Result<String, AllocError>
    ensures { IfOk result (λ words. string_bytes words ≡ case_words names.now step property) }
{
    match step {
        None => format!(in alloc; "init property {property}"),
        Some(t) => step_words(alloc, step_name(names, t), property),
    }
}

/// The line that tells which property fails.
fn failing_line(alloc: Global, names: &Names, failure: &Failure) -> Result<Vec<u8>, AllocError>
    ensures { IfOk result (λ line. line.items
        ≡ codes "not inductive " ++ case_words names.now failure.now.step failure.now.property ++ codes "\n") }
{
    let words = case_words(alloc, names, failure.step, failure.property)?;
    Ok(format!(in alloc; "not inductive {words}\n")?.into_bytes())
}

/// The end that tells a property that fails, with the world that shows it.
fn failing(alloc: Global, meant: &Elaborated, failure: &Failure) -> Result<Told<Core>, AllocError>
    requires model { IsModel meant.now.sys meant.now.names }
    requires breaks { Breaks meant.now.sys failure.now.step failure.now.property failure.now.world }
    ensures { IfOk result (λ end. end
        ≡ printing NotInductive (failing_text meant.now (case_of failure.now) failure.now.world) None) }
{
    let mut text = failing_line(alloc, &meant.names, failure)?;
    world_text(
        alloc,
        &meant.sys.sig,
        &meant.names,
        &failure.world,
        &mut text,
    )?;
    Ok(Told::printing(alloc, Status::NotInductive, text))
}

/// The end that tells that the properties are inductive.
fn inductive(alloc: Global) -> Result<Told<Core>, AllocError>
    ensures { IfOk result (λ end. end ≡ printing Holds (codes "inductive\n") None) }
{
    Ok(Told::printing(alloc, Status::Holds, b"inductive\n".to_vec(alloc)?))
}

/// The end that tells a query that is too heavy.
fn too_heavy(alloc: Global, weight: u64) -> Result<Told<Core>, AllocError>
    ensures { IfOk result (λ end. end ≡ printing Over (heavy_text weight) None) }
{
    let line = format!(in alloc; "over verify {weight}\n")?;
    Ok(Told::printing(alloc, Status::Over, line.into_bytes()))
}

/// The end that tells what a verification finds.
fn verified<F: Finder>(
    alloc: Global,
    meant: &Elaborated,
    order: &Order,
    finder: &mut F,
) -> Result<Told<Core>, AllocError>
    requires model { IsModel meant.now.sys meant.now.names }
    requires order { Rises (SortEdge meant.now.sys purpose.Verify)
        meant.now.sys.sig.sorts order.now.numbers }
    ensures { IfOk result (λ end. (cs : Contents)
        → Ends (verify_table (F.limit finder.old)) (record { meant = meant.now; contents = cs }) end) }
{
    match verify(alloc, finder, &meant.sys, order)? {
        Verified::Inductive => inductive(alloc),
        Verified::Fails(failure) => failing(alloc, meant, &failure),
        Verified::Over(weight) => too_heavy(alloc, weight),
    }
}

/// `verify MODEL` says whether a model's safeties and invariants together are inductive (Robert W.
/// Floyd, "Assigning Meanings to Programs", 1967), or which property is the first to fail.
pub struct Verify;

impl OnStratified<Core> for Verify {
    ghost use Rattle.fo_core.specs.declared.order.Purpose.TheVariants as purpose;
    ghost use Rattle.updr_top.specs.Verify.{verify_form, verify_rows, verify_sound};

    ghost words = { verify_form };

    ghost aim = { purpose.Verify };

    ghost rows = { verify_rows };

    fn form() -> Form {
        Form {
            name: "verify",
            files: &["MODEL"],
            numbers: &[WEIGHT],
            flags: &[],
        }
    }

    fn purpose() -> Purpose {
        Purpose::Verify
    }

    fn run<R: Threads + Sync>(
        _rt: &R,
        alloc: Global,
        job: &Job<'_>,
        meant: &Elaborated,
        order: &Order,
        _contents: &[Vec<u8>],
    ) -> Result<Told<Core>, Stop<Core>> {
        let mut finder = finder(job.numbers[0]);
        Ok(verified(alloc, meant, order, &mut finder)?)
    }

    ghost sound = { verify_sound };
}
