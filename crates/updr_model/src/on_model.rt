//! Commands over a model that was read.

ghost use Rattle.std.specs.Prelude.{◌≡◌, List};
ghost use Rattle.std.specs.Thread.{IsSync};
ghost use Rattle.fo_core.specs.declared.order.Purpose.{Purpose};
ghost use Rattle.fo_core.specs.SortGraph.{SortEdge, Rises};
ghost use Rattle.updr_told.specs.Stops.{ComesAs};
ghost use Rattle.updr_words.specs.Forms.{Form, form_of};
ghost use Rattle.updr_words.specs.Jobs.{Job, job_of};
ghost use Rattle.updr_table.specs.Commands.{Suits};
ghost use Rattle.updr_table.specs.Rows.{Ends, Row, contents_of};
ghost use Rattle.updr_model.specs.OnModel.{Given, IsSoundOnModel, IsSoundStratified};
ghost use Rattle.updr_model.specs.Texts.{IsModel};

use crate::cycle::order_for;
use crate::reading::read_model;
use fo_core::{Order, Purpose};
use pyv_sorts::Elaborated;
use std::alloc::Global;
use std::marker::PhantomData;
use std::thread::Threads;
use updr_table::{Course, content};
use updr_told::{Stop, Told};
use updr_words::{Form, Job};

/// A command over the system that its first file means. It knows nothing of the model's text.
pub trait OnModel<L> {
    /// Its words, with the model as the first file.
    ghost words: { Form };

    /// Its table over the system and the contents of the files.
    ghost rows: { Job → List (Row Given L) };

    /// The words that it takes.
    fn form() -> Form
        ensures { form_of result ≡ words };

    /// Ends by a row of its table.
    ///
    /// # Errors
    ///
    /// As [`Course::run`].
    fn run<R: Threads + Sync>(
        rt: &R,
        alloc: Global,
        job: &Job<'_>,
        meant: &Elaborated,
        contents: &[Vec<u8>],
    ) -> Result<Told<L>, Stop<L>>
        requires shared { IsSync R.row }
        requires suits { Suits words (job_of job.now) (contents_of contents.now) }
        requires model { IsModel meant.now.sys meant.now.names }
        ensures { ComesAs (Ends (rows (job_of job.now)) (record { meant = meant.now; contents = contents_of contents.now })) result };

    /// What the laws of tables ask of it.
    ghost sound: { IsSoundOnModel words rows };
}

/// The command that reads its model, and then works on the system that this means.
pub struct OverModel<W> {
    of: PhantomData<W>,
}

impl<L: Drop, W: OnModel<L>> Course<L> for OverModel<W> {
    ghost use Rattle.updr_model.specs.OnModel.{model_command};
    ghost use Rattle.updr_model.specs.Sound.{sound_model};

    ghost command = { model_command W.words W.rows };

    fn form() -> Form {
        W::form()
    }

    fn run<R: Threads + Sync>(
        rt: &R,
        alloc: Global,
        job: &Job<'_>,
        contents: &[Vec<u8>],
    ) -> Result<Told<L>, Stop<L>> {
        let meant = read_model(alloc, content(contents, 0))?;
        W::run(rt, alloc, job, &meant, contents)
    }

    ghost sound = { sound_model W.words W.rows W.sound };
}

/// A command over a system that is stratified for what it asks.
pub trait OnStratified<L> {
    /// Its words, with the model as the first file.
    ghost words: { Form };

    /// What the system is to be stratified for.
    ghost aim: { Purpose };

    /// Its table over the system and the contents of the files.
    ghost rows: { Job → List (Row Given L) };

    /// The words that it takes.
    fn form() -> Form
        ensures { form_of result ≡ words };

    /// What the system is to be stratified for.
    fn purpose() -> Purpose
        ensures { result ≡ aim };

    /// Ends by a row of its table, with an order of the system's sorts at hand.
    ///
    /// # Errors
    ///
    /// As [`Course::run`].
    fn run<R: Threads + Sync>(
        rt: &R,
        alloc: Global,
        job: &Job<'_>,
        meant: &Elaborated,
        order: &Order,
        contents: &[Vec<u8>],
    ) -> Result<Told<L>, Stop<L>>
        requires shared { IsSync R.row }
        requires suits { Suits words (job_of job.now) (contents_of contents.now) }
        requires model { IsModel meant.now.sys meant.now.names }
        requires order { Rises (SortEdge meant.now.sys aim) meant.now.sys.sig.sorts order.now.numbers }
        ensures { ComesAs (Ends (rows (job_of job.now)) (record { meant = meant.now; contents = contents_of contents.now })) result };

    /// What the laws of tables ask of it.
    ghost sound: { IsSoundStratified aim words rows };
}

/// The command that asks whether the system is stratified, and then works on it.
pub struct IfStratified<W> {
    of: PhantomData<W>,
}

impl<L: Drop, W: OnStratified<L>> OnModel<L> for IfStratified<W> {
    ghost use Rattle.updr_model.specs.OnModel.{if_stratified};
    ghost use Rattle.updr_model.specs.Sound.{sound_stratified};

    ghost words = { W.words };

    ghost rows = { λ job. if_stratified W.aim (W.rows job) };

    fn form() -> Form {
        W::form()
    }

    fn run<R: Threads + Sync>(
        rt: &R,
        alloc: Global,
        job: &Job<'_>,
        meant: &Elaborated,
        contents: &[Vec<u8>],
    ) -> Result<Told<L>, Stop<L>> {
        let order = order_for(alloc, &meant.sys, &meant.names, W::purpose())?;
        W::run(rt, alloc, job, meant, &order, contents)
    }

    ghost sound = { sound_stratified W.aim W.words W.rows W.sound };
}
