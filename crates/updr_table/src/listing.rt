ghost use Rattle.std.specs.Prelude.{◌≡◌, ◌↔◌, ◌∷◌, [], IsTrue, List, Some, map, slice_get, string_bytes};
ghost use Rattle.std.specs.Thread.{IsSync};
ghost use Rattle.updr_told.specs.Ends.{usage};
ghost use Rattle.updr_told.specs.Stops.{ComesAs};
ghost use Rattle.updr_words.specs.Forms.{form_of};
ghost use Rattle.updr_table.specs.Commands.{AreSound, Command, MayEnd, MayEndBy};
ghost use Rattle.updr_table.specs.Outside.{outside};

use crate::course::Course;
use crate::reading::read_files;
use pv_base::Files;
use std::alloc::Global;
use std::marker::PhantomData;
use std::thread::Threads;
use updr_told::{Stop, Told};
use updr_words::{Form, WordsFault, read};

/// The commands of a program.
pub trait Table<L> {
    /// Each with its words and its table.
    ghost commands: { List (Command L) };

    /// Serves the words behind the program's name, by the command that the first of them names.
    fn serve<R: Threads + Sync, F: Files>(
        rt: &R,
        alloc: Global,
        words: &[String],
        files: &mut F,
    ) -> Result<Told<L>, Stop<L>>
        requires { IsSync R.row }
        ensures { ComesAs (MayEnd commands
            (outside F.contents F.faults F.refused files.old files.new)
            (map string_bytes words.now)) result };

    /// What the laws of tables ask of each command.
    ghost sound: { AreSound commands };
}

/// No command.
pub struct Nothing;

/// A command, and those of another list behind it.
pub struct More<C, T> {
    of: PhantomData<(C, T)>,
}

/// Whether the first word is the name of the command of this form.
pub fn is_named(form: &Form, words: &[String]) -> bool
    ensures { IsTrue result
        ↔ (slice_get (map string_bytes words.now) 0 ≡ Some (form_of form.now).name) }
{
    match words.first() {
        Some(name) => name.as_str() == form.name,
        None => false,
    }
}

fn usage<L>(alloc: Global) -> Result<Told<L>, Stop<L>>
    ensures { ComesAs (λ end. end ≡ usage) result }
{
    Ok(Told::usage(alloc)?)
}

/// Serves the words of one command.
fn serve_one<R: Threads + Sync, L: Drop, C: Course<L>, F: Files>(
    rt: &R,
    alloc: Global,
    words: &[String],
    files: &mut F,
) -> Result<Told<L>, Stop<L>>
    ensures { ComesAs (MayEndBy C.command
        (outside F.contents F.faults F.refused files.old files.new)
        (map string_bytes words.now)) result }
{
    match read(alloc, &C::form(), words) {
        Ok(job) => {
            let contents = read_files(alloc, files, &job.files)?;
            C::run(rt, alloc, &job, &contents)
        }
        Err(WordsFault::Usage) => usage(alloc),
        Err(WordsFault::Memory) => Err(Stop::Memory),
    }
}

impl<L> Table<L> for Nothing {
    ghost commands = { [] };

    fn serve<R: Threads + Sync, F: Files>(
        _rt: &R,
        alloc: Global,
        _words: &[String],
        _files: &mut F,
    ) -> Result<Told<L>, Stop<L>> {
        usage(alloc)
    }

    ghost sound = { tt };
}

impl<L: Drop, C: Course<L>, T: Table<L>> Table<L> for More<C, T> {
    ghost commands = { C.command ∷ T.commands };

    fn serve<R: Threads + Sync, F: Files>(
        rt: &R,
        alloc: Global,
        words: &[String],
        files: &mut F,
    ) -> Result<Told<L>, Stop<L>> {
        if is_named(&C::form(), words) {
            serve_one::<R, L, C, F>(rt, alloc, words, files)
        } else {
            T::serve(rt, alloc, words, files)
        }
    }

    ghost sound = { (C.sound, T.sound) };
}
