ghost use Rattle.std.specs.Prelude.{◌≡◌, ◌<◌, length};
ghost use Rattle.std.specs.Thread.{IsSync};
ghost use Rattle.updr_told.specs.Stops.{ComesAs};
ghost use Rattle.updr_words.specs.Forms.{form_of};
ghost use Rattle.updr_words.specs.Jobs.{job_of};
ghost use Rattle.updr_table.specs.Commands.{Command, IsSound, Suits};
ghost use Rattle.updr_table.specs.Rows.{Ends, content_at, contents_of};

use std::alloc::Global;
use std::thread::Threads;
use updr_told::{Stop, Told};
use updr_words::{Form, Job};

/// A command of a program, over the contents of the files that it names. It knows nothing of files
/// or sinks.
///
/// `L` is what an end leaves behind.
pub trait Course<L> {
    /// Its words and its table.
    ghost command: { Command L };

    /// The words that it takes.
    fn form() -> Form
        ensures { form_of result ≡ command.form };

    /// Ends by a row of the command's table. The contents are those of the job's files, in order.
    ///
    /// # Errors
    ///
    /// `Stop::Refused` is an end too, by a row that refuses. `Stop::Memory` comes where memory is
    /// refused.
    fn run<R: Threads + Sync>(
        rt: &R,
        alloc: Global,
        job: &Job<'_>,
        contents: &[Vec<u8>],
    ) -> Result<Told<L>, Stop<L>>
        requires shared { IsSync R.row }
        requires suits { Suits command.form (job_of job.now) (contents_of contents.now) }
        ensures { ComesAs (Ends (command.rows (job_of job.now)) (contents_of contents.now))
            result };

    /// What the laws of tables ask of the command.
    ghost sound: { IsSound command };
}

/// The content of the file at this place.
pub fn content(contents: &[Vec<u8>], place: usize) -> &[u8]
    requires { place < length contents.now }
    ensures { result.now ≡ content_at (contents_of contents.now) place }
{
    &contents[place]
}
