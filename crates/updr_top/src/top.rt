ghost use Rattle.std.specs.Prelude.{◌≡◌, None, map, string_bytes};
ghost use Rattle.up_core.specs.View.{CoreView};
ghost use Rattle.updr_told.specs.Ends.{out_of_memory};
ghost use Rattle.updr_told.specs.Telling.{Tells, sunk};
ghost use Rattle.updr_table.specs.Outside.{outside};
ghost use Rattle.updr_table.specs.Table.{met};
ghost use Rattle.updr_top.specs.Free.{AsksFree, IsFreelyServed};
ghost use Rattle.updr_top.specs.Searched.{IsSearch};
ghost use Rattle.updr_top.specs.Served.{IsServed};

use crate::bmc::Bmc;
use crate::check::Check;
use crate::demo::Demo;
use crate::free::serve_free;
use crate::infer::Infer;
use crate::verify::Verify;
use pv_base::{Files, Sink};
use std::alloc::Global;
use std::sync::Wait;
use std::thread::Threads;
use up_core::Core;
use up_free::Gate;
use updr_model::{IfStratified, OverModel};
use updr_table::{More, Nothing, answer};
use updr_told::{Stop, tell};

/// The commands, in the order of `commands`.
type Commands = More<
    OverModel<Check>,
    More<
        OverModel<IfStratified<Verify>>,
        More<
            OverModel<IfStratified<Bmc>>,
            More<OverModel<IfStratified<Infer>>, More<Demo, Nothing>>,
        >,
    >,
>;

/// What a call answers.
#[derive(Drop)]
pub struct Ending {
    /// The status that the program ends with.
    pub status: u8,
    /// The machine that came to the verdict, where `updr` or `demo` told or tried to tell one.
    pub core: Option<Core>,
}

/// Serves the words of a command line, those behind the program's name.
///
/// The first word names the command: `check`, `verify`, `bmc`, `updr` or `demo`. `clap` reads the
/// words, by a simple command for each. Then the files that they name are read in order, and the
/// command ends by the row of its table that comes over their contents; `demo` makes its model's text
/// from a number. Each row says the status, when it comes, and what is printed on `out` by an answer,
/// or told on `err` by a refusal; the statuses of refusals are those from 10 on.
///
/// `updr` and `demo` leave the machine that came to the verdict, which shows what is printed: its
/// history is a run of the machine as it is written, its frames hold, and the verdict holds. They
/// wait for nothing but their own threads.
pub fn run_plain<R: Threads + Sync, F: Files, O: Sink, E: Sink>(
    rt: &R,
    alloc: Global,
    words: Vec<String>,
    files: &mut F,
    out: &mut O,
    err: &mut E,
) -> Ending
    ensures served { IsServed (map string_bytes words.items) (met
        (outside F.contents F.faults F.refused files.old files.new)
        (sunk O.written O.faults out.old out.new)
        (sunk E.written E.faults err.old err.new)
        result.status
        result.core) }
    ensures search { IsSearch (map string_bytes words.items) (met
        (outside F.contents F.faults F.refused files.old files.new)
        (sunk O.written O.faults out.old out.new)
        (sunk E.written E.faults err.old err.new)
        result.status
        result.core) }
{
    let outcome = answer::<R, Core, Commands, F, O, E>(rt, alloc, &words, files, out, err);
    Ending {
        status: outcome.number,
        core: outcome.left,
    }
}

/// Serves the words of a command line, as [`run_plain`] does, and `updr` with `--free` besides: it
/// searches by workers that run freely, each in a thread of its own, over one machine that they
/// share.
///
/// The history then depends on which worker comes first, and with it the status and the report. But
/// the history is legal and closed in every case, and the machine that is left shows what is printed,
/// as in rounds. The workers pass the gate; they wait for one another, and the call owes no return.
pub fn run<R: Threads + Wait + Sync, F: Files, O: Sink, E: Sink, G: Gate>(
    rt: &R,
    alloc: Global,
    words: Vec<String>,
    files: &mut F,
    out: &mut O,
    err: &mut E,
    gate: &G,
) -> Ending
    ensures served { ¬ AsksFree (map string_bytes words.items)
        → IsServed (map string_bytes words.items) (met
        (outside F.contents F.faults F.refused files.old files.new)
        (sunk O.written O.faults out.old out.new)
        (sunk E.written E.faults err.old err.new)
        result.status
        result.core) }
    ensures search { ¬ AsksFree (map string_bytes words.items)
        → IsSearch (map string_bytes words.items) (met
        (outside F.contents F.faults F.refused files.old files.new)
        (sunk O.written O.faults out.old out.new)
        (sunk E.written E.faults err.old err.new)
        result.status
        result.core) }
    ensures free { AsksFree (map string_bytes words.items)
        → IsFreelyServed (map string_bytes words.items) (met
        (outside F.contents F.faults F.refused files.old files.new)
        (sunk O.written O.faults out.old out.new)
        (sunk E.written E.faults err.old err.new)
        result.status
        result.core) }
{
    match serve_free(rt, alloc, &words, files, gate) {
        Some(end) => {
            let outcome = tell(end, out, err);
            Ending {
                status: outcome.number,
                core: outcome.left,
            }
        }
        None => run_plain(rt, alloc, words, files, out, err),
    }
}

/// Tells that memory was refused while the words of the command line were read. It takes no memory.
pub fn tell_out_of_memory<O: Sink, E: Sink>(out: &mut O, err: &mut E) -> Ending
    ensures told { Tells (out_of_memory {L = CoreView})
        (sunk O.written O.faults out.old out.new)
        (sunk E.written E.faults err.old err.new)
        result.status }
    ensures nothing { result.core ≡ None }
{
    let outcome = tell::<Core, O, E>(Err(Stop::Memory), out, err);
    Ending {
        status: outcome.number,
        core: None,
    }
}
