ghost use Rattle.std.specs.Prelude.{map, string_bytes};
ghost use Rattle.updr_told.specs.Telling.{sunk};
ghost use Rattle.updr_table.specs.Outside.{outside};
ghost use Rattle.updr_table.specs.Table.{Answers, met};

use crate::listing::Table;
use pv_base::{Files, Sink};
use std::alloc::Global;
use std::thread::Threads;
use updr_told::{Outcome, tell};

/// Serves the words behind the program's name by these commands, and tells the end to `out` and
/// `err`.
pub fn answer<R: Threads + Sync, L: Drop, T: Table<L>, F: Files, O: Sink, E: Sink>(
    rt: &R,
    alloc: Global,
    words: &[String],
    files: &mut F,
    out: &mut O,
    err: &mut E,
) -> Outcome<L>
    ensures { Answers T.commands (map string_bytes words.now) (met
        (outside F.contents F.faults F.refused files.old files.new)
        (sunk O.written O.faults out.old out.new)
        (sunk E.written E.faults err.old err.new)
        result.number
        result.left) }
{
    tell(T::serve(rt, alloc, words, files), out, err)
}
