ghost use Rattle.std.specs.Prelude.{◌≡◌, ◌≤◌, ◌<◌, [], codes, length, OnOk, OnErr};
ghost use Rattle.updr_told.specs.Ends.{line_of};
ghost use Rattle.updr_told.specs.Stops.{end_of_call};
ghost use Rattle.updr_told.specs.declared.status.Status.TheVariants.{OutOfMemory};
ghost use Rattle.updr_told.specs.Telling.{sunk, Tells, TellsAs, TakesAll, TakesPart};

use crate::status::Status;
use crate::stop::Stop;
use crate::told::Told;
use pv_base::{Failed, Sink};

/// What a call came to, once its end was told.
#[derive(Debug, Drop)]
pub struct Outcome<L> {
    /// The number that the program ends with.
    pub number: u8,
    /// What the end left behind.
    pub left: Option<L>,
}

/// The length of the first line, its line feed counted.
fn line_length(text: &[u8]) -> usize
    requires { 0 < length text.now }
    ensures some { 0 < result }
    ensures within { result ≤ length text.now }
{
    match text.iter().position(|byte| *byte == b'\n') {
        Some(at) => at + 1,
        None => text.len(),
    }
}

/// Puts a text, each line by one put. After a put that failed nothing more is put.
fn put_lines<O: Sink>(text: &[u8], out: &mut O) -> Result<(), Failed>
    ensures whole { OnOk result (TakesAll (sunk O.written O.faults out.old out.new) text.now) }
    ensures part { OnErr result (TakesPart (sunk O.written O.faults out.old out.new) text.now) }
{
    let mut rest = text;
    'each: while !rest.is_empty() {
        let (line, after) = rest.split_at(line_length(rest));
        out.put(line)?;
        rest = after;
    }
    Ok(())
}

/// Puts a text and a line, and answers the number of the status, or that of a write fault.
fn put_all<O: Sink, E: Sink>(
    status: Status,
    text: &[u8],
    line: &[u8],
    out: &mut O,
    err: &mut E,
) -> u8
    ensures { TellsAs status text.now line.now
        (sunk O.written O.faults out.old out.new)
        (sunk E.written E.faults err.old err.new)
        result }
{
    if put_lines(text, out).is_err() {
        let _ = err.put(b"updr: cannot write\n");
        return Status::WriteFault.number();
    }
    if !line.is_empty() && err.put(line).is_err() {
        return Status::WriteFault.number();
    }
    status.number()
}

/// Puts the line for want of memory. It takes none.
fn put_out_of_memory<O: Sink, E: Sink>(out: &mut O, err: &mut E) -> u8
    ensures { TellsAs OutOfMemory [] (line_of (codes "out of memory"))
        (sunk O.written O.faults out.old out.new)
        (sunk E.written E.faults err.old err.new)
        result }
{
    put_all(Status::OutOfMemory, &[], b"updr: out of memory\n", out, err)
}

/// Tells the end of a call: each line of its text is one put to `out`, its own line one to `err`.
///
/// After a put that failed nothing more is put to `out`, and the status is that of a write fault.
/// Want of memory is told without taking any.
pub fn tell<L: Drop, O: Sink, E: Sink>(
    end: Result<Told<L>, Stop<L>>,
    out: &mut O,
    err: &mut E,
) -> Outcome<L>
    ensures told { Tells (end_of_call end)
        (sunk O.written O.faults out.old out.new)
        (sunk E.written E.faults err.old err.new)
        result.number }
    ensures left { result.left ≡ (end_of_call end).left }
{
    let told = match end {
        Ok(told) | Err(Stop::Refused(told)) => told,
        Err(Stop::Memory) => {
            return Outcome {
                number: put_out_of_memory(out, err),
                left: None,
            };
        }
    };
    let (status, text, line, left) = told.into_parts();
    Outcome {
        number: put_all(status, &text, &line, out, err),
        left,
    }
}
