//! `updr`: judges, verifies, unrolls and searches models of distributed protocols.
#![tactic(auto)]

use pv_base::{RealErr, RealFiles, RealOut};
use std::alloc::AllocError;
use std::env;
use std::io::ErrorKind;
use std::process::ExitCode;
use std::thread::Builder;
use up_free::FreeGate;
use updr_top::{run, tell_out_of_memory};

/// How many bytes of stack the program has. Formulas are walked recursively, and a clause of a
/// report of the greatest length may bind more than 100,000 variables, each a level of its formula.
const STACK_BYTES: usize = 1 << 30;

/// The words after the program's name, or none where they are no text.
fn words_of(rt: &HostRuntime) -> Result<Vec<String>, AllocError> {
    let mut arguments = match env::args(rt) {
        Ok(arguments) => arguments,
        Err(error) => return match error.kind() {
            ErrorKind::OutOfMemory => Err(AllocError),
            _ => Ok(Vec::new(rt.alloc())),
        },
    };
    let _name = arguments.next();
    arguments.collect(rt.alloc())
}

/// Serves the words on a thread with much stack; where none can be started, on this one.
fn main(rt: HostRuntime) -> ExitCode {
    let serve = move || -> u8 {
        let mut files = RealFiles::new(&rt);
        let mut out = RealOut::new(rt.stdout());
        let mut err = RealErr::new(rt.stderr());
        let ending = match words_of(&rt) {
            Ok(words) => {
                let alloc = rt.alloc();
                run(&rt, alloc, words, &mut files, &mut out, &mut err, &FreeGate)
            }
            Err(AllocError) => tell_out_of_memory(&mut out, &mut err),
        };
        ending.status
    };
    let thread = Builder::new().stack_size(STACK_BYTES);
    ExitCode::from(match thread.spawn(&rt, serve) {
        Ok(started) => started.join(&rt),
        Err(_) => serve(),
    })
}
