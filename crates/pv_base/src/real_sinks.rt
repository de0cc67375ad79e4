ghost use Rattle.std.specs.Prelude.{◌≡◌, ◌≤◌, ℕ, length, take, None, OnOk, OnErr};
ghost use Rattle.std.specs.Io.KnownBytes.{Appends};
ghost use Rattle.pv_base.specs.Written.{faults_after};

use crate::counter::Counter;
use crate::sink::{Failed, Sink};
use std::io::Write;
use std::marker::Model;
use std::rt::{Stderr, Stdout};

// Writes until all bytes went out or a write fails, and answers how many went out. A write that takes
// nothing of a piece that is not empty is a fault.
fn write_on<W: Write>(writer: &mut W, bytes: &[u8]) -> usize
    ensures within { result ≤ length bytes.now }
    ensures bytes { Appends (W.contents writer.old) (W.contents writer.new) (take result bytes.now) }
{
    let mut done = 0;
    'each: while done < bytes.len() {
        match writer.write(&bytes[done..]) {
            Ok(0) | Err(_) => break,
            Ok(count) => done += count,
        }
    }
    done
}

// Writes all bytes, or counts a fault.
fn put_counted<W: Write>(writer: &mut W, faults: &mut Counter, bytes: &[u8]) -> Result<(), Failed>
    ensures whole { OnOk result (Appends (W.contents writer.old) (W.contents writer.new) bytes.now) }
    ensures prefix { OnErr result ((n : ℕ)
        × Appends (W.contents writer.old) (W.contents writer.new) (take n bytes.now)) }
    ensures counted { faults.new ≡ faults_after faults.old result }
    ensures later { faults.old ≤ faults.new }
{
    if write_on(writer, bytes) == bytes.len() {
        return Ok(());
    }
    faults.raise();
    Err(Failed)
}

/// Standard output. It tells no bytes.
#[derive(Drop)]
pub struct RealOut {
    writer: Stdout,
    faults: Counter,
}

impl Model for RealOut {
    ghost use Rattle.std.specs.Prelude.{ℕ};

    ghost Value = { ℕ };

    ghost view = { λ s. s.faults };
}

impl RealOut {
    /// A sink over what `rt.stdout()` gives.
    pub fn new(writer: Stdout) -> RealOut
        ensures { result ≡ 0 }
    {
        RealOut {
            writer,
            faults: Counter::new(),
        }
    }
}

impl Sink for RealOut {
    ghost written = { λ _. None };

    ghost faults = { λ count. count };

    fn put(&mut self, bytes: &[u8]) -> Result<(), Failed> {
        put_counted(&mut self.writer, &mut self.faults, bytes)
    }
}

/// Standard error. It tells no bytes.
#[derive(Drop)]
pub struct RealErr {
    writer: Stderr,
    faults: Counter,
}

impl Model for RealErr {
    ghost use Rattle.std.specs.Prelude.{ℕ};

    ghost Value = { ℕ };

    ghost view = { λ s. s.faults };
}

impl RealErr {
    /// A sink over what `rt.stderr()` gives.
    pub fn new(writer: Stderr) -> RealErr
        ensures { result ≡ 0 }
    {
        RealErr {
            writer,
            faults: Counter::new(),
        }
    }
}

impl Sink for RealErr {
    ghost written = { λ _. None };

    ghost faults = { λ count. count };

    fn put(&mut self, bytes: &[u8]) -> Result<(), Failed> {
        put_counted(&mut self.writer, &mut self.faults, bytes)
    }
}
