//! Reads a report and writes it again, for bench/. Standard input is the text of a report over the
//! program's own signature. It prints how many bytes were read and whether the same were written, or
//! the place of the first fault.
#![tactic(auto)]

use fo_core::{Names, Seq, Sig, Symbol, Text};
use std::alloc::{AllocError, Global};
use std::io::{BufRead, BufReader};
use up_report::{ReportFault, read, write};

/// The bytes of a report are fewer.
const MOST_BYTES: usize = 1 << 32;

/// A mutable relation with an argument of the one sort.
fn relation(alloc: Global) -> Result<Symbol, AllocError> {
    let mut args = Seq::new(alloc);
    args.push(0)?;
    Ok(Symbol {
        relation: true,
        mutable: true,
        args,
        result: 0,
    })
}

/// Two relations over one sort.
fn signature(alloc: Global) -> Result<Sig, AllocError> {
    let mut symbols = Seq::new(alloc);
    symbols.push(relation(alloc)?)?;
    symbols.push(relation(alloc)?)?;
    Ok(Sig { sorts: 1, symbols })
}

/// A name.
fn name(alloc: Global, text: &str) -> Result<Text, AllocError> {
    Ok(Text::from_string(String::from_str(alloc, text)?))
}

/// The names of the sort and of the relations.
fn names(alloc: Global) -> Result<Names, AllocError> {
    let mut sorts = Seq::new(alloc);
    sorts.push(name(alloc, "node")?)?;
    let mut symbols = Seq::new(alloc);
    symbols.push(name(alloc, "held")?)?;
    symbols.push(name(alloc, "waits")?)?;
    Ok(Names {
        sorts,
        symbols,
        steps: Seq::new(alloc),
        definitions: Seq::new(alloc),
    })
}

/// Reads a report, writes it again, and tells what came out.
fn told(alloc: Global, sig: &Sig, names: &Names, bytes: &[u8]) -> anyhow::Result<String> {
    anyhow::ensure!(sig.is_well_sorted(), "no signature");
    anyhow::ensure!(names.fit(sig, 0), "no names");
    anyhow::ensure!(bytes.len() < MOST_BYTES, "too many bytes");
    let report = match read(alloc, sig, names, bytes) {
        Ok(report) => report,
        Err(ReportFault::Memory) => anyhow::bail!("out of memory"),
        Err(ReportFault::Bad(place)) => {
            return Ok(format!(in alloc; "no report goes on at byte {place}")?);
        }
    };
    let mut written = Vec::new(alloc);
    write(alloc, sig, names, &report, &mut written)?;
    let same = written.as_slice() == bytes;
    Ok(format!(in alloc; "{} bytes, the same written: {same}", bytes.len())?)
}

fn main(rt: HostRuntime) -> anyhow::Result<()> {
    let alloc = rt.alloc();
    let mut bytes = Vec::new(alloc);
    for line in BufReader::new(alloc, rt.reader())?.lines(alloc) {
        let line = line?;
        bytes.extend_from_slice(line.as_bytes())?;
        bytes.push(b'\n')?;
    }
    let sig = signature(alloc)?;
    let names = names(alloc)?;
    println!(rt; "{}", told(alloc, &sig, &names, &bytes)?)?;
    Ok(())
}
