//! The call of a case.
use crate::case::{Case, Content, Device, Named};
use crate::compare::{Outcome, difference};
use crate::content::{Place, Texts};
use pv_base::{MemFiles, MemSink};
use std::alloc::{AllocError, Global};
use std::rt::Files;
use std::sync::Wait;
use std::thread::Threads;
use up_free::FreeGate;
use updr_top::run;

/// A file of a case, with its bytes.
#[derive(Drop)]
struct Loaded {
    name: String,
    bytes: Vec<u8>,
}

/// Runs a case, and answers the first difference from what is wanted.
///
/// An error comes where the case isn't complete, as where a text or a file that it names isn't there.
pub fn run_case<R: Files + Threads + Wait + Sync + AllocGlobal>(
    rt: &R,
    case: &Case,
    texts: &mut Texts,
) -> anyhow::Result<Option<String>> {
    let files = load_all(rt, case.files.as_slice(), texts)?;
    match &case.cut {
        Some(name) => run_prefixes(rt, case, texts, files.as_slice(), name.as_str()),
        None => run_once(rt, case, texts, files.as_slice()),
    }
}

/// The files of a case, with their bytes.
fn load_all<R: Files + AllocGlobal>(
    rt: &R,
    files: &[Named],
    texts: &Texts,
) -> anyhow::Result<Vec<Loaded>> {
    let mut loaded = Vec::new(rt.alloc());
    for file in files {
        load(rt, file, texts, &mut loaded)?;
    }
    Ok(loaded)
}

/// Adds a file with its bytes to those that are loaded.
fn load<R: Files + AllocGlobal>(
    rt: &R,
    file: &Named,
    texts: &Texts,
    loaded: &mut Vec<Loaded>,
) -> anyhow::Result<()> {
    let name = file.name.as_str();
    anyhow::ensure!(
        find(loaded.as_slice(), name).is_none(),
        "two files have the name {name}"
    );
    let bytes = texts.bytes(rt, &file.content, None)?;
    let name = file.name.clone()?;
    loaded.push(Loaded { name, bytes })?;
    Ok(())
}

/// The file of this name.
fn find<'a>(files: &'a [Loaded], name: &str) -> Option<&'a Loaded> {
    files.iter().find(|file| file.name.as_str() == name)
}

/// Runs a case over its files as they are.
fn run_once<R: Files + Threads + Wait + Sync + AllocGlobal>(
    rt: &R,
    case: &Case,
    texts: &mut Texts,
    files: &[Loaded],
) -> anyhow::Result<Option<String>> {
    let outcome = call(rt, case, texts, files, None)?;
    let told = difference(rt, texts, case.answers.as_slice(), None, &outcome)?;
    keep_out(rt, case, texts, outcome.out.bytes())?;
    Ok(told)
}

/// Keeps what was put on `out`, where the case says so.
fn keep_out<R: AllocGlobal>(
    rt: &R,
    case: &Case,
    texts: &mut Texts,
    out: &[u8],
) -> anyhow::Result<()> {
    match &case.kept {
        Some(name) => texts.keep(name.clone()?, out.to_vec(rt.alloc())?),
        None => Ok(()),
    }
}

/// Runs a case for each proper prefix of a file.
fn run_prefixes<R: Files + Threads + Wait + Sync + AllocGlobal>(
    rt: &R,
    case: &Case,
    texts: &Texts,
    files: &[Loaded],
    name: &str,
) -> anyhow::Result<Option<String>> {
    anyhow::ensure!(case.kept.is_none(), "a case for prefixes keeps nothing");
    let Some(cut) = find(files, name) else {
        anyhow::bail!("no file has the name {name}");
    };
    anyhow::ensure!(!cut.bytes.is_empty(), "{name} is empty");
    for len in 0..cut.bytes.len() {
        let prefix = cut.bytes.split_at(len).0;
        if let Some(told) = run_prefix(rt, case, texts, files, name, prefix)? {
            return Ok(Some(format!(in rt.alloc(); "{name} cut to {len} bytes: {told}")?));
        }
    }
    Ok(None)
}

/// Runs a case over its files, one of them cut to a prefix.
fn run_prefix<R: Files + Threads + Wait + Sync + AllocGlobal>(
    rt: &R,
    case: &Case,
    texts: &Texts,
    files: &[Loaded],
    name: &str,
    prefix: &[u8],
) -> anyhow::Result<Option<String>> {
    let outcome = call(rt, case, texts, files, Some((name, prefix)))?;
    let end = Some(Place::end_of(prefix));
    difference(rt, texts, case.answers.as_slice(), end, &outcome)
}

/// Calls the top call over the files of a case, one of them cut to a prefix.
fn call<R: Files + Threads + Wait + Sync + AllocGlobal>(
    rt: &R,
    case: &Case,
    texts: &Texts,
    files: &[Loaded],
    cut: Option<(&str, &[u8])>,
) -> anyhow::Result<Outcome> {
    let alloc = rt.alloc();
    let words = words_of(rt, texts, case.words.as_slice())?;
    let devices = devices_of(alloc, case, files, cut)?;
    Ok(answer(rt, alloc, words, devices))
}

/// What a call meets.
#[derive(Drop)]
struct Devices {
    files: MemFiles,
    out: MemSink,
    err: MemSink,
}

/// Calls the top call.
fn answer<R: Threads + Wait + Sync>(
    rt: &R,
    alloc: Global,
    words: Vec<String>,
    devices: Devices,
) -> Outcome {
    let Devices {
        mut files,
        mut out,
        mut err,
    } = devices;
    let ending = run(rt, alloc, words, &mut files, &mut out, &mut err, &FreeGate);
    Outcome {
        status: ending.status,
        out,
        err,
    }
}

/// The files and sinks of a case.
fn devices_of(
    alloc: Global,
    case: &Case,
    files: &[Loaded],
    cut: Option<(&str, &[u8])>,
) -> Result<Devices, AllocError> {
    let out = sink(alloc, &case.out)?;
    let err = sink(alloc, &case.err)?;
    Ok(Devices {
        files: held(alloc, files, cut, case.failing_reads.as_slice())?,
        out,
        err,
    })
}

/// The files, one of them cut to a prefix, of which these reads fail.
fn held(
    alloc: Global,
    files: &[Loaded],
    cut: Option<(&str, &[u8])>,
    failing: &[u64],
) -> Result<MemFiles, AllocError> {
    let mut held = MemFiles::new(alloc)?;
    hold(&mut held, files, cut, failing)?;
    Ok(held)
}

fn hold(
    held: &mut MemFiles,
    files: &[Loaded],
    cut: Option<(&str, &[u8])>,
    failing: &[u64],
) -> Result<(), AllocError> {
    for file in files {
        held.add(file.name.as_str(), file.bytes.as_slice())?;
    }
    if let Some((name, prefix)) = cut {
        held.add(name, prefix)?;
    }
    for call in failing {
        held.fail_at(*call)?;
    }
    Ok(())
}

/// The words of a case.
fn words_of<R: Files + AllocGlobal>(
    rt: &R,
    texts: &Texts,
    words: &[Content],
) -> anyhow::Result<Vec<String>> {
    let mut all = Vec::new(rt.alloc());
    for word in words {
        let bytes = texts.bytes(rt, word, None)?;
        let Ok(text) = String::from_utf8(bytes) else {
            anyhow::bail!("a word isn't UTF-8");
        };
        all.push(text)?;
    }
    Ok(all)
}

fn sink(alloc: Global, device: &Device) -> Result<MemSink, AllocError> {
    let mut sink = MemSink::new(alloc, device.room as usize)?;
    for put in device.failing.as_slice() {
        sink.fail_at(*put)?;
    }
    Ok(sink)
}
