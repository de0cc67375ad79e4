//! What is wanted of a call beside what it did.
use crate::case::{Answer, Expected, Extent};
use crate::content::{Place, Texts};
use pv_base::MemSink;
use std::alloc::{AllocError, Global};
use std::rt::Files;

/// The most bytes that are shown of a line.
const SHOWN: usize = 60;

/// What a call did.
#[derive(Drop)]
pub struct Outcome {
    pub status: u8,
    pub out: MemSink,
    pub err: MemSink,
}

/// Nothing where one of the answers was given, else a difference from one with its status, if there is
/// one, or from another.
pub fn difference<R: Files + AllocGlobal>(
    rt: &R,
    texts: &Texts,
    answers: &[Answer],
    end: Option<Place>,
    outcome: &Outcome,
) -> anyhow::Result<Option<String>> {
    let mut told = None;
    for answer in answers {
        let Some(difference) = differs(rt, texts, answer, end, outcome)? else {
            return Ok(None);
        };
        if told.is_none() || answer.status == Some(outcome.status) {
            told = Some(difference);
        }
    }
    Ok(told)
}

/// The first difference of a call from an answer.
fn differs<R: Files + AllocGlobal>(
    rt: &R,
    texts: &Texts,
    answer: &Answer,
    end: Option<Place>,
    outcome: &Outcome,
) -> anyhow::Result<Option<String>> {
    let Some(status) = answer.status else {
        anyhow::bail!("no status is wanted");
    };
    if status != outcome.status {
        let got = outcome.status;
        return Ok(Some(format!(in rt.alloc(); "status {status} wanted, got {got}")?));
    }
    let out = sink_differs(rt, texts, &answer.out, end, "out", outcome.out.bytes())?;
    if out.is_some() {
        return Ok(out);
    }
    sink_differs(rt, texts, &answer.err, end, "err", outcome.err.bytes())
}

/// The first difference of what is on a sink from what is wanted there.
fn sink_differs<R: Files + AllocGlobal>(
    rt: &R,
    texts: &Texts,
    expected: &Option<Expected>,
    end: Option<Place>,
    sink: &str,
    got: &[u8],
) -> anyhow::Result<Option<String>> {
    let (extent, wanted) = match expected {
        Some(expected) => (expected.extent, texts.bytes(rt, &expected.content, end)?),
        None => (Extent::Whole, Vec::new(rt.alloc())),
    };
    let got = match extent {
        Extent::Whole => got,
        Extent::Beginning => got.split_at(wanted.len().min(got.len())).0,
        Extent::Nothing => return Ok(None),
    };
    bytes_differ(rt, sink, wanted.as_slice(), got)
}

/// The first place at which bytes differ from those that are wanted, and the two lines there.
fn bytes_differ<R: AllocGlobal>(
    rt: &R,
    sink: &str,
    wanted: &[u8],
    got: &[u8],
) -> anyhow::Result<Option<String>> {
    if wanted == got {
        return Ok(None);
    }
    let same = wanted.iter().zip(got.iter()).take_while(|(w, g)| w == g);
    let at = same.count();
    let Place { line, column } = Place::end_of(wanted.split_at(at.min(wanted.len())).0);
    let wanted = shown(rt, line_at(wanted, at, column))?;
    let got = shown(rt, line_at(got, at, column))?;
    let text = format!(in rt.alloc();
        "{sink} differs at {line}:{column}, wanted {wanted}, got {got}"
    )?;
    Ok(Some(text))
}

/// The line in which a place stands, with its line feed, where the place has this column.
fn line_at(bytes: &[u8], at: usize, column: usize) -> &[u8] {
    let start = at.saturating_sub(column.saturating_sub(1));
    let rest = bytes.split_at(start.min(bytes.len())).1;
    match rest.iter().position(|byte| *byte == b'\n') {
        Some(end) => rest.split_at(end + 1).0,
        None => rest,
    }
}

/// A line as it is shown, in quotes: shortened, and bytes that aren't printed by their numbers.
fn shown<R: AllocGlobal>(rt: &R, line: &[u8]) -> Result<String, AllocError> {
    let mut text = String::new(rt.alloc());
    show(rt.alloc(), line, &mut text)?;
    Ok(text)
}

fn show(alloc: Global, line: &[u8], text: &mut String) -> Result<(), AllocError> {
    text.push_str("\"")?;
    for byte in line.iter().take(SHOWN) {
        show_byte(alloc, *byte, text)?;
    }
    text.push_str(if line.len() > SHOWN { "\".." } else { "\"" })
}

fn show_byte(alloc: Global, byte: u8, text: &mut String) -> Result<(), AllocError> {
    match byte {
        b'\n' => text.push_str("\\n"),
        b' '..=b'~' => text.push(char::from(byte)),
        _ => text.push_str(format!(in alloc; "\\x{byte:02x}")?.as_str()),
    }
}
