//! The bytes of contents.
use crate::case::{Content, Named, Source};
use std::alloc::Global;
use std::collections::BTreeMap;
use std::fs;
use std::rt::Files;

/// The most bytes of a content.
const MOST: usize = 16_000_000;

/// A line and a column, from 1.
#[derive(Clone, Copy)]
pub struct Place {
    pub line: usize,
    pub column: usize,
}

impl Place {
    /// The place at the end of these bytes.
    pub fn end_of(bytes: &[u8]) -> Place {
        let feeds = bytes.iter().filter(|byte| **byte == b'\n').count();
        let tail = bytes.split(|byte| *byte == b'\n').last();
        Place {
            line: feeds.saturating_add(1),
            column: tail.map_or(0, |tail| tail.len()).saturating_add(1),
        }
    }
}

/// What the escapes that are numbers stand for.
#[derive(Clone, Copy)]
struct Numbers {
    repetition: u32,
    end: Option<Place>,
}

/// Texts by name.
#[derive(Drop)]
pub struct Texts {
    texts: BTreeMap<String, Vec<u8>>,
}

impl Texts {
    /// No texts.
    pub fn new(alloc: Global) -> Texts {
        Texts {
            texts: BTreeMap::new(alloc),
        }
    }

    /// Keeps bytes under a name that no text has yet.
    pub fn keep(&mut self, name: String, bytes: Vec<u8>) -> anyhow::Result<()> {
        anyhow::ensure!(
            !self.texts.contains_key(&name),
            "another text has the name {name}"
        );
        let _ = self.texts.insert(name, bytes)?;
        Ok(())
    }

    /// Keeps a text.
    pub fn define<R: Files + AllocGlobal>(&mut self, rt: &R, text: Named) -> anyhow::Result<()> {
        let bytes = self.bytes(rt, &text.content, None)?;
        self.keep(text.name, bytes)
    }

    /// The bytes of a content, where a file may be cut at a place.
    pub fn bytes<R: Files + AllocGlobal>(
        &self,
        rt: &R,
        content: &Content,
        end: Option<Place>,
    ) -> anyhow::Result<Vec<u8>> {
        let mut bytes = Vec::new(rt.alloc());
        for piece in content.as_slice() {
            for repetition in 0..piece.times {
                self.add(rt, &piece.source, Numbers { repetition, end }, &mut bytes)?;
                anyhow::ensure!(bytes.len() <= MOST, "more than {MOST} bytes");
            }
        }
        Ok(bytes)
    }

    /// Appends what a piece adds once.
    fn add<R: Files + AllocGlobal>(
        &self,
        rt: &R,
        source: &Source,
        numbers: Numbers,
        into: &mut Vec<u8>,
    ) -> anyhow::Result<()> {
        match source {
            Source::Written(text) => add_text(text.as_bytes(), numbers, into)?,
            Source::Text(name) => match self.texts.get(name) {
                Some(bytes) => into.extend_from_slice(bytes.as_slice())?,
                None => anyhow::bail!("no text has the name {name}"),
            },
            Source::File(path) => match fs::read(rt, path.as_str()) {
                Ok(bytes) => into.extend_from_slice(bytes.as_slice())?,
                Err(_) => anyhow::bail!("cannot read {path}"),
            },
        }
        Ok(())
    }
}

/// Appends a text with its escapes replaced.
fn add_text(text: &[u8], numbers: Numbers, into: &mut Vec<u8>) -> anyhow::Result<()> {
    let mut rest = text;
    for _ in 0..text.len() {
        rest = match rest {
            [] => break,
            [b'\\', tail @ ..] => add_escape(tail, numbers, into)?,
            [byte, tail @ ..] => {
                into.push(*byte)?;
                tail
            }
        };
    }
    Ok(())
}

/// Appends what an escape stands for, and answers what stands after it.
fn add_escape<'a>(
    rest: &'a [u8],
    numbers: Numbers,
    into: &mut Vec<u8>,
) -> anyhow::Result<&'a [u8]> {
    match rest {
        [b'\\', tail @ ..] => {
            into.push(b'\\')?;
            Ok(tail)
        }
        [b'n', tail @ ..] => {
            into.push(b'\n')?;
            Ok(tail)
        }
        [b'x', high, low, tail @ ..] => {
            into.push(byte_of(*high, *low)?)?;
            Ok(tail)
        }
        [name, tail @ ..] => {
            add_number(number_of(*name, numbers)?, into)?;
            Ok(tail)
        }
        [] => anyhow::bail!("a backslash at the end"),
    }
}

fn byte_of(high: u8, low: u8) -> anyhow::Result<u8> {
    match (char::from(high).to_digit(16), char::from(low).to_digit(16)) {
        (Some(high), Some(low)) => Ok(u8::try_from(high * 16 + low)?),
        _ => anyhow::bail!("two hexadecimal digits are wanted after \\x"),
    }
}

fn number_of(name: u8, numbers: Numbers) -> anyhow::Result<usize> {
    match (name, numbers.end) {
        (b'#', _) => Ok(numbers.repetition as usize),
        (b'L', Some(end)) => Ok(end.line),
        (b'C', Some(end)) => Ok(end.column),
        (b'L' | b'C', None) => anyhow::bail!("no file is cut here"),
        _ => anyhow::bail!("an unknown escape"),
    }
}

fn add_number(number: usize, into: &mut Vec<u8>) -> anyhow::Result<()> {
    let text = format!(in *into.allocator(); "{number}")?;
    into.extend_from_slice(text.as_bytes())?;
    Ok(())
}
