//! Cases from text.
use crate::case::{Answer, Case, Content, Device, Expected, Extent, Item, Named, Piece, Source};
use std::alloc::{AllocError, Global};

/// Bytes that a sink has room for, where no line says how many.
const ROOM: u32 = 10_000;

/// What the content that is being read belongs to.
#[derive(Drop)]
enum Open {
    Nothing,
    Text(String),
    Word,
    File(String),
    Out(Extent),
    Err(Extent),
}

/// The cases of a file that were read so far, the case that has begun, and the content that has begun.
#[derive(Drop)]
struct Reader {
    alloc: Global,
    items: Vec<Item>,
    case: Option<Case>,
    open: Open,
    content: Content,
}

/// The cases and texts of a file, and a fault for each of its lines that can't be read.
pub fn read_items(alloc: Global, path: &str, text: &str) -> anyhow::Result<Vec<Item>> {
    let mut reader = Reader {
        alloc,
        items: Vec::new(alloc),
        case: None,
        open: Open::Nothing,
        content: Vec::new(alloc),
    };
    reader.take_all(path, text)?;
    Ok(reader.items)
}

/// A fault of a line.
fn fault(alloc: Global, path: &str, line: usize, error: &anyhow::Error) -> anyhow::Result<Item> {
    let place = format!(in alloc; "{path}:{line}")?;
    let fault = format!(in alloc; "{error}")?;
    Ok(Item::Fault(place, fault))
}

impl Reader {
    /// Takes the lines of a file.
    fn take_all(&mut self, path: &str, text: &str) -> anyhow::Result<()> {
        for (index, line) in text.split('\n').enumerate() {
            self.take_or_tell(path, index.saturating_add(1), line)?;
        }
        self.end_case()
    }

    /// Takes a line, or tells why it can't be read.
    fn take_or_tell(&mut self, path: &str, number: usize, line: &str) -> anyhow::Result<()> {
        if let Err(error) = self.take(line) {
            let fault = fault(self.alloc, path, number, &error)?;
            self.items.push(fault)?;
        }
        Ok(())
    }

    /// Takes a line.
    fn take(&mut self, line: &str) -> anyhow::Result<()> {
        if line.is_empty() || line.starts_with('#') {
            return Ok(());
        }
        if let Some(piece) = piece(self.alloc, line)? {
            return self.add(piece);
        }
        self.end_content()?;
        let (word, rest) = line.split_once(' ').unwrap_or((line, ""));
        match word {
            "text" => self.begin_text(rest),
            "case" => self.begin_case(rest),
            _ => self.heading(word, rest),
        }
    }

    /// Adds a piece to the content that has begun.
    fn add(&mut self, piece: Piece) -> anyhow::Result<()> {
        if let Open::Nothing = self.open {
            anyhow::bail!("no content has begun");
        }
        self.content.push(piece)?;
        Ok(())
    }

    /// Ends the content that has begun, and gives it to what it belongs to.
    fn end_content(&mut self) -> anyhow::Result<()> {
        let content = std::mem::replace(&mut self.content, Vec::new(self.alloc));
        let open = std::mem::replace(&mut self.open, Open::Nothing);
        match (open, &mut self.case) {
            (Open::Nothing, _) => Ok(()),
            (Open::Text(name), _) => Ok(self.items.push(Item::Text(Named { name, content }))?),
            (open, Some(case)) => give(case, open, content),
            _ => anyhow::bail!("no case has begun"),
        }
    }

    /// Ends the case that has begun, with its last content.
    fn end_case(&mut self) -> anyhow::Result<()> {
        self.end_content()?;
        if let Some(case) = self.case.take() {
            self.items.push(Item::Case(case))?;
        }
        Ok(())
    }

    fn begin_text(&mut self, name: &str) -> anyhow::Result<()> {
        self.end_case()?;
        anyhow::ensure!(!name.is_empty(), "a text without a name");
        self.open = Open::Text(String::from_str(self.alloc, name)?);
        Ok(())
    }

    fn begin_case(&mut self, name: &str) -> anyhow::Result<()> {
        self.end_case()?;
        anyhow::ensure!(!name.is_empty(), "a case without a name");
        self.case = Some(empty_case(self.alloc, name)?);
        Ok(())
    }

    /// Takes a line of the case that has begun, which is no line of a content.
    fn heading(&mut self, word: &str, rest: &str) -> anyhow::Result<()> {
        match &mut self.case {
            Some(case) => {
                self.open = heading(self.alloc, case, word, rest)?;
                Ok(())
            }
            None => anyhow::bail!("no case has begun"),
        }
    }
}

fn device(alloc: Global) -> Device {
    Device {
        room: ROOM,
        failing: Vec::new(alloc),
    }
}

fn empty_case(alloc: Global, name: &str) -> Result<Case, AllocError> {
    Ok(Case {
        name: String::from_str(alloc, name)?,
        words: Vec::new(alloc),
        files: Vec::new(alloc),
        cut: None,
        failing_reads: Vec::new(alloc),
        out: device(alloc),
        err: device(alloc),
        answers: vec![in alloc; empty_answer()]?,
        kept: None,
    })
}

fn empty_answer() -> Answer {
    Answer {
        status: None,
        out: None,
        err: None,
    }
}

/// Gives a content to the part of a case that it belongs to.
fn give(case: &mut Case, open: Open, content: Content) -> anyhow::Result<()> {
    match (open, case.answers.last_mut()) {
        (Open::Word, _) => case.words.push(content)?,
        (Open::File(name), _) => case.files.push(Named { name, content })?,
        (Open::Out(extent), Some(answer)) => answer.out = Some(expected(extent, content)?),
        (Open::Err(extent), Some(answer)) => answer.err = Some(expected(extent, content)?),
        _ => anyhow::bail!("no content has begun"),
    }
    Ok(())
}

/// What is wanted on a sink, where the content fits the extent.
fn expected(extent: Extent, content: Content) -> anyhow::Result<Expected> {
    match extent {
        Extent::Beginning if content.is_empty() => anyhow::bail!("a beginning without a content"),
        Extent::Nothing if !content.is_empty() => anyhow::bail!("a content after any"),
        _ => Ok(Expected { extent, content }),
    }
}

/// What a line adds to a content, or nothing where it is no line of a content.
fn piece(alloc: Global, line: &str) -> anyhow::Result<Option<Piece>> {
    let Some(rest) = line.strip_prefix("times ") else {
        let source = source(alloc, line)?;
        return Ok(source.map(|source| Piece { times: 1, source }));
    };
    let Some((number, line)) = rest.split_once(' ') else {
        anyhow::bail!("a number and a line of a content are wanted after times");
    };
    let times = number.parse::<u32>()?;
    match source(alloc, line)? {
        Some(source) => Ok(Some(Piece { times, source })),
        None => anyhow::bail!("no line of a content stands after times"),
    }
}

fn source(alloc: Global, line: &str) -> Result<Option<Source>, AllocError> {
    if let Some(text) = line.strip_prefix('|') {
        return Ok(Some(Source::Written(format!(in alloc; "{text}\\n")?)));
    }
    if let Some(text) = line.strip_prefix(':') {
        return Ok(Some(Source::Written(String::from_str(alloc, text)?)));
    }
    if let Some(name) = line.strip_prefix('=') {
        return Ok(Some(Source::Text(String::from_str(alloc, name)?)));
    }
    if let Some(path) = line.strip_prefix('<') {
        return Ok(Some(Source::File(String::from_str(alloc, path)?)));
    }
    Ok(None)
}

/// Takes a line of a case that is no line of a content, and answers which content it begins.
fn heading(alloc: Global, case: &mut Case, word: &str, rest: &str) -> anyhow::Result<Open> {
    match word {
        "words" => add_words(alloc, case, rest)?,
        "word" => {
            anyhow::ensure!(rest.is_empty(), "word stands alone in its line");
            return Ok(Open::Word);
        }
        "file" => {
            anyhow::ensure!(!rest.is_empty(), "a file without a name");
            return Ok(Open::File(String::from_str(alloc, rest)?));
        }
        "prefixes" => cut(alloc, case, rest)?,
        "fail" => fail(case, rest)?,
        "room" => make_room(case, rest)?,
        "keep" => keep(alloc, case, rest)?,
        _ => return answer_heading(case, word, rest),
    }
    Ok(Open::Nothing)
}

fn add_words(alloc: Global, case: &mut Case, words: &str) -> anyhow::Result<()> {
    for word in words.split_whitespace() {
        let source = Source::Written(String::from_str(alloc, word)?);
        case.words
            .push(vec![in alloc; Piece { times: 1, source }]?)?;
    }
    Ok(())
}

fn cut(alloc: Global, case: &mut Case, rest: &str) -> anyhow::Result<()> {
    match rest.strip_prefix("of ") {
        Some(name) if case.cut.is_none() => case.cut = Some(String::from_str(alloc, name)?),
        _ => anyhow::bail!("prefixes of one file are tried"),
    }
    Ok(())
}

fn keep(alloc: Global, case: &mut Case, name: &str) -> anyhow::Result<()> {
    anyhow::ensure!(
        !name.is_empty() && case.kept.is_none(),
        "one name stands after keep"
    );
    case.kept = Some(String::from_str(alloc, name)?);
    Ok(())
}

fn fail(case: &mut Case, rest: &str) -> anyhow::Result<()> {
    let (device, number) = rest.split_once(' ').unwrap_or((rest, ""));
    let call = number.parse::<u64>()?;
    match device {
        "read" => case.failing_reads.push(call)?,
        "out" => case.out.failing.push(call)?,
        "err" => case.err.failing.push(call)?,
        _ => anyhow::bail!("read, out or err is wanted after fail"),
    }
    Ok(())
}

fn make_room(case: &mut Case, rest: &str) -> anyhow::Result<()> {
    let (device, number) = rest.split_once(' ').unwrap_or((rest, ""));
    let room = number.parse::<u32>()?;
    match device {
        "out" => case.out.room = room,
        "err" => case.err.room = room,
        _ => anyhow::bail!("out or err is wanted after room"),
    }
    Ok(())
}

/// Takes a line about the answer that is wanted, and answers which content it begins.
fn answer_heading(case: &mut Case, word: &str, rest: &str) -> anyhow::Result<Open> {
    if word == "or" {
        return begin_answer(case, rest);
    }
    match (word, case.answers.last_mut()) {
        ("status", Some(answer)) => want_status(answer, rest),
        ("out", Some(answer)) => want_out(answer, rest),
        ("err", Some(answer)) => want_err(answer, rest),
        _ => anyhow::bail!("an unknown line"),
    }
}

fn begin_answer(case: &mut Case, rest: &str) -> anyhow::Result<Open> {
    anyhow::ensure!(rest.is_empty(), "or stands alone in its line");
    case.answers.push(empty_answer())?;
    Ok(Open::Nothing)
}

fn want_status(answer: &mut Answer, rest: &str) -> anyhow::Result<Open> {
    anyhow::ensure!(answer.status.is_none(), "a second status");
    answer.status = Some(rest.parse::<u8>()?);
    Ok(Open::Nothing)
}

fn want_out(answer: &Answer, rest: &str) -> anyhow::Result<Open> {
    anyhow::ensure!(answer.out.is_none(), "a second out");
    Ok(Open::Out(extent(rest)?))
}

fn want_err(answer: &Answer, rest: &str) -> anyhow::Result<Open> {
    anyhow::ensure!(answer.err.is_none(), "a second err");
    Ok(Open::Err(extent(rest)?))
}

fn extent(rest: &str) -> anyhow::Result<Extent> {
    match rest {
        "" => Ok(Extent::Whole),
        "begins" => Ok(Extent::Beginning),
        "any" => Ok(Extent::Nothing),
        _ => anyhow::bail!("only begins or any may stand here"),
    }
}
