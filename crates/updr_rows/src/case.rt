//! Cases as data.

/// Where the bytes of a piece come from.
#[derive(Drop)]
pub enum Source {
    /// The text that is written in the line, with its escapes.
    Written(String),
    /// The text of this name.
    Text(String),
    /// The file at this path.
    File(String),
}

/// What a line of a content adds.
#[derive(Drop)]
pub struct Piece {
    pub times: u32,
    pub source: Source,
}

pub type Content = Vec<Piece>;

/// A content under a name: a text, or a file of a case.
#[derive(Drop)]
pub struct Named {
    pub name: String,
    pub content: Content,
}

/// How much of what is put on a sink is told by a content.
#[derive(Clone, Copy)]
pub enum Extent {
    Whole,
    Beginning,
    Nothing,
}

/// What is wanted on a sink.
#[derive(Drop)]
pub struct Expected {
    pub extent: Extent,
    pub content: Content,
}

/// An answer that is wanted. Where a sink isn't named, nothing is wanted on it.
#[derive(Drop)]
pub struct Answer {
    pub status: Option<u8>,
    pub out: Option<Expected>,
    pub err: Option<Expected>,
}

/// A sink: how many bytes it has room for, and which of its puts fail.
#[derive(Drop)]
pub struct Device {
    pub room: u32,
    pub failing: Vec<u64>,
}

/// The words and files of a call, and the answers of which one is wanted.
#[derive(Drop)]
pub struct Case {
    pub name: String,
    pub words: Vec<Content>,
    pub files: Vec<Named>,
    /// The file of which each proper prefix is tried.
    pub cut: Option<String>,
    pub failing_reads: Vec<u64>,
    pub out: Device,
    pub err: Device,
    pub answers: Vec<Answer>,
    /// The name of the text under which the bytes on `out` are kept.
    pub kept: Option<String>,
}

/// What a file of cases holds.
#[derive(Drop)]
pub enum Item {
    Text(Named),
    Case(Case),
    /// The place of a line that can't be read, and why.
    Fault(String, String),
}
