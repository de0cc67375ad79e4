use pv_base::Span;
use thiserror::Error;

/// Why tokens have no tree. Places are of bytes, from 0.
#[derive(Debug, Drop, Error)]
pub enum ParseFault {
    /// No tree goes on by a token: its first byte, or the length of the text at its end.
    #[error("no model goes on here")]
    Syntax(u32),
    /// The same, where the token belongs to a part of the language that is left out: its bytes.
    #[error("a part of the language that is not supported")]
    Unsupported(Span),
    /// A tree goes on by a token only under larger limits: its first byte.
    #[error("an expression is nested too deep")]
    TooDeep(u32),
    /// There wasn't enough memory.
    #[error("out of memory")]
    Memory,
}
