use thiserror::Error;

/// Why no world was read.
#[derive(Debug, Drop, Error)]
pub enum TextFault {
    /// The first byte, counted from 0, at which no world's text goes on. Where the bytes end before
    /// the text does it is their number.
    #[error("no world goes on here")]
    Bad(u32),
    /// There wasn't enough memory.
    #[error("out of memory")]
    Memory,
}
