use thiserror::Error;

/// Why a text is no report.
#[derive(Debug, Drop, Error)]
pub enum ReportFault {
    /// The first byte, counted from 0, at which no report goes on. Where the bytes end before the
    /// text does it is their number.
    #[error("no report goes on here")]
    Bad(u32),
    /// There wasn't enough memory.
    #[error("out of memory")]
    Memory,
}
