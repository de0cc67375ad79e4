use crate::spot::Spot;

/// What came of judging a verdict.
#[derive(Clone, Copy, Debug, PartialEq, Eq)]
pub enum Judged {
    /// What the verdict says of the system is so.
    Holds,
    /// It isn't: the first spot that fails.
    Wrong(Spot),
    /// A query of the first spot that doesn't pass is heavier than the finder's limit: its weight,
    /// cut at the greatest number of 64 bits.
    Over(u64),
    /// The verdict says nothing of the system: that steps were spent, or that a query was above the
    /// limit of the search that told it.
    Nothing,
}
