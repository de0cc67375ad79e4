/// Why an event can't be made now.
#[derive(Debug, Clone, Copy, PartialEq, Eq)]
pub enum NotNow {
    /// The clause of this number refutes the state of the obligation that is worked on.
    Own(u32),
    /// The clause of this number refutes what was found.
    Refuted(u32),
    /// The run has ended.
    Closed,
    /// The productive events have come to the limit on steps.
    Spent,
}

/// A clause that may be retired, and a clause that covers it.
#[derive(Debug, Clone, Copy, PartialEq, Eq)]
pub struct Cover {
    /// The number of the clause that may go.
    pub gone: u32,
    /// The number of its cover.
    pub by: u32,
}
