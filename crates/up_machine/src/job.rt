/// A job that a worker does outside the machine, by queries.
#[derive(Debug, Clone, Copy, PartialEq, Eq)]
pub enum Job {
    /// To block the obligation of this number, or to find what comes before it.
    Work(u32),
    /// To look for a state of the frontier's frame that violates a safety.
    Look,
    /// To try whether the clause of this number holds one frame further on.
    Push(u32),
    /// To look for a violating run as long as the chain that ends in this rooted obligation.
    Trace(u32),
}

/// How a run ends without a job.
#[derive(Debug, Clone, Copy, PartialEq, Eq)]
pub enum Short {
    /// No live clause has exactly this level, so those above it are an invariant.
    Safe(u32),
    /// The frontier has come to the limit on frames.
    Bounded,
    /// The productive events have come to the limit on steps.
    Spent,
}

/// What a worker who asks is told to do.
#[derive(Debug, Clone, Copy, PartialEq, Eq)]
pub enum Task {
    /// To take this job.
    Job(Job),
    /// To open the next frame.
    Advance,
    /// To end the run so.
    Finish(Short),
    /// To ask again later.
    Idle,
    /// Nothing: the run has ended.
    Ended,
}
