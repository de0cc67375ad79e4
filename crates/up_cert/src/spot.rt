/// What a spot of a verdict asks for.
#[derive(Clone, Copy, Debug, PartialEq, Eq)]
pub enum What {
    /// That a copy of a run, or a link's state and the last copy of its origin, is a state.
    State,
    /// That copy 0 of a run is initial, or that no initial state meets a clause's cube.
    Init,
    /// That a copy of a run steps to the next one, that the origin of a link is a step from the
    /// state of the link before, or that no step leads into a clause's cube.
    Step,
    /// That the last state of a run or of a chain violates a safety, or that no state violates one
    /// that meets no clause's cube.
    Safety,
    /// That the origin of the first link is one initial state.
    Start,
    /// That the map of a link embeds its state in the last copy of its origin.
    Map,
    /// That a frame is left by a step into the cube of a clause of exactly its level.
    Leave,
    /// That no violating run has at most so many steps.
    Run,
}

/// One of the things that make up a claim.
#[derive(Clone, Copy, Debug, PartialEq, Eq)]
pub struct Spot {
    pub what: What,
    /// Which copy, clause, link or frame it is about, counted from 0, but for frames, which are
    /// counted from 1. It is 0 where there is only one such spot.
    pub number: u32,
}
