/// What a query of property-directed reachability is asked for.
#[derive(Debug, Clone, Copy, PartialEq, Eq)]
pub enum Kind {
    /// For a state of the frontier that violates a safety.
    Seed,
    /// For an initial state in a cube.
    Root,
    /// For a step from the frame below into a cube.
    Before,
    /// Whether a cube with fewer literals is still blocked.
    Block,
    /// Whether a clause holds one frame further on.
    Push,
    /// For a violating run of so many steps.
    Unroll,
}
