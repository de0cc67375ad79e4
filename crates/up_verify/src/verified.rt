use fo_core::World;

/// How a property fails.
#[derive(Debug, Drop)]
pub struct Failure {
    /// The transition that doesn't keep the property, or none where it fails at the start.
    pub step: Option<u32>,
    /// The property: a safety or, after them, an invariant.
    pub property: u32,
    /// One initial state without the property; or a state with all properties, and one without this
    /// one to which the transition leads. It is the least such world, unless a query of the search
    /// for that is above the finder's limit.
    pub world: World,
}

/// What a verification found.
#[derive(Debug, Drop)]
pub enum Verified {
    /// The safeties and invariants together are inductive.
    Inductive,
    /// The first case that fails.
    Fails(Failure),
    /// A query is heavier than the finder's limit: its weight, cut at the greatest number of 64
    /// bits.
    Over(u64),
}
