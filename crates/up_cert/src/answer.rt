ghost use Rattle.std.specs.Prelude.{◌≡◌};

use crate::judged::Judged;
use crate::spot::{Spot, What};

/// What came of trying one thing that a verdict asks for.
#[derive(Clone, Copy)]
pub enum Answer {
    /// It is so.
    Passes,
    /// It isn't.
    Fails,
    /// A query is heavier than the finder's limit: its weight.
    Over(u64),
}

/// Why things that are asked for by number aren't tried to the end.
#[derive(Clone, Copy)]
pub enum Halt {
    /// That of this number isn't so.
    Fails(u32),
    /// A query of the next one is heavier than the finder's limit: its weight.
    Over(u64),
}
