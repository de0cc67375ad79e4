ghost use Rattle.std.specs.Prelude.{◌↔◌, IsTrue};
ghost use Rattle.up_machine.specs.Ranges.{AreInRange};

use fo_core::MOST_WEIGHT;

/// The most workers that share a machine.
pub const MOST_WORKERS: u32 = 16;

/// The most seats of a round.
pub const MOST_SEATS: u32 = 64;

/// The highest frontier that a run may be limited to.
pub const MOST_FRAMES: u32 = 64;

/// The most productive events that a run may be limited to.
pub const MOST_STEPS: u32 = 100_000;

/// With so many unfinished seed obligations no further one is looked for.
pub const MOST_SEEDS: u32 = 64;

/// What a run may spend.
#[derive(Debug, Clone, Copy, PartialEq, Eq)]
pub struct Limits {
    /// How many workers share the machine where they run freely.
    pub workers: u32,
    /// How many seats a round has.
    pub batch: u32,
    /// How far the frontier may go.
    pub frames: u32,
    /// How many productive events there may be.
    pub steps: u32,
    /// How heavy a query may be.
    pub weight: u64,
}

impl Limits {
    /// Whether each limit is at least 1 and at most the greatest of its kind.
    pub fn are_in_range(&self) -> bool
        ensures { IsTrue result ↔ AreInRange self.now }
    {
        let workers = 1 <= self.workers && self.workers <= MOST_WORKERS;
        let batch = 1 <= self.batch && self.batch <= MOST_SEATS;
        let frames = 1 <= self.frames && self.frames <= MOST_FRAMES;
        let steps = 1 <= self.steps && self.steps <= MOST_STEPS;
        let weight = 1 <= self.weight && self.weight <= MOST_WEIGHT;
        workers && batch && frames && steps && weight
    }
}
