//! What a value shows to be kept in a turnstile.
ghost use Rattle.std.specs.Prelude.{◌≡◌, ℕ, ◌^◌, ◌<◌, List, length};

/// A value with a base that stays the same and a history of entries that grows.
///
/// Each entry carries the number of the caller that entered it. `Base` and `Entry` serve contracts
/// alone: at run time no value of them is asked for.
pub trait KeptValue: Send + Drop {
    type Base;

    type Entry;

    /// What no visit changes.
    ghost base: { Self → Self.Base };

    /// What was entered, oldest first.
    ghost history: { Self → List Self.Entry };

    /// The number that an entry carries.
    ghost number: { Self.Entry → ℕ };

    /// How many entries the history has.
    fn entries(&self) -> u64
        ensures count { result ≡ length (history self.now) }
        ensures fits { length (history self.now) < 2 ^ 64 };
}
