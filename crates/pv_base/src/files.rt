ghost use Rattle.std.specs.Prelude.{◌≡◌, ◌≤◌, ℕ, List, Option, [], IsErrOf};
ghost use Rattle.pv_base.specs.declared.files.ReadFault.TheVariants.{Memory};
ghost use Rattle.pv_base.specs.Counts.{Rose};
ghost use Rattle.pv_base.specs.Reading.{IsRead};
ghost use Rattle.pv_base.specs.Refusals.{Refusal, refused_by};

use std::alloc::{AllocError, Global};
use thiserror::Error;

/// The most bytes that a file may have.
pub const LIMIT: usize = 1_048_576;

/// Why a file was not read.
#[derive(Debug, Drop, Error)]
pub enum ReadFault {
    /// The file is not there, or could not be read to its end.
    #[error("cannot read")]
    Failed,

    /// The file has more than [`LIMIT`] bytes.
    #[error("longer than 1048576 bytes")]
    TooLong,

    /// There was no memory for the bytes or for the name.
    #[error("out of memory")]
    Memory,
}

impl From<AllocError> for ReadFault {
    ghost from_gives = { λ _ fault. fault ≡ Memory };

    fn from(_: AllocError) -> ReadFault {
        ReadFault::Memory
    }
}

/// Contents under names.
pub trait Files {
    /// The content under a name, where it is told.
    ghost contents: { Self → List ℕ → Option (List ℕ) };

    /// How many reads failed.
    ghost faults: { Self → ℕ };

    /// The name and the fault of the last read, where it was refused as failed or as too long.
    ghost refused: { Self → Option Refusal };

    /// Reads the content under a name into `into`, which is empty.
    ///
    /// `Ok` leaves the content in `into`, at most [`LIMIT`] bytes. No read changes a content, nor lets the count
    /// of faults fall.
    ///
    /// # Errors
    ///
    /// - `Failed` comes only where the count of faults rose in this call, and leaves `into` empty.
    /// - `TooLong` comes exactly where the content is longer than [`LIMIT`], and leaves its first `LIMIT + 1` bytes
    ///   in `into`.
    /// - `Memory` leaves `into` empty.
    fn read(&mut self, alloc: Global, name: &str, into: &mut Vec<u8>) -> Result<(), ReadFault>
        requires { into.old.items ≡ [] }
        ensures unchanged { (n : List ℕ) → contents self.new n ≡ contents self.old n }
        ensures read { IsRead (contents self.old name.now) result into.new.items }

        // The count, and what is kept of this read.
        ensures later { faults self.old ≤ faults self.new }
        ensures failed { IsErrOf result ReadFault.Failed → Rose (faults self.old) (faults self.new) }
        ensures refused { refused self.new ≡ refused_by name.now result };
}
