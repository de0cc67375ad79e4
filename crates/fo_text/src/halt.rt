ghost use Rattle.std.specs.Prelude.{◌≡◌};
ghost use Rattle.fo_text.specs.declared.halt.Halt.TheVariants.{Memory};

use std::alloc::AllocError;

/// Why reading ends before the text does.
#[derive(Debug, Drop)]
pub enum Halt {
    /// There wasn't enough memory.
    Memory,
    /// No text goes on where so many bytes are left.
    Fault(usize),
}

impl From<AllocError> for Halt {
    ghost from_gives = { λ _ e. e ≡ Memory };

    fn from(_e: AllocError) -> Halt {
        Halt::Memory
    }
}
