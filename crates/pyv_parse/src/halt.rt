ghost use Rattle.std.specs.Prelude.{◌≡◌};
ghost use Rattle.pyv_parse.specs.declared.halt.Halt.TheVariants.{Memory};

use pyv_grammar::Stuck;
use std::alloc::AllocError;

/// Why reading ends without a tree.
#[derive(Debug, Drop)]
pub enum Halt {
    /// There wasn't enough memory.
    Memory,
    /// No tree goes on by a token.
    Stuck(Stuck),
}

impl From<AllocError> for Halt {
    ghost from_gives = { λ _ e. e ≡ Memory };

    fn from(_e: AllocError) -> Halt {
        Halt::Memory
    }
}
