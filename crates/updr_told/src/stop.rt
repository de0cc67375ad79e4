use crate::told::Told;
use std::alloc::AllocError;

/// Why a call stops before its last stage.
#[derive(Drop)]
pub enum Stop<L> {
    /// A stage refuses what it is given: the end that says so.
    Refused(Told<L>),
    /// Memory was refused.
    Memory,
}

impl<L> From<AllocError> for Stop<L> {
    ghost use Rattle.std.specs.Prelude.{◌≡◌};
    ghost use Rattle.updr_told.specs.declared.stop.Stop.TheVariants.{Memory};

    ghost from_gives = { λ _ s. s ≡ Memory };

    fn from(_: AllocError) -> Stop<L> {
        Stop::Memory
    }
}
