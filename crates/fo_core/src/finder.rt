ghost use Rattle.std.specs.Prelude.{◌≡◌, ℕ, IfOk};
ghost use Rattle.fo_core.specs.Finds.{CanSearch, IsAnswer};

use crate::order::Order;
use crate::query::Query;
use crate::system::System;
use crate::world::World;
use std::alloc::{AllocError, Global};

/// What a search for a world found.
#[derive(Debug, Drop)]
pub enum Found {
    /// A world that meets the query.
    Model(World),
    /// No world over any finite nonempty domains meets the query.
    Nothing,
    /// The query is heavier than the finder's limit: its weight, cut at the greatest number of 64
    /// bits.
    Over(u64),
}

impl Found {
    /// A copy.
    pub fn copy(&self, alloc: Global) -> Result<Found, AllocError>
        ensures { IfOk result (λ f. f ≡ self.now) }
    {
        Ok(match self {
            Found::Model(world) => Found::Model(world.copy(alloc)?),
            Found::Nothing => Found::Nothing,
            Found::Over(weight) => Found::Over(*weight),
        })
    }
}

/// A complete search for worlds that meet queries: finite model finding for stratified many-sorted
/// formulas.
pub trait Finder {
    /// The weight above which it answers `Over`, and no query of at most that weight is answered so.
    ghost limit: { Self → ℕ };

    /// Looks for a world that meets the query. The query has to be well-sorted for the system's
    /// signature, and the order has to rise along each edge of the sort graph of the signature and
    /// the query's claims.
    fn find(
        &mut self,
        alloc: Global,
        sys: &System,
        order: &Order,
        q: &Query,
    ) -> Result<Found, AllocError>
        requires search { CanSearch sys.now order.now q.now }
        ensures found { IfOk result (IsAnswer sys.now.sig q.now (limit self.old)) }
        ensures limit { limit self.new ≡ limit self.old };

    /// After an answer that no world meets the query: whether the search used this member of the
    /// conjunction in the query's last claim, where that is a conjunction below existentials. `None`
    /// says that the finder doesn't know. It is a hint, and no clause rests on it: a caller has to
    /// ask what it concludes from it.
    fn used(&self, _member: u32) -> Option<bool> {
        None
    }
}

/// What makes finders of one limit, for threads that each want one of their own.
pub trait Finders: Sync {
    /// The finders that it makes.
    type One: Finder + Drop + Send;

    /// The limit of each finder that it makes.
    ghost limit: { Self → ℕ };

    /// Makes a finder.
    fn one(&self, alloc: Global) -> Result<Self::One, AllocError>
        ensures { IfOk result (λ f. Self.One.limit f ≡ limit self.now) };
}
