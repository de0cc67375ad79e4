ghost use Rattle.std.specs.Prelude.{◌≡◌, ◌≤◌};
ghost use Rattle.fo_core.specs.declared.query.TheConstants.{MOST_WEIGHT};

use crate::contexts::Contexts;
use crate::search::answer_within;
use fo_core::{Finder, Finders, Found, Order, Query, System};
use std::alloc::{AllocError, Global};

/// A complete finder for queries whose sort graph has an order. What it built for some queries it
/// keeps for later ones over the same symbols: their ground terms, the instances of their claims, and
/// what the search learnt. No answer depends on what is kept, but where several worlds meet a query,
/// which of them is found may.
///
/// The claims are brought into Skolem form and instantiated by all ground terms, of which there are
/// finitely many since functions lead from lower sorts to higher ones (Yeting Ge and Leonardo de
/// Moura, "Complete Instantiation for Quantified Formulas in Satisfiability Modulo Theories", 2009);
/// a search by clause learning then finds values for the instances, and classes of ground terms that
/// they make equal are the elements of the world.
#[derive(Drop)]
pub struct Engine {
    limit: u64,
    contexts: Contexts,
    ghost light: { limit ≤ MOST_WEIGHT },
}

impl Engine {
    /// A finder with this limit, which is at most [`fo_core::MOST_WEIGHT`]. It takes no memory.
    pub fn new(limit: u64) -> Engine
        requires { limit ≤ MOST_WEIGHT }
        ensures { ⟦<Engine as Finder>⟧.limit result ≡ limit }
    {
        Engine {
            limit,
            contexts: Contexts::new(),
        }
    }
}

impl Finder for Engine {
    ghost limit = { λ e. e.limit };

    fn find(
        &mut self,
        alloc: Global,
        sys: &System,
        order: &Order,
        q: &Query,
    ) -> Result<Found, AllocError> {
        answer_within(alloc, &mut self.contexts, sys, order, q, self.limit)
    }
}

/// What makes engines of one limit, which is at most [`fo_core::MOST_WEIGHT`].
#[derive(Debug, Drop)]
pub struct Engines {
    /// The limit of each engine that it makes.
    pub limit: u64,
    ghost light: { limit ≤ MOST_WEIGHT },
}

impl Finders for Engines {
    type One = Engine;

    ghost limit = { λ e. e.limit };

    fn one(&self, _alloc: Global) -> Result<Engine, AllocError> {
        Ok(Engine::new(self.limit))
    }
}
