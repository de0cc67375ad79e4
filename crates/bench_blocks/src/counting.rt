use fo_core::{Finder, Found, Order, Query, System};
use std::alloc::{AllocError, Global};

/// A finder that counts the queries that it is asked.
#[derive(Drop)]
pub struct Counting<F> {
    finder: F,
    asked: u64,
}

impl<F> Counting<F> {
    /// It was asked nothing yet.
    pub fn new(finder: F) -> Counting<F> {
        Counting { finder, asked: 0 }
    }

    /// How many queries it was asked.
    pub fn asked(&self) -> u64 {
        self.asked
    }
}

impl<F: Finder> Finder for Counting<F> {
    ghost limit = { λ c. F.limit c.finder };

    fn find(
        &mut self,
        alloc: Global,
        sys: &System,
        order: &Order,
        q: &Query,
    ) -> Result<Found, AllocError> {
        self.asked = self.asked.saturating_add(1);
        self.finder.find(alloc, sys, order, q)
    }

    fn used(&self, member: u32) -> Option<bool> {
        self.finder.used(member)
    }
}
