//! The least of the worlds that meet a query: what it is, and by which queries a search finds it.
#![tactic(auto)]

mod laws;

pub use laws::{
    asked_queries_are_determined, asked_queries_are_those_of_the_least_world, least_where_settled,
    one_least_world, some_world_is_least,
};
