//! Tests of free workers, which threads that wait need: so they stand in a crate of their own. This crate
//! has nothing but tests.
#![tactic(auto)]

#[cfg(test)]
mod free;
