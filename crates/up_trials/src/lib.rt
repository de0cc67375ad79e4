//! Tests of library calls that no case of the top call shows. They stand here and not in the crates
//! of the calls, since a crate with tests is proved twice. This crate has nothing but tests.
#![tactic(auto)]

#[cfg(test)]
mod blocking;
#[cfg(test)]
mod clause_learning;
#[cfg(test)]
mod clauses;
#[cfg(test)]
mod diagrams;
#[cfg(test)]
mod embeddings;
#[cfg(test)]
mod files_and_sinks;
#[cfg(test)]
mod finding;
#[cfg(test)]
mod fixtures;
#[cfg(test)]
mod formulas;
#[cfg(test)]
mod grabs;
#[cfg(test)]
mod ground_terms;
#[cfg(test)]
mod grounded_forms;
#[cfg(test)]
mod grounding;
#[cfg(test)]
mod least_worlds;
#[cfg(test)]
mod machine_events;
#[cfg(test)]
mod orders;
#[cfg(test)]
mod plain_search;
#[cfg(test)]
mod propagation;
#[cfg(test)]
mod pushing;
#[cfg(test)]
mod rounds;
#[cfg(test)]
mod skolem_forms;
#[cfg(test)]
mod structures;
#[cfg(test)]
mod unrollings;
#[cfg(test)]
mod world_texts;
