//! Embeddings of one state in another: whether given maps are one, the search for the first,
//! and what passes along them.
#![tactic(auto)]

mod agree;
mod embedding;
mod laws;
mod map;
mod search;

pub use embedding::is_embedding;
pub use laws::universal_sentences_pass_to_embedded_states;
pub use map::Map;
pub use search::find_embedding;
