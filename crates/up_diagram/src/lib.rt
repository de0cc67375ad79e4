//! Flat literals and cubes, the diagram of a state, and when states meet cubes and cubes cover others.
#![tactic(auto)]

mod claims;
mod covering;
mod crowding;
mod cube;
mod describing;
mod laws;
mod leaving_out;
mod meeting;
mod picks;

pub use claims::{claim, clause};
pub use covering::{covers, covers_in};
pub use cube::{Cube, Flat};
pub use describing::{diagram, has_few_elements};
pub use laws::{
    a_world_meets_its_own_diagram, covers_are_met, diagram_is_met_where_embedded, less_is_met,
    sentences_are_well_sorted, sentences_say_what_is_met,
};
pub use leaving_out::without;
pub use meeting::meets;
pub use picks::Picks;
