//! The text of a world: written, and read exactly. `literal`, `number` and `choice` read the parts of
//! which such texts are made, for readers of longer texts in which worlds stand.
#![tactic(auto)]

mod choosing;
mod fault;
mod halt;
mod lines;
mod parts;
mod read;
mod reading;
mod writing;

pub use choosing::{choice, choice_after};
pub use fault::TextFault;
pub use halt::Halt;
pub use parts::{literal, number};
pub use read::{world_of_copies, world_read};
pub use writing::world_text;
