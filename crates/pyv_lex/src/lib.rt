//! Tokens of the mypyvy language.
#![tactic(auto)]

mod front;
mod lex;
mod token;
mod words;

pub use lex::tokens;
pub use token::{Kind, LexFault, Token};
