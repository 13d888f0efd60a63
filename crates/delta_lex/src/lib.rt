//! The tokens of a program's text: each a name, a word, a number or a sign, with its place.
#![tactic(auto)]

mod character;
mod fault;
pub mod laws;
mod numeral;
mod piece;
mod scan;
mod token;

pub use fault::LexFault;
pub use numeral::number;
pub use scan::tokens;
pub use token::{Kind, Token};
