//! The canonical text of a program and of a type: the one text that tells the tree, with one line for
//! each declaration, one rule of spaces, and brackets only where they are needed.
#![tactic(auto)]

mod chunk;
mod context_rows;
mod expression_rows;
mod function_rows;
mod hist_rows;
pub mod laws;
mod layout;
mod place;
mod printing;
mod type_rows;

pub use printing::{print, show};
