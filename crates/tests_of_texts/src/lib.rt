//! Tests of tokens, of the syntax tree, of the parser and of the printer, and of the first faults of
//! texts: tables of texts, with ample memory.
#![tactic(auto)]

#[cfg(test)]
mod faults;
#[cfg(test)]
mod lexing;
#[cfg(test)]
mod parsing;
#[cfg(test)]
mod printing;
#[cfg(test)]
mod trees;
