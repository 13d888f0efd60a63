//! Derivations in bunched rules: what it means that a bunch of names derives a term at a type.
#![tactic(auto)]

pub mod laws;
