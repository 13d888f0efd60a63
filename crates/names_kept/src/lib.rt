//! What rewritings of states do to names: a simpler state of a tidy one is tidy, so names stay apart.
#![tactic(auto)]

pub mod laws;
