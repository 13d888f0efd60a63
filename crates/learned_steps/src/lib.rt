//! Steps that were learned, made again with other numbers and at other depths: what a machine keeps after one.
#![tactic(auto)]

pub mod laws;
