//! What machines are made of: what comes on names, scopes, the parts of types and prefixes, parameters, levels,
//! what is held, what is awaited of the input, what a machine keeps beside its state, and results of parts.
#![tactic(auto)]

pub mod awaited;
pub mod boxes;
pub mod entry;
pub mod held;
pub mod holding;
pub mod levels;
pub mod params;
pub mod parts;
pub mod place;
pub mod results;
pub mod scope;
pub mod stars;
pub mod stop;
