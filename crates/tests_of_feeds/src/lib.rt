//! Tests of the crates that feeds pass through: types, prefixes, contexts, events, frames, lines, the
//! ends of the outside and how commands end, with ample memory.
#![tactic(auto)]

#[cfg(test)]
mod contexts;
#[cfg(test)]
mod conversions;
#[cfg(test)]
mod events;
#[cfg(test)]
mod frames;
#[cfg(test)]
mod lines;
#[cfg(test)]
mod notes;
#[cfg(test)]
mod outside;
#[cfg(test)]
mod prefixes;
#[cfg(test)]
mod types;
