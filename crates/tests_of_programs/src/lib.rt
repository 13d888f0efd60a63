//! Tests of programs, with ample memory: written types, elaboration, typing, the one-shot meaning, which texts are accepted,
//! which texts are derivations of them, their bounds, and kept states: in bytes, as states of the compiled machine, and read
//! for a program.
#![tactic(auto)]

#[cfg(test)]
mod acceptance;
#[cfg(test)]
mod bounds;
#[cfg(test)]
mod derivations;
#[cfg(test)]
mod elaboration;
#[cfg(test)]
mod evaluation;
#[cfg(test)]
mod kept_bytes;
#[cfg(test)]
mod kept_contexts;
#[cfg(test)]
mod kept_deep;
#[cfg(test)]
mod kept_loads;
#[cfg(test)]
mod kept_saved;
#[cfg(test)]
mod kept_woken;
#[cfg(test)]
mod nesting;
#[cfg(test)]
mod programs;
#[cfg(test)]
mod types;
#[cfg(test)]
mod typing;
