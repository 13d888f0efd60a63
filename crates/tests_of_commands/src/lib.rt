//! Tests of command lines and of the commands that run no program over a link, and of runs that leave their state and
//! go on from it, over files and links in memory.
#![tactic(auto)]

#[cfg(test)]
mod bounds;
#[cfg(test)]
mod derivations;
#[cfg(test)]
mod evaluations;
#[cfg(test)]
mod examples;
#[cfg(test)]
mod feedings;
#[cfg(test)]
mod outside;
#[cfg(test)]
mod saves;
#[cfg(test)]
mod sources;
#[cfg(test)]
mod words;
