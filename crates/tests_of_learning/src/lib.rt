//! Tests of what a step asks, and of steps that are learned, with ample memory.
#![tactic(auto)]

#[cfg(test)]
mod again;
#[cfg(test)]
mod asked;
#[cfg(test)]
mod asks;
#[cfg(test)]
mod learned;
