//! Tests of historical expressions, of core terms and of states: each call on small values, with ample
//! memory.
#![tactic(auto)]

#[cfg(test)]
mod histories;
#[cfg(test)]
mod postfix;
#[cfg(test)]
mod states;
#[cfg(test)]
mod terms;
