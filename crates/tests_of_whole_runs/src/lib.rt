//! Tests of whole runs: programs run event by event, what each command line writes and answers over a shelf, a link and
//! a sink in memory, and the tour of README.
#![tactic(auto)]

#[cfg(test)]
mod outside;
#[cfg(test)]
mod runs;
#[cfg(test)]
mod tour;
#[cfg(test)]
mod whole_runs;
