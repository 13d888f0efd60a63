//! Tests of tables, with ample memory: files read, words mixed by schedules, and tables written.
#![tactic(auto)]

#[cfg(test)]
mod mixing;
#[cfg(test)]
mod reading;
