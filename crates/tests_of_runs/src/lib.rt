//! Tests of whole runs, with ample memory: what is left where bytes are hostile or what is outside fails, the names
//! that a note can have for status 3 to 5 (examples of `docs/REFUSALS.md`), and the load.
#![tactic(auto)]

#[cfg(test)]
mod failing_ends;
#[cfg(test)]
mod hostile_input;
#[cfg(test)]
mod hostile_text;
#[cfg(test)]
mod load_lines;
#[cfg(test)]
mod load_program;
#[cfg(test)]
mod long_load;
#[cfg(test)]
mod outside;
#[cfg(test)]
mod program_run;
#[cfg(test)]
mod refusals;
#[cfg(test)]
mod tables;
