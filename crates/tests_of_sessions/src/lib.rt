//! Tests of sessions: what each event is answered, what closes a session, and what it holds; of the compiled machine in
//! one, calls at one level, a name for another one, and what it keeps on the load, on one long session and on many.
#![tactic(auto)]

#[cfg(test)]
mod answers;
#[cfg(test)]
mod growth;
#[cfg(test)]
mod sessions;
#[cfg(test)]
mod sizes;
#[cfg(test)]
mod states;
#[cfg(test)]
mod talking;
#[cfg(test)]
mod talks;
