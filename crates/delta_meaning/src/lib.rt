//! What programs mean, in one look at the whole input, and the core that a program elaborates to.
//! Both are definitions in `specs/`, over the syntax trees of programs.
#![tactic(auto)]

mod answers;
mod calls;
mod evaluated;
mod evaluation;
mod functions;
pub mod laws;
mod looking;
mod parts;
mod pause;
mod programs;
mod refusal;
mod rounds;
mod same;
mod scope;
mod splitting;
mod types;

pub use evaluated::Evaluated;
pub use programs::{eval, run};
pub use refusal::EvalRefusal;
pub use types::{params_meant, past_meant, type_meant};
