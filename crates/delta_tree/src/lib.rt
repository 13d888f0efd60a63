//! The syntax tree of a program: what the parser makes of a text, and what the printer, the meaning
//! and the checker start from.
#![tactic(auto)]

mod contexts;
mod copying;
mod expressions;
mod placing;
mod programs;
mod types;

pub use contexts::Ctx;
pub use copying::{copy_hist, copy_type_exp};
pub use expressions::{Exp, Form, Head, HeadForm, Hist};
pub use placing::{expression, head, historical, written_type};
pub use programs::{Alias, Decl, Fun, Program};
pub use types::{TyExp, TyForm};
