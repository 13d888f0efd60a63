//! Historical values: what whole streams were, as values that expressions reckon with.
#![tactic(auto)]

mod copying;
mod evaluating;
mod expr;
mod fault;
mod hist_type;
mod history;
mod judging;
pub mod laws;
mod reckoning;
mod scope;
mod type_scope;
mod typing;
mod wholes;

pub use copying::{copy_expr, copy_type, copy_value};
pub use evaluating::value;
pub use expr::{Expr, Op};
pub use fault::HistFault;
pub use hist_type::HTy;
pub use history::Value;
pub use judging::{has_type, past};
pub use reckoning::quotient;
pub use typing::type_of;
pub use wholes::{full, value_of};
