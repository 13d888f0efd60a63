//! States of a running program over its templates: code that isn't reached stands in templates that are shared and are
//! made of terms once, and a state is put into a simpler form in place.
#![tactic(auto)]

mod code;
mod compiling;
mod counting;
mod join;
mod live;
mod marks;
mod names_used;
mod put_in;
mod rows;
mod simplify;
mod terms;
mod without_marks;

pub use code::{Code, Op, Operands, Template};
pub use compiling::op;
pub use counting::{count_states, held_events};
pub use join::all_plain;
pub use live::{Arguments, Later, Live, Past};
pub use names_used::{arguments_use, op_uses, uses};
pub use put_in::{put_name, put_pair, rename};
pub use simplify::settle;
pub use terms::node;
pub use without_marks::plain;
