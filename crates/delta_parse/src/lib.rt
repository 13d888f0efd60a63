//! The grammar of programs, stated apart from the code, and readers of the parts of a program's tokens
//! that are proved against it.
#![tactic(auto)]

mod bindings;
mod checked_reader;
mod context_reader;
mod contexts_done;
mod cursor;
mod declaration_reader;
mod expression_reader;
mod fault;
mod forms_done;
mod histories_done;
mod history_reader;
pub mod laws;
mod making;
mod marks;
mod numbering;
mod parsing;
mod pattern_reader;
mod plain;
mod signs;
mod terminal;
mod type_reader;
mod types_done;
mod whole_reader;

pub use bindings::{NameFault, first_name_fault};
pub use context_reader::read_entry;
pub use cursor::Halt;
pub use fault::ParseFault;
pub use history_reader::{read_histories, read_history};
pub use marks::first_deep;
pub use numbering::plain_tokens;
pub use parsing::parse;
pub use pattern_reader::{Pattern, read_pattern};
pub use plain::Plain;
pub use terminal::Terminal;
pub use type_reader::read_type;
