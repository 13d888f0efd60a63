//! The commands, each one call: the text of a program is checked, printed, evaluated or run, its run is saved and
//! resumed, its derivation is checked, its bound is told, tables are fed to it; and the load is run. Beside them, a
//! program run on a word that is known as a whole, over any machine.
#![tactic(auto)]

mod bounding;
mod checking;
mod derivation;
mod evaluating;
mod fault;
mod feeding;
mod gathering;
mod generating;
mod keeping;
mod keeping_again;
pub mod laws;
mod printing;
mod reading;
mod refusing;
mod resuming;
mod running;
mod saving;
mod source;
mod tables_run;
mod telling;
mod word_run;

pub use bounding::bound_source;
pub use checking::check_source;
pub use derivation::derive_source;
pub use evaluating::eval_source;
pub use fault::WordFault;
pub use feeding::feed_source;
pub use generating::gen_load;
pub use printing::print_source;
pub use running::run_source;
pub use saving::{save_source, save_source_from};
pub use source::resume_source;
pub use word_run::run_word;
