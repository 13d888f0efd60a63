//! Frames as lines of text, and lines of text as frames, from pieces of any size.
#![tactic(auto)]

mod fault;
mod frame_writer;
pub mod laws;
mod line_reader;
mod line_writer;
mod pull;
mod serve;
mod writing;

pub use delta_end::{End, InputFault};
pub use fault::LineRefusal;
pub use line_reader::{LineReader, ReadStop};
pub use line_writer::write_lines;
pub use writing::write_frames;
