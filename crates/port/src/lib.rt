//! What a program reads and writes: a shelf of files, a link with two ends, and a sink for notes.
#![tactic(auto)]

mod calm;
mod fault;
mod link;
mod memory;
mod pieces;
mod plan;
mod shelf;
mod sink;
mod stream;

pub use calm::{CalmLink, CalmShelf, CalmSink};
pub use fault::IoFault;
pub use link::{Bytes, Link, Move};
pub use memory::{MemLink, MemShelf, MemSink};
pub use shelf::Shelf;
pub use sink::Sink;
pub use stream::{DirShelf, StdLink, StdSink, StreamLink, StreamSink};
