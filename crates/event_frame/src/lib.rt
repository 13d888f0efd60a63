//! Frames: events as bytes in two versions, and a reader of them from pieces of any size.
#![tactic(auto)]

mod fault;
mod front;
pub mod laws;
mod reader;
mod version;
mod write;

pub use fault::FrameFault;
pub use reader::Reader;
pub use version::Version;
pub use write::{encode, encode_in, encode2};
