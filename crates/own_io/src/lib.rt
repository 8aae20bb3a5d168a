//! What a program reaches outside itself: folders of named contents, and sinks of bytes.
#![tactic(auto)]

pub mod count_sink;
pub mod disk_folder;
pub mod folder;
pub mod memory_folder;
pub mod memory_sink;
mod plan;
pub mod sink;
pub mod std_sink;
#[cfg(test)]
mod tests;

pub use count_sink::CountSink;
pub use disk_folder::DiskFolder;
pub use folder::{Folder, LoadError, SaveError};
pub use memory_folder::MemoryFolder;
pub use memory_sink::MemorySink;
pub use sink::{SendFailed, Sink, SinkFailed, send};
pub use std_sink::StdSink;
