//! Where bytes come from and where they go: in memory, in files and on the standard output. Each source and sink keeps
//! a count of its faults, so that a call above can tie every failure that it answers to the object that caused it.
#![tactic(auto)]

mod calls;
mod file_sink;
mod file_source;
mod memory_sink;
mod memory_source;
mod sink;
mod source;
mod stdout_sink;
mod whole;

pub use file_sink::FileSink;
pub use file_source::FileSource;
pub use memory_sink::MemorySink;
pub use memory_source::MemorySource;
pub use sink::Sink;
pub use source::{Failed, Source};
pub use stdout_sink::StdoutSink;
pub use whole::put;

#[cfg(test)]
mod tests;
