//! Where bytes come from and go to: sources and sinks, in memory and at the system's edge.
#![tactic(auto)]

mod emitting;
mod mem_sink;
mod mem_source;
mod sink;
mod slurping;
mod source;
mod std_sink;
mod std_source;

pub use emitting::{WriteFault, emit};
pub use mem_sink::MemSink;
pub use mem_source::MemSource;
pub use sink::Sink;
pub use slurping::{SlurpError, slurp};
pub use source::{Failed, Source};
pub use std_sink::StdSink;
pub use std_source::StdSource;
