//! Where bytes come from and go to: sources and sinks that count their faults, over memory and over the standard streams.
#![tactic(auto)]

pub mod counts;
pub mod laws;
pub mod memory;
pub mod out_of_memory;
pub mod reading;
pub mod sink;
pub mod source;
pub mod standard;
pub mod sure;
pub mod writing;

pub use memory::{MemSink, MemSource};
pub use out_of_memory::OutOfMemory;
pub use reading::{ReadStop, read_all};
pub use sink::Sink;
pub use source::{Failed, Source};
pub use standard::{StdSink, StdSource};
pub use sure::{SureSink, SureSource};
pub use writing::{WriteFault, write_all_of};
