//! Sessions of a Forth system: lines that a reader gives, and replies that a writer takes.
#![tactic(auto)]

pub use byte_reader::ByteReader;
pub use over_store::{run_over, run_over_traced, run_over_until};
pub use run_end::RunEnd;
pub use run_fault::RunFault;
pub use session::{run, run_traced, run_until};
pub use strictness::Strictness;
pub use tracing::{Tracer, Traces, Untraced};

mod byte_reader;
pub mod cut;
pub mod laws;
mod over_store;
mod run_end;
mod run_fault;
mod session;
pub mod streams;
mod strictness;
mod trace_text;
mod tracing;
