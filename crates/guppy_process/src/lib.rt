//! What a program reads from and writes to, why it gives no answer, and how it ends.
//!
//! The modules, from the bottom up:
//!
//! - `device`: what bytes are read from and written to;
//! - `fault`: why there is no answer, as far as every program says it;
//! - `transfer`: reading to the end, and writing all;
//! - `process`: what a process is given, and how it ends.
#![tactic(auto)]

pub mod device;
pub mod fault;
pub mod process;
pub mod transfer;

pub use device::{DeviceFault, IoSink, IoSource, Sink, Source};
pub use fault::{BuildFault, Fault, ProgramFault};
pub use process::{Ending, arguments};
