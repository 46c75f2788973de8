//! The programs `guppy-run` and `guppy-cargo`, over any source and sink.
//!
//! What the arguments ask is `guppy_command`'s, what is read and written `guppy_process`'s, and what differs between
//! programs and how answers are printed `guppy_print`'s; their types are passed on. The modules above that, from the
//! bottom up:
//!
//! - `files`: the files of the system;
//! - `answer`: what a command answers of a package graph; `publish`: of the order in which members can be
//!   published; `why`: of how one package depends on another; `builds`: of what Cargo builds; `verify`: what is told of
//!   a graph that isn't verified;
//! - `members`: the members of the workspace in that;
//! - `program`: a program;
//! - `process`: a program with its fault told and its status.
#![tactic(auto)]

pub mod answer;
mod builds;
pub mod files;
pub mod members;
pub mod process;
pub mod program;
mod publish;
mod verify;
mod why;

pub use files::IoFiles;
pub use guppy_command::{Asked, Command, FileFault, Files, Kinds, NoFiles, Options, OutputFormat};
pub use guppy_print::{Answer, Format, LinkEnds, Step};
pub use guppy_process::{
    DeviceFault, Ending, Fault, IoSink, IoSource, ProgramFault, Sink, Source, arguments,
};
pub use process::run_process;
pub use program::{answer_bytes, run_with};
