//! What the programs `guppy-run` and `guppy-cargo` are asked, before there is a graph.
//!
//! The modules, from the bottom up:
//!
//! - `table`: what options are called;
//! - `grammar`: arguments, read from front to end: options with their values, and other words;
//! - `options`: what is asked of every command: which links count, by their kinds, and how its answer is shown;
//! - `command`: the commands;
//! - `builds`: what is said of builds;
//! - `asked`: what arguments ask;
//! - `files`: the files that arguments name; `found`: what arguments ask, with what these have;
//! - `print`: lines, of which answers are printed;
//! - `laws`: words read as arguments in one way, and ask something or are misread.
#![tactic(auto)]

pub mod asked;
pub mod builds;
pub mod command;
pub mod files;
pub mod found;
pub mod grammar;
pub mod laws;
pub mod options;
pub mod print;
pub mod table;

pub use asked::{Asked, Wanted};
pub use command::{BuildRequest, Command};
pub use files::{FileFault, Files, NoFiles};
pub use grammar::{Argument, Misread, OptionRow, Program};
pub use options::{Kinds, Options, OutputFormat};
