//! What the arguments of `guppy-cargo` say, what it calls packages, and why there is no answer, before there is a
//! graph.
//!
//! The modules, from the bottom up:
//!
//! - `table`: the options and commands; `scripts`: the options of the scripts;
//! - `nearest`: the name nearest to a word;
//! - `told`: what the arguments ask, or why they ask nothing;
//! - `fault`: why there is no answer;
//! - `words`: arguments as one run of bytes, for callers that are no process;
//! - `help`: what the program says of itself;
//! - `names`: what packages are called;
//! - `laws`: what is printed for a package means this package, and each command has a usage.
#![tactic(auto)]

mod fault;
mod help;
pub mod laws;
mod names;
mod nearest;
mod scripts;
mod table;
mod told;
mod words;

pub use fault::CargoFault;
pub use help::help_of;
pub use names::Names;
pub use nearest::nearest_of;
pub use scripts::SCRIPT_OPTIONS;
pub use table::{COMMANDS, OPTIONS, USAGES};
pub use told::{ArgumentsFault, asked_of};
pub use words::arguments_in;
