//! The program `guppy-cargo`, over any source and sink: answers on the packages of a Cargo workspace, of which
//! it reads what `cargo metadata` prints.
//!
//! What the arguments say, and what packages are called, is `guppy_arguments`', whose items are passed on. The modules
//! above that, from the bottom up:
//!
//! - `unknown`: the package's name nearest to a word that means none;
//! - `input`: how the program reads its input;
//! - `words`: arguments as one run of bytes, answered.
#![tactic(auto)]

mod input;
mod unknown;
mod words;

pub use guppy_arguments::{ArgumentsFault, CargoFault, Names, asked_of, help_of, laws};
pub use input::Json;
pub use words::answer_json;
