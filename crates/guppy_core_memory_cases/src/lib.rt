//! Cases of `guppy_memory_tests` that need no graph of packages: calls by position and of data, each for a run in which
//! a request for memory is refused.
//!
//! - `told`: what a case tells;
//! - `records`: the records that graphs of packages are made of;
//! - `data`: sorted sets, statuses, questions and IDs;
//! - `positions`, `ixs`, `searches`: graphs and sets by position, lists of positions, searches;
//! - `apart`: all these cases by their groups;
//! - `quiet`: those that take no memory.
#![tactic(auto)]

mod apart;
mod data;
mod ixs;
mod positions;
mod quiet;
pub mod records;
mod searches;
pub mod told;

pub use apart::ask_apart;
pub use quiet::{KnowsNothing, ask_quiet};
