//! How an answer is printed: as lines, as flags for cargo, as JSON, and as Graphviz reads it.
//!
//! The modules, from the bottom up:
//!
//! - `format`: what differs between programs: what they are asked, how they read their input and what they call
//!   packages;
//! - `answer`: what a command answers of a package graph;
//! - `print`: how it is printed; `print_builds`: what Cargo builds; `flags`: packages as cargo takes them; `to_json`:
//!   what has a value in JSON; `objects`: packages, links and walks; `objects_of_builds`: what Cargo builds;
//!   `dot_text`: what is drawn.
#![tactic(auto)]

pub mod answer;
pub mod dot_text;
mod flags;
pub mod format;
mod objects;
mod objects_of_builds;
pub mod print;
mod print_builds;
mod to_json;

pub use answer::{Answer, LinkEnds, Step};
pub use format::{Format, has_package};
pub use print::{printed, text_of};
