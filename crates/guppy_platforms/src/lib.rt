//! Which links a graph has on some platforms, and which sections of each: a section that is off on all of them is left out,
//! unless it may be on on the host and is of what runs there.
//!
//! The modules, from the bottom up:
//!
//! - `counting`: which sections of a link count on the platforms, or on the host;
//! - `host`: which packages run on the host;
//! - `kept`: the links that are left, each with these sections alone.
#![tactic(auto)]

mod counting;
mod host;
mod kept;

pub use crate::counting::{Counting, counts, has_section, is_asked_for};
pub use crate::kept::{are_named, keep_counting};
