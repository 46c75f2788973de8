//! Answers that `guppy` has no call for, above its public calls alone.
//!
//! - `why`: a shortest walk of links from one package to another;
//! - `namesakes`: packages that are there more than once;
//! - `sections`: which sections of a link are on on a platform.
#![tactic(auto)]

mod namesakes;
mod sections;
mod why;

pub use crate::namesakes::duplicates;
pub use crate::sections::{SectionsOn, sections_on};
pub use crate::why::shortest_walk;
