//! Which packages of a state of a workspace aren't as they were in another one.
//!
//! Each state is a graph. What is said of a package is said by marks, by IDs and names alone: what it needs, which
//! features it asks for there, and what is built of it, for which platforms and with which features, where all members
//! are built with their tests, and with the features that the setting says. A package is unchanged where it was there before, with exactly these
//! marks.
//!
//! The modules, from the bottom up:
//!
//! - `setting`: how both states are built;
//! - `mark`: what is said of a package; `adding`: marks, as they are added to a list;
//! - `links`: the marks that links give; `rows`: what is built of all members, and the marks that its rows give;
//! - `marks`: all marks of a state; `missing`: those that one state has and the other one hasn't;
//! - `changes`: the packages that aren't unchanged;
//! - `laws`: what changes a package, and what doesn't.
#![tactic(auto)]

mod adding;
mod changes;
pub mod laws;
mod links;
mod mark;
mod marks;
mod missing;
mod rows;
mod setting;

pub use crate::changes::changed_packages;
pub use crate::setting::BuildSetting;
