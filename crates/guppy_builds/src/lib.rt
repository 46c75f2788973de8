//! Which packages Cargo builds, and for which platforms.
//!
//! A package that takes part, as guppy_features says, need not be built. What is built are targets of the chosen
//! members, and of a package that is built each that it depends on, where the dependency is on for that platform, and
//! switched on if it is optional. A [`BuildSet`] has what is built and nothing else.
//!
//! It speaks of packages, not of each of their targets, and of `cargo build` and `cargo test` with no target named. What
//! guppy_features says of optional dependencies that Cargo's resolver of versions leaves out holds here, too.
//!
//! The modules, from the bottom up:
//!
//! - `build`: that a package is built, and for which platform;
//! - `building`: what is asked, with the features that are on;
//! - `places`: the platforms, each by itself;
//! - `required`: whether the features are on that a target requires;
//! - `rules`: a list of clauses, each of which says that something is built where something else is;
//! - `targets` and `packages`: the clauses by a chosen member's targets, and by what packages depend on;
//! - `clauses`: all of them;
//! - `set`: what is built.
#![tactic(auto)]

mod build;
mod building;
mod clauses;
mod packages;
mod places;
mod required;
mod rules;
mod set;
mod targets;

pub use crate::build::{Build, BuildMode, BuildPlace};
pub use crate::set::BuildSet;
