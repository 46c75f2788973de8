//! What is told of what Cargo builds: each package that is built with its features, and why a feature is on.
//!
//! A [`BuildQuestion`] has what a command line chooses, in its own words. What Cargo makes of it is guppy_features' and
//! guppy_builds'.
//!
//! The modules, from the bottom up:
//!
//! - `question`: what is asked; `fault`: why there is no answer;
//! - `members`: the members that are chosen; `asked`: what all of it means to Cargo;
//! - `resolved`: whether the metadata resolve all that is switched on;
//! - `features`: which features of a package are on;
//! - `rows`: what is built, a row for each package on each platform;
//! - `names`: what facts say, by names;
//! - `why`: why a feature is on; `askers`: who asks for a package's features.
#![tactic(auto)]

mod asked;
mod askers;
mod fault;
mod features;
mod members;
mod names;
mod question;
mod resolved;
mod rows;
mod why;

pub use crate::askers::{FeatureOn, features_of};
pub use crate::fault::BuiltFault;
pub use crate::names::{FactName, NamedFact, NamedReason};
pub use crate::question::BuildQuestion;
pub use crate::rows::{BuiltPackage, built_as_resolved, built_packages};
pub use crate::why::why_feature;
