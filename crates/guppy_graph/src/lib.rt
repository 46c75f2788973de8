//! The graph of checked records that guppy's `PackageGraph` stands on: packages by their positions and
//! links by their numbers, found by IDs, paths and names.
//!
//! The modules, from the bottom up:
//!
//! - `keyed`: positions sorted and looked up by any key;
//! - `keys`: the keys, which are IDs, paths, names and target IDs;
//! - `joined`: IDs copied behind one another, so that many of them are compared soon;
//! - `likely`: a guess at the order of IDs, to begin sorting from;
//! - `hints`: packages found by ID, mostly with no search;
//! - `build`: the checks of the records, and the indexes;
//! - `dev_only`: which links are for development alone;
//! - `order`: the order of the packages;
//! - `graph`: the graph itself;
//! - `firm_cycle`: cycles over links that aren't dev-only;
//! - `verify`: the check that a graph is a verified graph.
#![tactic(auto)]

mod build;
mod dev_only;
mod firm_cycle;
mod graph;
mod hints;
mod joined;
mod keyed;
mod keys;
mod likely;
mod order;
mod verify;

pub use dev_only::is_dev_only;
pub use graph::{Packages, RecordGraph};
pub use keys::{name_at, path_at};
