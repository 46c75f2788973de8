//! Graphs by positions, sets of positions, and searches over them.
//!
//! A node is a position from 0 up to the node count, a link goes from one position to another
//! and has a number from 0 up to the link count. The modules, from the bottom up:
//!
//! - `hints`: hints at where things stand in a list;
//! - `ix`: directions, index types and sets of positions;
//! - `graph_core`: the graph itself;
//! - `dfs`: searches that show each leaving link to a visitor;
//! - `walk`: the links inside a set, walked from starts.
//!
//! Orders of positions, components and resolved sets are made in `guppy_core`, which passes all
//! of this on.
#![tactic(auto)]

pub mod dfs;
pub mod graph_core;
pub mod hints;
pub mod ix;
pub mod walk;

pub use dfs::{
    BufferedEdgeFilter, EdgeFilterFn, LinkVisitor, ReachCache, Recorder, SimpleEdgeFilterFn,
    reachable, reachable_buffered, reachable_buffered_mut, reachable_filtered, reachable_recorded,
    reachable_with, reachable_with_fn,
};
pub use graph_core::{CountedGraph, Graph, GraphFault, LIMIT, Link};
pub use hints::Hints;
pub use ix::{DependencyDirection, GraphSpec, IndexType, IxOnes, IxSet, PackageIx};
pub use walk::EdgeDfs;
