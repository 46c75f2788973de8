//! The topological index and the components of a graph, and the sets that a resolve included.
//!
//! Graphs, sets of positions and searches come from `guppy_search`; this crate passes them on
//! under the same names, so that its users name one crate. The modules, from the bottom up:
//!
//! - `ix`, `graph_core`, `dfs` and `walk`: those of `guppy_search`;
//! - `topo`: the topological index;
//! - `scc`: the components;
//! - `resolve_core`: the positions that a resolve included.
#![tactic(auto)]

pub mod resolve_core;
pub mod scc;
pub mod topo;

pub use guppy_search::{
    BufferedEdgeFilter, CountedGraph, DependencyDirection, EdgeDfs, EdgeFilterFn, Graph,
    GraphFault, GraphSpec, IndexType, IxOnes, IxSet, LIMIT, Link, LinkVisitor, PackageIx,
    ReachCache, Recorder, SimpleEdgeFilterFn, dfs, graph_core, ix, reachable, reachable_buffered,
    reachable_buffered_mut, reachable_filtered, reachable_recorded, reachable_with,
    reachable_with_fn, walk,
};
pub use resolve_core::{Links, ResolveCore, Topo};
pub use scc::{AllSccs, NodeIter, Sccs};
pub use topo::{TopoWithCycles, find_cycle};
