//! The components of a graph, and the order of its positions by them, made by two passes (Kosaraju): a
//! depth-first postorder over the links, then searches against the links, from what was finished last on.
mod claim;
mod components;
mod externals;
mod iter;
mod layout;
mod numbers;

pub use components::Sccs;
pub use iter::{AllSccs, NodeIter};
