//! Walks over the links inside a set.
mod edge_dfs;
mod inside;
pub mod laws;

pub use edge_dfs::EdgeDfs;
