//! Graphs: nodes, links with their data, and the links that leave each node.
mod build;
mod counted;
mod graph;
mod link;
mod lists;

pub use counted::CountedGraph;
pub use graph::{Graph, GraphFault, LIMIT};
pub use link::Link;
