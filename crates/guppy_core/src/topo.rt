//! The topological index, made by a depth-first postorder: what the search finishes last stands first.
mod cycle;
mod finish;
mod index;
mod lists;
mod roots;

pub use cycle::find_cycle;
pub(crate) use finish::{ALL_KEPT, finish_order};
pub use index::TopoWithCycles;
