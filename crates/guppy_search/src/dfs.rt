//! Searches that show a visitor each link that leaves an included position.
mod buffered;
mod cache;
mod filter;
mod filtered;
pub mod laws;
mod recorder;
mod search;
mod visitor;

pub use buffered::{reachable_buffered, reachable_buffered_mut};
pub use cache::ReachCache;
pub use filter::{BufferedEdgeFilter, EdgeFilterFn, SimpleEdgeFilterFn};
pub use filtered::{reachable_filtered, reachable_with_fn};
pub use recorder::{Recorder, reachable_recorded};
pub use search::{reachable, reachable_with};
pub use visitor::LinkVisitor;
