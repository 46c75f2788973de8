//! Directions, index types and sets of positions.
mod direction;
mod index_type;
mod ix_set;
mod words;

pub use direction::DependencyDirection;
pub use index_type::{GraphSpec, IndexType, PackageIx};
pub use ix_set::{IxOnes, IxSet};
