//! Facts as numbers, and the type of their sets.
use guppy_search::{GraphSpec, IndexType};

/// A fact, as a number of a type of its own.
#[derive(Clone, Copy, Debug, PartialEq, Eq, PartialOrd, Ord)]
pub struct FactIx(u32);

impl IndexType for FactIx {
    ghost index_of = { λ f. f.0 };

    fn new(position: usize) -> Self {
        FactIx(position as u32)
    }

    fn index(self) -> usize {
        self.0 as usize
    }
}

/// What facts are to sets of positions.
#[derive(Drop)]
pub struct Facts;

impl GraphSpec for Facts {
    type Node = ();

    type Edge = ();

    type Ix = FactIx;
}
