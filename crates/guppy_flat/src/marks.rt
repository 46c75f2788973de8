ghost use Rattle.std.specs.Prelude.{◌≡◌, ◌<◌, ◌^◌, length, IfOk};

use crate::flat::Flat;
use guppy_core::IxSet;
use std::alloc::{AllocError, Global};

/// The set of the positions that are marked. There are fewer than 2^32 of them.
///
/// Time grows with the positions. Takes memory for a bit a position, and fails only where there is
/// none.
pub fn set_of(alloc: Global, marks: &[bool]) -> Result<IxSet<Flat>, AllocError>
    requires { length marks.now < 2 ^ 32 }
    ensures { IfOk result (λ set. set ≡ marks.now) }
{
    let mut set = IxSet::empty(alloc, marks.len())?;
    for position in 0..marks.len() {
        if marks[position] {
            set.insert_position(position);
        }
    }
    Ok(set)
}

/// Marks the positions of the set, and no other. There is a mark for each position.
pub fn mark(set: &IxSet<Flat>, marks: &mut [bool])
    requires { length set.now ≡ length marks.old }
    ensures { marks.new ≡ set.now }
{
    for position in 0..marks.len() {
        marks[position] = set.has_position(position);
    }
}
