ghost use Rattle.std.specs.Prelude.{◌≡◌, ◌↔◌, ℕ, ◌<◌, ◌^◌, length, IfOk, All};
ghost use Rattle.guppy_search.specs.IxSet.{IsIn};
ghost use Rattle.guppy_core.specs.Listing.{Stands, IsAbsence, IsOnce, IsInverse};

use guppy_search::{GraphSpec, IxSet};
use std::alloc::{AllocError, Global};

/// The set of the positions in the list.
pub(crate) fn set_of<G: GraphSpec>(
    alloc: Global,
    node_count: usize,
    list: &[usize],
) -> Result<IxSet<G>, AllocError>
    requires below { All (λ p. p < node_count) list.now }
    requires small { node_count < 2 ^ 32 }
    ensures count { IfOk result (λ set. length set ≡ node_count) }
    ensures members { IfOk result (λ set. (p : ℕ) → IsIn set p ↔ Stands list.now p) }
{
    let mut set = IxSet::empty(alloc, node_count)?;
    for position in list {
        set.insert_position(*position);
    }
    Ok(set)
}

/// The positions that are not in the set, ascending.
pub(crate) fn absent<G: GraphSpec>(alloc: Global, set: &IxSet<G>) -> Result<Vec<usize>, AllocError>
    ensures { IfOk result (λ list. IsAbsence set.now (length set.now) list.items) }
{
    let mut list = Vec::new(alloc);
    for position in 0..set.node_count() {
        if !set.has_position(position) {
            list.push(position)?;
        }
    }
    Ok(list)
}

/// At each position of the list, its place there.
pub(crate) fn places(alloc: Global, list: &[usize]) -> Result<Vec<usize>, AllocError>
    requires below { All (λ p. p < length list.now) list.now }
    requires once { IsOnce list.now }
    ensures { IfOk result (λ places. IsInverse list.now places.items) }
{
    let mut places = vec![in alloc; 0; list.len()]?;
    for (place, position) in list.iter().enumerate() {
        places[*position] = place;
    }
    Ok(places)
}
