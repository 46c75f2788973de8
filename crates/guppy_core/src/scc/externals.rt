ghost use Rattle.std.specs.Prelude.{◌≡◌, ◌↔◌, ◌⊎◌, ℕ, ◌<◌, ◌^◌, true, false, length, map, slice_index, IfOk, All};
ghost use Rattle.guppy_search.specs.IxSet.{has, IsIn};
ghost use Rattle.guppy_core.specs.Listing.{Stands, Ascends};
ghost use Rattle.guppy_search.specs.Reach.{LinkStep};
ghost use Rattle.guppy_core.specs.Roots.{EntersFrom, IsEntered, HasNumber};

use guppy_search::{DependencyDirection, Graph, GraphSpec, IndexType, IxSet};
use std::alloc::{AllocError, Global};

/// Marks the components that links from the position to others of the set enter.
fn mark_entered_from<G: GraphSpec>(
    graph: &Graph<G>,
    set: &IxSet<G>,
    numbers: &[usize],
    position: usize,
    direction: DependencyDirection,
    entered: &mut Vec<bool>,
)
    requires nodes { length set.now ≡ length graph.now.nodes }
    requires numbers { length numbers.now ≡ length graph.now.nodes }
    requires position { position < length graph.now.nodes }
    requires below { All (λ c. c < length entered.old.items) numbers.now }
    ensures count { length entered.new.items ≡ length entered.old.items }
    ensures marked { (c : ℕ) → IsIn entered.new.items c ↔
        (IsIn entered.old.items c ⊎ EntersFrom (LinkStep direction graph.now.links)
        (HasNumber numbers.now) set.now position c) }
{
    let own = numbers[position];
    for number in graph.links_at(position, direction) {
        let far = graph.link(*number).far_end(direction);
        if set.has_position(far) && numbers[far] != own {
            entered[numbers[far]] = true;
        }
    }
}

/// For each component whether a link inside the set enters it from another one. There are at most
/// `count` components.
pub(crate) fn entered<G: GraphSpec>(
    graph: &Graph<G>,
    set: &IxSet<G>,
    numbers: &[usize],
    count: usize,
    direction: DependencyDirection,
) -> Result<Vec<bool>, AllocError>
    requires nodes { length set.now ≡ length graph.now.nodes }
    requires numbers { length numbers.now ≡ length graph.now.nodes }
    requires below { All (λ c. c < count) numbers.now }
    ensures count { IfOk result (λ entered. length entered.items ≡ count) }
    ensures marked { IfOk result (λ entered. (c : ℕ) → IsIn entered.items c ↔
        IsEntered (LinkStep direction graph.now.links) (HasNumber numbers.now) set.now c) }
{
    let mut entered = vec![in graph.alloc(); false; count]?;
    for position in 0..set.node_count() {
        if set.has_position(position) {
            mark_entered_from(graph, set, numbers, position, direction, &mut entered);
        }
    }
    Ok(entered)
}

/// Whether the position is in the set, and its component is not entered.
fn is_unentered<G: GraphSpec>(
    set: &IxSet<G>,
    numbers: &[usize],
    entered: &[bool],
    position: usize,
) -> bool
    requires numbers { length numbers.now ≡ length set.now }
    requires below { All (λ c. c < length entered.now) numbers.now }
    requires position { position < length set.now }
    ensures answer { (result ≡ true)
        ↔ (IsIn set.now position × (has entered.now (slice_index numbers.now position) ≡ false)) }
    ensures small { result ≡ true → position < 2 ^ 32 }
{
    set.has_position(position) && !entered[numbers[position]]
}

/// The positions of the set whose components are not entered, ascending.
pub(crate) fn unentered<G: GraphSpec>(
    alloc: Global,
    set: &IxSet<G>,
    numbers: &[usize],
    entered: &[bool],
) -> Result<Vec<G::Ix>, AllocError>
    requires numbers { length numbers.now ≡ length set.now }
    requires below { All (λ c. c < length entered.now) numbers.now }
    ensures ascends { IfOk result (λ list. Ascends (map G.Ix.index_of list.items)) }
    ensures members { IfOk result (λ list. (x : ℕ) → Stands (map G.Ix.index_of list.items) x ↔
        (IsIn set.now x × (has entered.now (slice_index numbers.now x) ≡ false))) }
{
    let mut list = Vec::new(alloc);
    for position in 0..set.node_count() {
        if is_unentered(set, numbers, entered, position) {
            list.push(G::Ix::new(position))?;
        }
    }
    Ok(list)
}
