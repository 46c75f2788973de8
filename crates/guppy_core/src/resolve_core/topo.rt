ghost use Rattle.std.specs.Prelude.{◌≡◌, ◌↔◌, ℕ, ◌<◌, All, length};
ghost use Rattle.std.specs.List.{concat, filter};
ghost use Rattle.std.specs.Iterator.{YieldsFirstBy};
ghost use Rattle.guppy_search.specs.IxSet.{has, IsIn, member_count};
ghost use Rattle.guppy_core.specs.Listing.{Stands, IsOnce};
ghost use Rattle.guppy_core.specs.Sccs.{listed};

use crate::scc::{NodeIter, Sccs};
use guppy_search::{DependencyDirection, GraphSpec, IndexType, IxSet};
use std::marker::Model;

/// The positions of a set that are still to come, in the order of the components or from its end.
/// Its `len` and its `size_hint` are exact.
#[derive(Drop)]
pub struct Topo<'s, G: GraphSpec> {
    nodes: NodeIter<'s, G::Ix>,
    included: &'s IxSet<G>,
    left: usize,
}

impl<'s, G: GraphSpec> Model for Topo<'s, G> {
    ghost use Rattle.std.specs.Prelude.{◌≡◌, ◌<◌, List, ℕ, All, length};
    ghost use Rattle.std.specs.List.{filter};
    ghost use Rattle.guppy_search.specs.IxSet.{has};

    ghost Value = { List ℕ };

    ghost view = { λ s. filter (has s.included.now) s.nodes.left };

    ghost invariant = { λ s. All (λ p. p < length s.included.now) s.nodes.left
        × (s.left ≡ length (filter (has s.included.now) s.nodes.left)) };
}

impl<'s, G: GraphSpec> Topo<'s, G> {
    /// The positions of the set, each once: Forward in the order of the components, Reverse that list
    /// from its end. The components are of as many nodes as the set. Takes no memory.
    pub fn new(
        included: &'s IxSet<G>,
        sccs: &'s Sccs<G::Ix>,
        direction: DependencyDirection,
    ) -> Self
        requires { length included.now ≡ length (concat sccs.now) }
        ensures left { result ≡ listed direction (filter (has included.now) (concat sccs.now)) }
        ensures members { (p : ℕ) → Stands result p ↔ IsIn included.now p }
        ensures once { IsOnce result }
        ensures count { length result ≡ member_count included.now }
        ensures below { All (λ p. p < length included.now) result }
    {
        Topo {
            nodes: sccs.node_iter(direction),
            included,
            left: included.len(),
        }
    }
}

/// The first of the positions to come that is in the set. Those before it are passed over.
fn first_included<G: GraphSpec>(
    nodes: &mut NodeIter<'_, G::Ix>,
    included: &IxSet<G>,
) -> Option<G::Ix>
    requires { All (λ p. p < length included.now) nodes.old.left }
    ensures first { YieldsFirstBy G.Ix.index_of
        (λ s. filter (has included.now) s.left) nodes.old result nodes.new }
    ensures below { All (λ p. p < length included.now) nodes.new.left }
{
    while let Some(ix) = nodes.next() {
        if included.contains(ix) {
            return Some(ix);
        }
    }
    None
}

impl<'s, G: GraphSpec> Iterator for Topo<'s, G> {
    type Item = G::Ix;

    ghost use Rattle.std.specs.Prelude.{◌≡◌, Some, IfSome, length};
    ghost use Rattle.std.specs.Iterator.{YieldsFirstBy, UpTo, at_most, item_count};
    ghost use Rattle.std.specs.Iterator.SizeHint.{IsWithinCount};

    ghost next_gives = { YieldsFirstBy G.Ix.index_of (λ s. s) };

    ghost remaining = { item_count (λ s. s) };

    fn next(&mut self) -> Option<G::Ix> {
        let ix = first_included(&mut self.nodes, self.included)?;
        self.left -= 1;
        Some(ix)
    }

    fn size_hint(&self) -> (usize, Option<usize>)
        ensures lower { IsWithinCount result.0 (at_most (length self.now)) }
        ensures upper { IfSome result.1 (UpTo (at_most (length self.now))) }
        ensures exact { result ≡ (length self.now, Some (length self.now)) }
    {
        (self.left, Some(self.left))
    }
}

impl<G: GraphSpec> ExactSizeIterator for Topo<'_, G> {
    fn len(&self) -> usize {
        self.left
    }
}
