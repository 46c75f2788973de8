//! Packages that depend on each other.
ghost use Rattle.std.specs.Prelude.{◌≡◌, ◌↔◌, ◌<◌, ℕ, List, [], ◌∷◌, length, map, All, IsTrue, IfOk, IfErr, IfSome, OnOk, IsOk};
ghost use Rattle.std.specs.List.{filter};
ghost use Rattle.std.specs.Iterator.{YieldsFirstBy, YieldsLastBy};
ghost use Rattle.std.specs.Slice.Iter.{iter_rest};
ghost use Rattle.guppy_graph.specs.Ids.{IsKnown, ix_position};
ghost use Rattle.guppy_graph.specs.Refused.{NamesId, IsFirstUnknown};
ghost use Rattle.guppy_graph.specs.Cycles.{AreCyclic, has_self_link, is_cyclic_component};

use crate::package_graph::PackageGraph;
use guppy_core::{AllSccs, IndexType, PackageIx};
use guppy_data::{Error, PackageId};
use std::slice;

/// The cycles of a graph.
#[derive(Clone, Copy)]
pub struct Cycles<'g> {
    pub(crate) graph: &'g PackageGraph,
}

impl PackageGraph {
    ghost use Rattle.guppy.specs.Views.{cycles_graph};

    /// The cycles of the graph. Takes no memory and constant time.
    pub fn cycles(&self) -> Cycles<'_>
        ensures { cycles_graph result ≡ self.entry }
    {
        Cycles { graph: self }
    }
}

impl<'g> Cycles<'g> {
    ghost use Rattle.guppy.specs.Views.{cycles_graph, cycles_packages};
    ghost use Rattle.guppy_graph.specs.Graph.{IsInOrder};
    ghost use Rattle.guppy_graph.specs.Cycles.{AreOnOne};
    ghost use Rattle.guppy.specs.ListedCycles.{cycles_of, cycles_left};

    /// Whether the two packages are on one cycle: whether at least one link leads from the first to
    /// the second, and at least one back. So a package is on one with itself only where a link leads
    /// from it to itself, or where it is on one with another package.
    ///
    /// `UnknownPackageId` tells the first of the two IDs that is no package's. Time grows with the
    /// logarithm of the packages, and with the links that leave the first package. Takes memory only
    /// for that error's copy of the ID.
    pub fn is_cyclic(self, a: &PackageId, b: &PackageId) -> Result<bool, Error>
        ensures known { OnOk result (IsKnown (cycles_packages self.entry) a.now
            × IsKnown (cycles_packages self.entry) b.now) }
        ensures answer { IfOk result
            (λ cyclic. IsTrue cyclic ↔ AreCyclic (cycles_graph self.entry).now a.now b.now) }
        ensures answered { IsKnown (cycles_packages self.entry) a.now
            → IsKnown (cycles_packages self.entry) b.now → IsOk result }
        ensures unknown { IfErr result
            (NamesId (IsFirstUnknown (cycles_packages self.entry) (a.now ∷ b.now ∷ []))) }
    {
        let (from, to) = self.graph.pair_of(a, b)?;
        Ok(self.graph.have_cycle(from, to))
    }
    /// The cycles of the graph, each as the list of the IDs of its packages: a component with two or
    /// more packages or with a link from its package to itself is a cycle, and no other is. Two
    /// packages stand in one of the lists exactly where `is_cyclic` says that they are on one cycle.
    ///
    /// The cycles come in the order in which `PackageSet::packages` lists the packages of the graph
    /// Forward, and so do the packages of each. From the back come the same lists, the last one first.
    ///
    /// Takes no memory and constant time. Going through all of them takes time in the number of
    /// components, and of the links that leave those with one package.
    pub fn all_cycles(self) -> AllCycles<'g>
        ensures left { cycles_left result ≡ cycles_of (cycles_graph self.entry).now }
        ensures common { (a b : List ℕ) → AreOnOne (cycles_left result) a b
            ↔ AreCyclic (cycles_graph self.entry).now a b }
        ensures ordered { IsInOrder (cycles_graph self.entry).now }
    {
        AllCycles {
            graph: self.graph,
            rest: self.graph.sccs().all_sccs(),
        }
    }
}

/// Whether there is a link from the package at the position to itself.
fn has_self_link(graph: &PackageGraph, ix: PackageIx) -> bool
    requires { ix_position ix < length graph.now.packages }
    ensures { result ≡ has_self_link graph.now.links (ix_position ix) }
{
    graph.dep_graph().find_link(ix, ix).is_some()
}

/// Whether the component is a cycle.
fn is_cyclic_component(graph: &PackageGraph, component: &[PackageIx]) -> bool
    requires { All (λ p. p < length graph.now.packages) (map ix_position component.now) }
    ensures { result ≡ is_cyclic_component graph.now.links (map ix_position component.now) }
{
    match component {
        [] => false,
        [only] => has_self_link(graph, *only),
        _ => true,
    }
}

/// The first of the components to come that is a cycle. Those before it are passed over.
fn first_cyclic<'g>(
    graph: &PackageGraph,
    components: &mut AllSccs<'g, PackageIx>,
) -> Option<&'g [PackageIx]>
    requires { All (All (λ p. p < length graph.now.packages)) components.old }
    ensures first { YieldsFirstBy (λ component. map ix_position component.now)
        (filter (is_cyclic_component graph.now.links)) components.old result components.new }
    ensures below { All (All (λ p. p < length graph.now.packages)) components.new }
    ensures found { IfSome result
        (λ component. All (λ p. p < length graph.now.packages) (map ix_position component.now)) }
{
    while let Some(component) = components.next() {
        if is_cyclic_component(graph, component) {
            return Some(component);
        }
    }
    None
}

/// The last of the components to come that is a cycle. Those behind it are passed over.
fn last_cyclic<'g>(
    graph: &PackageGraph,
    components: &mut AllSccs<'g, PackageIx>,
) -> Option<&'g [PackageIx]>
    requires { All (All (λ p. p < length graph.now.packages)) components.old }
    ensures last { YieldsLastBy (λ component. map ix_position component.now)
        (filter (is_cyclic_component graph.now.links)) components.old result components.new }
    ensures below { All (All (λ p. p < length graph.now.packages)) components.new }
    ensures found { IfSome result
        (λ component. All (λ p. p < length graph.now.packages) (map ix_position component.now)) }
{
    while let Some(component) = components.next_back() {
        if is_cyclic_component(graph, component) {
            return Some(component);
        }
    }
    None
}

/// The cycles of a graph that are still to come, in the order of the graph.
#[derive(Drop)]
pub struct AllCycles<'g> {
    graph: &'g PackageGraph,
    rest: AllSccs<'g, PackageIx>,
    ghost in_graph: { All (All (λ p. p < length graph.now.packages)) rest },
}

impl<'g> Iterator for AllCycles<'g> {
    ghost use Rattle.std.specs.Iterator.{YieldsFirstBy, item_count};
    ghost use Rattle.guppy.specs.ListedCycles.{cycle_left, cycles_left};

    type Item = CycleIds<'g>;

    ghost next_gives = { YieldsFirstBy cycle_left cycles_left };

    ghost remaining = { item_count cycles_left };

    fn next(&mut self) -> Option<CycleIds<'g>> {
        let component = first_cyclic(self.graph, &mut self.rest)?;
        Some(CycleIds {
            graph: self.graph,
            rest: component.iter(),
        })
    }
}

impl<'g> DoubleEndedIterator for AllCycles<'g> {
    ghost use Rattle.std.specs.Iterator.{YieldsLastBy};
    ghost use Rattle.guppy.specs.ListedCycles.{cycle_left, cycles_left};

    ghost next_back_gives = { YieldsLastBy cycle_left cycles_left };

    fn next_back(&mut self) -> Option<CycleIds<'g>> {
        let component = last_cyclic(self.graph, &mut self.rest)?;
        Some(CycleIds {
            graph: self.graph,
            rest: component.iter(),
        })
    }
}

/// The IDs of a cycle's packages that are still to come, in the order of the graph. Its `len` and
/// its `size_hint` are exact.
#[derive(Drop)]
pub struct CycleIds<'g> {
    graph: &'g PackageGraph,
    rest: slice::Iter<'g, PackageIx>,
    ghost in_graph: { All (λ p. p < length graph.now.packages) (map ix_position (iter_rest rest)) },
}

impl<'g> Iterator for CycleIds<'g> {
    ghost use Rattle.std.specs.Prelude.{Some};
    ghost use Rattle.std.specs.Iterator.{YieldsFirstRef, UpTo, item_count};
    ghost use Rattle.std.specs.Iterator.SizeHint.{IsWithinCount};
    ghost use Rattle.guppy.specs.ListedCycles.{cycle_left};

    type Item = &'g PackageId;

    ghost next_gives = { YieldsFirstRef cycle_left };

    ghost remaining = { item_count cycle_left };

    fn next(&mut self) -> Option<&'g PackageId> {
        let ix = self.rest.next()?;
        Some(&self.graph.package_at(ix.index()).id)
    }

    fn size_hint(&self) -> (usize, Option<usize>)
        ensures lower { IsWithinCount result.0 (item_count cycle_left self.now) }
        ensures upper { IfSome result.1 (UpTo (item_count cycle_left self.now)) }
        ensures exact { let n = length (cycle_left self.now) in result ≡ (n, Some n) }
    {
        (self.len(), Some(self.len()))
    }
}

impl ExactSizeIterator for CycleIds<'_> {
    fn len(&self) -> usize {
        self.rest.len()
    }
}
