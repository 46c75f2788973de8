//! The graph of packages as it is drawn.
ghost use Rattle.std.specs.Prelude.{◌≡◌, ◌↔◌, ◌<◌, ℕ, IsTrue, IfOk, IsOkUnless, All, length, map};
ghost use Rattle.std.specs.List.{AllZip};
ghost use Rattle.guppy_data.specs.DependencyReq.{seen_req};
ghost use Rattle.guppy_graph.specs.Cycles.{AreCyclic};
ghost use Rattle.guppy_graph.specs.DevOnly.{is_absent};
ghost use Rattle.guppy_graph.specs.Ids.{HasId, IsKnown};
ghost use Rattle.guppy_search.specs.IxSet.{IsIn};
ghost use Rattle.guppy.specs.Views.{OfLink, graph_packages, link_data, package_data, package_position};
ghost use Rattle.guppy.specs.Walked.{IsWhole};
ghost use Rattle.guppy_dot.specs.Dot.{AreEdges, AreNodes, IsDrawing, IsDrawn, IsEdge, IsNode, drawing_shown, edge_shown, node_shown, style_of};

use guppy::graph::{DependencyDirection, DependencyReq};
use guppy::{Error, PackageGraph, PackageId, PackageLink, PackageMetadata, PackageSet};
use std::alloc::{AllocError, Global};

/// How a link is drawn.
#[derive(Clone, Copy, Debug, PartialEq, Eq)]
pub enum LinkStyle {
    /// A link with a normal section.
    Solid,
    /// A link with a build section, and no normal one.
    Dotted,
    /// A link that is there for development alone.
    Dashed,
}

/// A package as it is drawn. The graph has the ID.
#[derive(Clone, Copy, Debug)]
pub struct Node<'g> {
    /// The package's ID.
    pub id: &'g PackageId,
    /// Whether the package is a member of the workspace.
    pub is_member: bool,
    /// Whether the package is on a cycle.
    pub is_cyclic: bool,
}

/// A link as it is drawn. The graph has the IDs.
#[derive(Clone, Copy, Debug)]
pub struct Edge<'g> {
    /// The ID of the package that depends.
    pub from: &'g PackageId,
    /// The ID of the package depended on.
    pub to: &'g PackageId,
    /// How the link is drawn.
    pub style: LinkStyle,
    /// Whether both packages are on one cycle.
    pub is_cyclic: bool,
}

/// Packages and the links between them, as they are drawn.
#[derive(Debug, Drop)]
pub struct Drawing<'g> {
    /// The packages.
    pub nodes: Vec<Node<'g>>,
    /// The links between them.
    pub edges: Vec<Edge<'g>>,
}

// Whether the packages with these IDs are on one cycle.
fn are_cyclic(graph: &PackageGraph, a: &PackageId, b: &PackageId) -> bool
    requires a_known { IsKnown graph.now.packages a.now }
    requires b_known { IsKnown graph.now.packages b.now }
    ensures { IsTrue result ↔ AreCyclic graph.now a.now b.now }
{
    let Ok(cyclic) = graph.cycles().is_cyclic(a, b) else {
        return false;
    };
    cyclic
}

// The package's ID.
fn id_of<'g>(metadata: PackageMetadata<'g>) -> &'g PackageId
    ensures { HasId (graph_packages metadata.entry) result.now (package_position metadata.entry) }
{
    metadata.id()
}

fn node_of(metadata: PackageMetadata<'_>) -> Node<'_>
    ensures { IsNode (package_data metadata.entry) (node_shown result) }
{
    let id = id_of(metadata);
    Node {
        id,
        is_member: metadata.in_workspace(),
        is_cyclic: are_cyclic(metadata.graph(), id, id),
    }
}

fn is_absent(section: DependencyReq<'_>) -> bool
    ensures { result ≡ is_absent (seen_req section.entry) }
{
    !section.is_present()
}

fn style_of(link: PackageLink<'_>) -> LinkStyle
    ensures { OfLink link.entry (λ l. result ≡ style_of l.edge) }
{
    if link.dev_only() {
        LinkStyle::Dashed
    } else if is_absent(link.normal()) {
        LinkStyle::Dotted
    } else {
        LinkStyle::Solid
    }
}

fn edge_of(link: PackageLink<'_>) -> Edge<'_>
    ensures { IsEdge (link_data link.entry) (edge_shown result) }
{
    let from = id_of(link.from());
    let to = id_of(link.to());
    Edge {
        from,
        to,
        style: style_of(link),
        is_cyclic: are_cyclic(link.from().graph(), from, to),
    }
}

fn nodes_of<'g>(alloc: Global, set: &PackageSet<'g>) -> Result<Vec<Node<'g>>, AllocError>
    ensures { IfOk result
        (λ nodes. AreNodes set.now.graph (IsIn set.now.included) (map node_shown nodes.items)) }
{
    let mut nodes = Vec::new(alloc);
    for metadata in set.packages(DependencyDirection::Forward) {
        nodes.push(node_of(metadata))?;
    }
    Ok(nodes)
}

// The set must hold each component that it touches.
fn edges_of<'g>(alloc: Global, set: &PackageSet<'g>) -> Result<Vec<Edge<'g>>, Error>
    requires { IsWhole set.now }
    ensures ok { IfOk result
        (λ edges. AreEdges set.now.graph (IsIn set.now.included) (map edge_shown edges.items)) }
    ensures err { IsOkUnless result Error.OutOfMemory }
{
    let walked = set.links(DependencyDirection::Forward)?;
    let mut edges = Vec::new(alloc);
    for link in walked {
        edges.push(edge_of(link))?;
    }
    Ok(edges)
}

// All packages, as what a query reaches from them: so it is known that the set holds each component.
fn all_reached(graph: &PackageGraph) -> Result<PackageSet<'_>, Error>
    ensures graph { IfOk result (λ set. set.graph ≡ graph.now) }
    ensures all { IfOk result
        (λ set. (p : ℕ) → IsIn set.included p ↔ (p < length graph.now.packages)) }
    ensures whole { IfOk result IsWhole }
    ensures err { IsOkUnless result Error.OutOfMemory }
{
    graph.query_forward(graph.package_ids())?.resolve()
}

// What is drawn where these IDs, which must be known, are given.
fn drawn<'g>(graph: &'g PackageGraph, ids: &[PackageId]) -> Result<PackageSet<'g>, Error>
    requires { All (IsKnown graph.now.packages) ids.now }
    ensures graph { IfOk result (λ set. set.graph ≡ graph.now) }
    ensures exact { IfOk result
        (λ set. (p : ℕ) → IsIn set.included p ↔ IsDrawn graph.now ids.now p) }
    ensures whole { IfOk result IsWhole }
    ensures err { IsOkUnless result Error.OutOfMemory }
{
    if ids.is_empty() {
        all_reached(graph)
    } else {
        graph.query_forward(ids.iter())?.resolve()
    }
}

/// The packages with these IDs, of which each must be known, and those that they reach, or all packages where no ID
/// is given, with the links between them.
///
/// Fails, with `OutOfMemory`, only where there is no memory. Takes memory for the drawing, and for some numbers a
/// package and a link. Time grows with the packages and links times the logarithm of the packages.
pub fn drawing_of<'g>(
    alloc: Global,
    graph: &'g PackageGraph,
    ids: &[PackageId],
) -> Result<Drawing<'g>, Error>
    requires { All (IsKnown graph.now.packages) ids.now }
    ensures ok { IfOk result
        (λ drawing. IsDrawing graph.now (IsDrawn graph.now ids.now) (drawing_shown drawing)) }
    ensures err { IsOkUnless result Error.OutOfMemory }
{
    let set = drawn(graph, ids)?;
    let nodes = nodes_of(alloc, &set)?;
    let edges = edges_of(alloc, &set)?;
    Ok(Drawing { nodes, edges })
}
