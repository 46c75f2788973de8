ghost use Rattle.std.specs.Prelude.{◌≡◌, Bool, List, length, map, All, IfOk, IfErr, OnOk, MatchOption};
ghost use Rattle.guppy_search.specs.Fault.{IsFault};
ghost use Rattle.guppy_search.specs.Graph.{IsGraph};
ghost use Rattle.guppy_search.specs.Links.{is_unknown};
ghost use Rattle.guppy_flat.specs.Flat.{flagged, link_of, AreKnown, AreWithin, IsFirstAstray, IsFlatFault, MakeGraph};

use guppy_core::{Graph, GraphFault, GraphSpec, LIMIT, Link, PackageIx};
use std::alloc::{AllocError, Global};

/// A link by its ends, two positions.
#[repr(C)]
#[derive(Clone, Copy, Debug, PartialEq, Eq)]
pub struct Ends {
    /// The position that it leaves.
    pub from: u32,
    /// The position that it leads to.
    pub to: u32,
}

/// A graph with nothing at its nodes, and a flag at each link.
#[derive(Drop)]
pub struct Flat;

impl GraphSpec for Flat {
    type Node = ();

    type Edge = bool;

    type Ix = PackageIx;
}

// Whether the link has an end that is none of so many positions.
fn has_unknown_end(link: &Ends, count: usize) -> bool
    ensures { result ≡ is_unknown count (link_of link.now) }
{
    link.from as usize >= count || link.to as usize >= count
}

// The first link that has one.
fn first_unknown(links: &[Ends], count: usize) -> Option<usize>
    ensures { MatchOption result (All (AreKnown count) links.now)
        (IsFirstAstray count links.now) }
{
    for (number, link) in links.iter().enumerate() {
        if has_unknown_end(link, count) {
            return Some(number);
        }
    }
    None
}

/// Refuses more positions or links than a graph has at most, and a link with an end that is no position: each
/// fault that is found with no memory.
pub fn expect_within(count: usize, links: &[Ends]) -> Result<(), GraphFault>
    ensures within { (flags : List Bool) → length flags ≡ length links.now
        → OnOk result (AreWithin count (flagged links.now flags)) }
    ensures fault { (flags : List Bool) → length flags ≡ length links.now
        → IfErr result (IsFlatFault count (flagged links.now flags)) }
{
    if count > LIMIT {
        return Err(GraphFault::TooManyNodes);
    }
    if links.len() > LIMIT {
        return Err(GraphFault::TooManyLinks);
    }
    match first_unknown(links, count) {
        Some(number) => Err(GraphFault::UnknownEnd(number)),
        None => Ok(()),
    }
}

// The links as a graph has them, without their flags.
fn ends_of(alloc: Global, links: &[Ends]) -> Result<Vec<Link<()>>, AllocError>
    ensures { IfOk result (λ ends. ends.items ≡ map link_of links.now) }
{
    links
        .iter()
        .map(|link| Link {
            from: link.from as usize,
            to: link.to as usize,
            edge: (),
        })
        .collect(alloc)
}

// The graph of these links between so many positions, each with its flag.
fn graph_from(
    alloc: Global,
    count: usize,
    links: &[Ends],
    flags: &[bool],
) -> Result<Graph<Flat>, GraphFault>
    requires { length flags.now ≡ length links.now }
    ensures nodes { IfOk result (λ g. length g.nodes ≡ count) }
    ensures links { IfOk result (λ g. g.links ≡ flagged links.now flags.now) }
    ensures graph { IfOk result (λ g. IsGraph g) }
    ensures fault { IfErr result (IsFault count (flagged links.now flags.now)) }
{
    let nodes = vec![in alloc; (); count]?;
    let edges = flags.iter().copied().collect(alloc)?;
    let ends = ends_of(alloc, links)?;
    Graph::from_ends(nodes, edges, ends)
}

/// The graph of these links between so many positions, each with its flag. There is a flag for each
/// link. Otherwise the first fault, as [`Graph::from_parts`] has it; all but a repeated link are told before memory is
/// asked for.
///
/// Time grows with positions and links. Takes memory for 41 bytes a link and three numbers a position.
pub fn graph_of(
    alloc: Global,
    count: usize,
    links: &[Ends],
    flags: &[bool],
) -> Result<Graph<Flat>, GraphFault>
    requires { length flags.now ≡ length links.now }
    ensures nodes { IfOk result (λ g. length g.nodes ≡ count) }
    ensures links { IfOk result (λ g. g.links ≡ flagged links.now flags.now) }
    ensures graph { IfOk result (λ g. IsGraph g) }
    ensures within { OnOk result (AreWithin count (flagged links.now flags.now)) }
    ensures made { OnOk result (MakeGraph count (flagged links.now flags.now)) }
    ensures fault { IfErr result (IsFlatFault count (flagged links.now flags.now)) }
{
    expect_within(count, links)?;
    graph_from(alloc, count, links, flags)
}
