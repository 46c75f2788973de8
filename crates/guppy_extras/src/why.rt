//! Why a package is here: a shortest walk of links from one package to another. `search` is a breadth-first
//! search over the links of a graph.
ghost use Rattle.std.specs.Prelude.{◌≡◌, ◌↔◌, ◌∷◌, [], length, map, All, IfOk, IfErr, OnOk, IsSome, IfSome, IfNone};
ghost use Rattle.guppy_graph.specs.Depends.{DependsOn};
ghost use Rattle.guppy_graph.specs.Ids.{IsKnown, DistinctBelow, ix_position};
ghost use Rattle.guppy_graph.specs.Refused.{NamesId, IsFirstUnknown};
ghost use Rattle.guppy.specs.Views.{graph_of, package_position, link_graph, link_number};
ghost use Rattle.guppy_extras.specs.Walk.{IsWalk, NoneShorter, NoWalk, Between};

mod search;

use crate::why::search::Search;
use guppy::graph::PackageIx;
use guppy::{Error, PackageGraph, PackageId, PackageLink, PackageMetadata};
use std::alloc::AllocError;

// The links of a shortest walk from the package to the one at the position of its graph.
fn walk_from<'g>(
    start: PackageMetadata<'g>,
    end: PackageIx,
) -> Result<Option<Vec<PackageLink<'g>>>, AllocError>
    ensures graph { IfOk result (λ found. IfSome found
        (λ walk. All (λ l. link_graph l ≡ graph_of start.entry) walk.items)) }
    ensures walk { IfOk result (λ found. IfSome found
        (λ walk. IsWalk (graph_of start.entry).now.links (package_position start.entry)
        (ix_position end) (map link_number walk.items))) }
    ensures shortest { IfOk result (λ found. IfSome found
        (λ walk. NoneShorter (graph_of start.entry).now.links (package_position start.entry)
        (ix_position end) (length walk.items))) }
    ensures none { IfOk result (λ found. IfNone found
        (NoWalk (graph_of start.entry).now.links (package_position start.entry)
        (ix_position end))) }
{
    let mut search = Search::new(start)?;
    match search.find(end)? {
        Some(place) => Ok(Some(search.walk_to(place)?)),
        None => Ok(None),
    }
}

/// The links of a shortest walk from one package to another, in order: the first leaves the package of the
/// first ID, each next one leaves the package where the one before ended, the last ends at the package of the
/// second ID, and no walk has fewer links. It is empty where both are one package, and there is none where the
/// first package does not depend on the second. Links of every kind count.
///
/// Which of several shortest walks it is, is left open.
///
/// `UnknownPackageId` tells the first of the two IDs that is no package's. `OutOfMemory` comes where a growth
/// was refused. Time grows with the packages, and with the links that leave those no further from the first
/// package than the second is. Takes memory for a bit a package, and some numbers each that was found.
pub fn shortest_walk<'g>(
    graph: &'g PackageGraph,
    from: &PackageId,
    to: &PackageId,
) -> Result<Option<Vec<PackageLink<'g>>>, Error>
    ensures known { OnOk result (IsKnown graph.now.packages from.now
        × IsKnown graph.now.packages to.now) }
    ensures graph { IfOk result (λ found. IfSome found
        (λ walk. All (λ l. link_graph l ≡ graph.entry) walk.items)) }
    ensures walk { IfOk result (λ found. IfSome found
        (λ walk. Between graph.now from.now to.now
        (λ p q. IsWalk graph.now.links p q (map link_number walk.items)))) }
    ensures shortest { IfOk result (λ found. IfSome found
        (λ walk. Between graph.now from.now to.now
        (λ p q. NoneShorter graph.now.links p q (length walk.items)))) }
    ensures none { IfOk result (λ found. IfNone found
        (Between graph.now from.now to.now (NoWalk graph.now.links))) }
    ensures depends { DistinctBelow graph.now.packages (length graph.now.packages)
        → IfOk result (λ found. IsSome found ↔ DependsOn graph.now from.now to.now) }
    ensures unknown { IfErr result
        (NamesId (IsFirstUnknown graph.now.packages (from.now ∷ to.now ∷ []))) }
{
    let start = graph.metadata(from)?;
    let end = graph.metadata(to)?;
    Ok(walk_from(start, end.package_ix())?)
}
