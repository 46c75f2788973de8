//! The order in which the members of a workspace can be published, above `guppy`'s public calls alone.
#![tactic(auto)]

ghost use Rattle.std.specs.Prelude.{◌≡◌, map, IfOk, IfErr, OnOk};
ghost use Rattle.guppy_graph.specs.FirmCycles.{HasNoFirmCycle};
ghost use Rattle.guppy_graph.specs.Verified.{IsVerified, IsVerifyFault, TellsVerifyFault};
ghost use Rattle.guppy.specs.Listed.{listed_ids_left};
ghost use Rattle.guppy_publish.specs.Publishing.{ArePublishIds};

pub mod laws;
mod needs;

use guppy::graph::DependencyDirection;
use guppy::{Error, ListedPackageIds, PackageGraph, PackageId};
pub use needs::add_declared;

/// The IDs of the workspace's members in an order in which they can be published: each once, and each
/// after every other member to which a path of links that aren't dev-only leads from it, also through
/// packages that are no members.
///
/// The graph is verified first: where `PackageGraph::verify` tells a fault, as a cycle over these links,
/// that is the answer. `OutOfMemory` comes where a growth was refused.
///
/// Time grows as `verify`'s, and with the members. Takes memory as `verify` does, for a bit a package, and
/// for some numbers a member.
pub fn publish_order(graph: &PackageGraph) -> Result<Vec<&PackageId>, Error>
    ensures verified { OnOk result (IsVerified graph.now × HasNoFirmCycle graph.now) }
    ensures order { IfOk result (λ ids. ArePublishIds graph.now (map (λ id. id.now) ids.items)) }
    ensures fault { IfErr result (TellsVerifyFault (IsVerifyFault graph.now)) }
{
    graph.verify()?;
    members_in_order(graph)
}

// The members' IDs in such an order, where no cycle is over links that aren't dev-only.
fn members_in_order(graph: &PackageGraph) -> Result<Vec<&PackageId>, Error>
    requires { HasNoFirmCycle graph.now }
    ensures order { IfOk result (λ ids. ArePublishIds graph.now (map (λ id. id.now) ids.items)) }
    ensures error { IfErr result (λ error. error ≡ Error.OutOfMemory) }
{
    let members = graph.resolve_workspace()?;
    let ids = ids_left(graph, members.package_ids(DependencyDirection::Reverse))?;
    Ok(ids)
}

// The IDs that the list still has.
fn ids_left<'g>(
    graph: &'g PackageGraph,
    ids: ListedPackageIds<'_, 'g>,
) -> Result<Vec<&'g PackageId>, Error>
    ensures ids { IfOk result (λ list. map (λ id. id.now) list.items ≡ listed_ids_left ids.entry) }
    ensures error { IfErr result (λ error. error ≡ Error.OutOfMemory) }
{
    Ok(ids.collect(graph.alloc())?)
}
