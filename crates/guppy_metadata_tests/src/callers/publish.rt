ghost use Rattle.std.specs.Prelude.{◌≢◌, ℕ, IfOk, IfErr, MatchOption};
ghost use Rattle.guppy.specs.Ids.{HasId};
ghost use Rattle.guppy.specs.Members.{IsMember};
ghost use Rattle.guppy.specs.Ordered.{FirmStep};
ghost use Rattle.guppy.specs.Reach.{Walk};
ghost use Rattle.guppy.specs.Verified.{IsVerifyFault, TellsVerifyFault};

use guppy::{Error, PackageGraph, PackageId};
use guppy_publish::publish_order;

/// The ID of the member to publish first: one that needs no other member, except for development. None
/// where the workspace has no members.
pub fn first_to_publish(graph: &PackageGraph) -> Result<Option<&PackageId>, Error>
    ensures first { IfOk result (λ first. MatchOption first
        ((p : ℕ) → ¬ IsMember graph.now.packages p)
        (λ id. (p : ℕ) × HasId graph.now.packages id.now p × IsMember graph.now.packages p
        × ((q : ℕ) → IsMember graph.now.packages q → p ≢ q
        → ¬ Walk (FirmStep graph.now.links) p q))) }
    ensures fault { IfErr result (TellsVerifyFault (IsVerifyFault graph.now)) }
{
    let order = publish_order(graph)?;
    Ok(order.as_slice().first().copied())
}
