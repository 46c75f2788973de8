//! Laws on sets of packages, each stated by the contract of a function.
ghost use Rattle.std.specs.Prelude.{◌≡◌, List, Bool, length};
ghost use Rattle.guppy_search.specs.declared.ix.direction.DependencyDirection.{DependencyDirection};
ghost use Rattle.guppy_search.specs.IxSet.{IsUnion};
ghost use Rattle.guppy_search.specs.Reach.{IsPlainResolve};
ghost use Rattle.guppy.specs.Query.{SetData};
ghost use Rattle.guppy.specs.Walked.{IsWhole};

use crate::package_graph::Packages;
use guppy_core::walk::laws::plain_resolve_holds_components;

/// What a plain resolve includes holds each component that it touches.
pub fn resolved_sets_are_whole()
    ensures { (d : DependencyDirection) (initials : List Bool) (set : SetData) →
        IsPlainResolve d set.graph.links initials set.included → IsWhole set }
{
    plain_resolve_holds_components::<Packages>();
}

/// The union of two sets is one set from either side, since both are of as many packages.
pub fn union_commutes()
    ensures { (a b x y : List Bool) → IsUnion a b x → IsUnion b a y → length x ≡ length y → x ≡ y }
{}
