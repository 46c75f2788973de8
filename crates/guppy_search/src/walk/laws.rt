//! Laws on walks over links, each stated by the contract of a function.
ghost use Rattle.std.specs.Prelude.{Bool, List};
ghost use Rattle.guppy_search.specs.declared.ix.direction.DependencyDirection.{DependencyDirection};
ghost use Rattle.guppy_search.specs.declared.graph_core.link.Link.{Link};
ghost use Rattle.guppy_search.specs.Reach.{IsPlainResolve};
ghost use Rattle.guppy_search.specs.Walked.{HoldsComponents};

use crate::ix::GraphSpec;

/// What a plain resolve includes holds each component that it touches.
pub fn plain_resolve_holds_components<G: GraphSpec>()
    ensures { (d : DependencyDirection) (links : List (Link G.Edge)) (initials set : List Bool) →
        IsPlainResolve d links initials set → HoldsComponents links set }
{}
