//! Laws on reach and on what plain resolves include, each stated by the contract of a function.
ghost use Rattle.std.specs.Prelude.{ℕ, Bool, List};
ghost use Rattle.guppy_search.specs.declared.ix.direction.DependencyDirection.{DependencyDirection};
ghost use Rattle.guppy_search.specs.declared.graph_core.link.Link.{Link};
ghost use Rattle.guppy_search.specs.IxSet.{IsIn, IsSubset, IsUnion};
ghost use Rattle.guppy_search.specs.Reach.{Reach, IsPlainResolve};

use crate::ix::GraphSpec;

/// Each position reaches itself, over whatever links are kept.
pub fn reach_is_reflexive<G: GraphSpec>()
    ensures { (d : DependencyDirection) (keep : G.Edge → Bool) (links : List (Link G.Edge))
        (a : ℕ) →
        Reach d keep links a a }
{}

/// What is reached from a position that is reached is reached.
pub fn reach_is_transitive<G: GraphSpec>()
    ensures { (d : DependencyDirection) (keep : G.Edge → Bool) (links : List (Link G.Edge))
        (a b c : ℕ) →
        Reach d keep links a b → Reach d keep links b c → Reach d keep links a c }
{}

/// A plain resolve from what a plain resolve includes includes the same.
pub fn resolve_is_idempotent<G: GraphSpec>()
    ensures { (d : DependencyDirection) (links : List (Link G.Edge))
        (initials set again : List Bool) →
        IsPlainResolve d links initials set → IsPlainResolve d links set again →
        IsSubset again set × IsSubset set again }
{}

/// A plain resolve from more positions includes what the one from fewer does.
pub fn resolve_is_monotone<G: GraphSpec>()
    ensures { (d : DependencyDirection) (links : List (Link G.Edge))
        (fewer more small large : List Bool) →
        IsSubset fewer more → IsPlainResolve d links fewer small
        → IsPlainResolve d links more large →
        IsSubset small large }
{}

/// A plain resolve from the union of two sets includes the union of what the plain resolves from
/// each include.
pub fn resolve_of_union_is_union<G: GraphSpec>()
    ensures { (d : DependencyDirection) (links : List (Link G.Edge))
        (first second both from_first from_second from_both : List Bool) →
        IsUnion first second both →
        IsPlainResolve d links first from_first → IsPlainResolve d links second from_second
        → IsPlainResolve d links both from_both →
        IsUnion from_first from_second from_both }
{}
