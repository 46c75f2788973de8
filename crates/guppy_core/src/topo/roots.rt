ghost use Rattle.std.specs.Prelude.{◌≡◌, ◌↔◌, ℕ, ◌+◌, ◌<◌, ◌≤◌, ◌^◌, Bool, length, IfOk, OnOk, All};
ghost use Rattle.guppy_search.specs.declared.ix.direction.DependencyDirection.TheVariants.{Forward};
ghost use Rattle.guppy_search.specs.IxSet.{IsIn};
ghost use Rattle.guppy_search.specs.Reach.{Step};
ghost use Rattle.guppy_core.specs.Kept.{OnLinks};
ghost use Rattle.guppy_core.specs.Listing.{Stands, Ascends};
ghost use Rattle.guppy_core.specs.Noted.{AreNoted};
ghost use Rattle.guppy_core.specs.Topo.{IsSteppedTo, IsIndexRoot};

use crate::topo::lists::absent;
use guppy_search::{CountedGraph, GraphSpec, IxSet};
use std::alloc::AllocError;

/// The positions to which a kept link leads from another one. Notes of each link whether it is kept,
/// and looks at each once.
fn entered<G: GraphSpec, F: Fn(&G::Edge) -> bool>(
    graph: &mut CountedGraph<'_, G>,
    keep: &F,
    notes: &mut [bool],
) -> Result<IxSet<G>, AllocError>
    ghost kept: { G.Edge → Bool }
    requires room { graph.old.looks + length graph.old.graph.links < 2 ^ 64 }
    requires callable { OnLinks graph.old.graph.links (F.pre keep.now) }
    requires keeps { OnLinks graph.old.graph.links
        (λ e. (b : Bool) → F.post keep.now e b → b ≡ kept e.now) }
    requires notes { length notes.old ≡ length graph.old.graph.links }
    ensures noted { IfOk result (λ _. AreNoted kept graph.old.graph.links notes.new) }
    ensures count { IfOk result (λ set. length set ≡ length graph.old.graph.nodes) }
    ensures members { IfOk result
        (λ set. (p : ℕ) → IsIn set p ↔ IsSteppedTo (Step Forward kept graph.old.graph.links) p) }
    ensures looks { graph.new.looks ≤ graph.old.looks + length graph.old.graph.links }
    ensures counted { graph.old.looks ≤ graph.new.looks }
    ensures once { OnOk result
        (graph.new.looks ≡ graph.old.looks + length graph.old.graph.links) }
    ensures graph { graph.new.graph ≡ graph.old.graph }
{
    let mut set = IxSet::empty(graph.alloc(), graph.node_count())?;
    for number in 0..graph.link_count() {
        let link = graph.link(number);
        let is_kept = keep(link.edge);
        notes[number] = is_kept;
        if is_kept && link.from != link.to {
            set.insert_position(link.to);
        }
    }
    Ok(set)
}

/// The positions to which no kept link leads from another one, ascending. Notes of each link
/// whether it is kept, and looks at each once.
pub(crate) fn roots<G: GraphSpec, F: Fn(&G::Edge) -> bool>(
    graph: &mut CountedGraph<'_, G>,
    keep: &F,
    notes: &mut [bool],
) -> Result<Vec<usize>, AllocError>
    ghost kept: { G.Edge → Bool }
    requires room { graph.old.looks + length graph.old.graph.links < 2 ^ 64 }
    requires callable { OnLinks graph.old.graph.links (F.pre keep.now) }
    requires keeps { OnLinks graph.old.graph.links
        (λ e. (b : Bool) → F.post keep.now e b → b ≡ kept e.now) }
    requires notes { length notes.old ≡ length graph.old.graph.links }
    ensures noted { IfOk result (λ _. AreNoted kept graph.old.graph.links notes.new) }
    ensures below { IfOk result (λ roots. All (λ p. p < length graph.old.graph.nodes) roots.items) }
    ensures ascends { IfOk result (λ roots. Ascends roots.items) }
    ensures roots { IfOk result (λ roots. (p : ℕ) → Stands roots.items p
        ↔ IsIndexRoot (Step Forward kept graph.old.graph.links) (length graph.old.graph.nodes) p) }
    ensures looks { graph.new.looks ≤ graph.old.looks + length graph.old.graph.links }
    ensures counted { graph.old.looks ≤ graph.new.looks }
    ensures once { OnOk result
        (graph.new.looks ≡ graph.old.looks + length graph.old.graph.links) }
    ensures graph { graph.new.graph ≡ graph.old.graph }
{
    let entered = entered(graph, keep, notes)?;
    absent(graph.alloc(), &entered)
}
