//! The search for a cycle.
ghost use Rattle.std.specs.Prelude.{◌≡◌, ℕ, ◌+◌, ◌<◌, ◌≤◌, ◌^◌, Bool, length, map, IfOk, All, MatchOption};
ghost use Rattle.guppy_search.specs.declared.ix.direction.DependencyDirection.TheVariants.{Forward};
ghost use Rattle.guppy_search.specs.Reach.{Step};
ghost use Rattle.guppy_core.specs.Cycle.{IsCycle, IsAcyclic, from_first};
ghost use Rattle.guppy_core.specs.Kept.{OnLinks};

use crate::topo::finish::Frame;
use guppy_search::{CountedGraph, DependencyDirection, GraphSpec, IndexType, IxSet};
use std::alloc::{AllocError, Global};

/// A cycle over the links that `keep` answers true for: two or more positions, each once, each with
/// a kept link to the next, and the last with one to the first. So a link from a position to itself
/// makes none. None where there is no cycle. `keep` may be called on the data of each link, and owes
/// one answer for each of these; `looks` plus the link count fits u64.
///
/// Looks at each link at most once, also where it fails. Takes memory for a few bytes a node, and
/// fails only where there is none.
pub fn find_cycle<G: GraphSpec, F: Fn(&G::Edge) -> bool + Drop>(
    graph: &mut CountedGraph<'_, G>,
    keep: F,
) -> Result<Option<Vec<G::Ix>>, AllocError>
    ghost kept: { G.Edge → Bool }
    requires room { graph.old.looks + length graph.old.graph.links < 2 ^ 64 }
    requires callable { OnLinks graph.old.graph.links (F.pre keep) }
    requires keeps { OnLinks graph.old.graph.links
        (λ e. (b : Bool) → F.post keep e b → b ≡ kept e.now) }
    ensures cycle { IfOk result
        (λ found. MatchOption found (IsAcyclic (Step Forward kept graph.old.graph.links))
        (λ list. IsCycle (Step Forward kept graph.old.graph.links) (map G.Ix.index_of list.items))) }
    ensures looks { graph.new.looks ≤ graph.old.looks + length graph.old.graph.links }
    ensures counted { graph.old.looks ≤ graph.new.looks }
    ensures graph { graph.new.graph ≡ graph.old.graph }
{
    let alloc = graph.alloc();
    let mut seen = IxSet::<G>::empty(alloc, graph.node_count())?;
    let mut done = IxSet::<G>::empty(alloc, graph.node_count())?;
    let mut frames = Vec::new(alloc);
    for start in 0..graph.node_count() {
        if seen.insert_position(start) {
            frames.push(Frame {
                position: start,
                next: 0,
            })?;
        }
        while let Some(frame) = frames.pop() {
            if frame.next < graph.leaving_at(frame.position, DependencyDirection::Forward) {
                let (_number, far, edge) = graph.look_at(
                    frame.position,
                    DependencyDirection::Forward,
                    frame.next,
                );
                frames.push(Frame {
                    position: frame.position,
                    next: frame.next + 1,
                })?;
                if keep(edge) && far != frame.position {
                    if seen.insert_position(far) {
                        frames.push(Frame {
                            position: far,
                            next: 0,
                        })?;
                    } else if !done.has_position(far) {
                        return Ok(Some(positions_from(alloc, frames.as_slice(), far)?));
                    }
                }
            } else {
                done.insert_position(frame.position);
            }
        }
    }
    Ok(None)
}

/// The positions of the frames, from the first frame at the given one on.
fn positions_from<Ix: IndexType>(
    alloc: Global,
    frames: &[Frame],
    first: usize,
) -> Result<Vec<Ix>, AllocError>
    requires { All (λ f. f.position < 2 ^ 32) frames.now }
    ensures { IfOk result (λ list. map Ix.index_of list.items
        ≡ from_first first (map (λ f. f.position) frames.now)) }
{
    let mut list = Vec::new(alloc);
    for frame in frames {
        if !list.is_empty() || frame.position == first {
            list.push(Ix::new(frame.position))?;
        }
    }
    Ok(list)
}
