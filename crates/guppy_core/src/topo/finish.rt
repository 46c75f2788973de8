ghost use Rattle.std.specs.Prelude.{◌≡◌, ℕ, ◌+◌, ◌<◌, ◌≤◌, ◌^◌, Bool, List, length, IfOk, All, Contains};
ghost use Rattle.guppy_search.specs.declared.ix.direction.DependencyDirection.TheVariants.{Forward};
ghost use Rattle.guppy_search.specs.Reach.{Step};
ghost use Rattle.guppy_core.specs.Cost.{AreLookedAt};
ghost use Rattle.guppy_core.specs.Finish.{IsFinishList};
ghost use Rattle.guppy_core.specs.Listing.{Stands};
ghost use Rattle.guppy_core.specs.Noted.{note, AreNoted};

use guppy_search::{CountedGraph, DependencyDirection, GraphSpec, IxSet};
use std::alloc::AllocError;

/// A position whose links are being followed, and the place of the next of them.
#[derive(Clone, Copy)]
pub(crate) struct Frame {
    pub(crate) position: usize,
    pub(crate) next: usize,
}

/// The notes that say of each link that it is kept.
pub(crate) const ALL_KEPT: &[bool] = &[];

/// Whether the link with the number is noted as kept. Past the list's end each one is.
fn is_kept(notes: &[bool], number: usize) -> bool
    ensures { result ≡ note notes.now number }
{
    match notes.get(number) {
        Some(noted) => *noted,
        None => true,
    }
}

/// The positions that kept links lead to from the starts, in the order in which a depth-first
/// search finishes them. Looks at each link that leaves one of them once, and at no other. The notes
/// say which links are kept, as `ALL_KEPT` of each.
pub(crate) fn finish_order<G: GraphSpec>(
    graph: &mut CountedGraph<'_, G>,
    starts: &[usize],
    notes: &[bool],
) -> Result<Vec<usize>, AllocError>
    ghost kept: { G.Edge → Bool }
    requires starts { All (λ p. p < length graph.old.graph.nodes) starts.now }
    requires room { graph.old.looks + length graph.old.graph.links < 2 ^ 64 }
    requires noted { AreNoted kept graph.old.graph.links notes.now }
    ensures order { IfOk result (λ order. IsFinishList (Step Forward kept graph.old.graph.links)
        (Contains starts.now) order.items) }
    ensures positions { IfOk result
        (λ order. All (λ p. p < length graph.old.graph.nodes) order.items) }
    ensures looks { graph.new.looks ≤ graph.old.looks + length graph.old.graph.links }
    ensures counted { graph.old.looks ≤ graph.new.looks }
    ensures looked { IfOk result (λ order. AreLookedAt Forward graph.old.graph.links
        (length graph.old.graph.nodes) (Stands order.items) graph.old.looks graph.new.looks) }
    ensures graph { graph.new.graph ≡ graph.old.graph }
{
    let alloc = graph.alloc();
    let mut seen = IxSet::<G>::empty(alloc, graph.node_count())?;
    let mut frames = Vec::new(alloc);
    let mut order = Vec::new(alloc);
    for start in starts {
        if seen.insert_position(*start) {
            frames.push(Frame {
                position: *start,
                next: 0,
            })?;
        }
        while let Some(frame) = frames.pop() {
            if frame.next < graph.leaving_at(frame.position, DependencyDirection::Forward) {
                let (number, far, _edge) = graph.look_at(
                    frame.position,
                    DependencyDirection::Forward,
                    frame.next,
                );
                frames.push(Frame {
                    position: frame.position,
                    next: frame.next + 1,
                })?;
                if is_kept(notes, number) && seen.insert_position(far) {
                    frames.push(Frame {
                        position: far,
                        next: 0,
                    })?;
                }
            } else {
                order.push(frame.position)?;
            }
        }
    }
    Ok(order)
}
