ghost use Rattle.std.specs.Prelude.{◌≡◌, ℕ, ◌<◌, ◌≤◌, [], length, IfOk, vec_capacity};
ghost use Rattle.guppy_search.specs.Resolve.{JudgesResolve, Visits, IsCallable};

use crate::dfs::search::reachable_with;
use crate::dfs::visitor::LinkVisitor;
use crate::graph_core::Graph;
use crate::ix::{DependencyDirection, GraphSpec, IxSet};
use std::alloc::{AllocError, Global};

/// A visitor around another one, which answers. It keeps a list of the links that it was shown,
/// each with the answer, as long as there is room.
#[derive(Drop)]
pub struct Recorder<V> {
    /// The visitor that answers.
    pub visitor: V,
    /// The links that were shown, by number, and the answers.
    pub entries: Vec<(usize, bool)>,
}

impl<V: Drop> Recorder<V> {
    /// Around this visitor, with no entry and room for so many.
    ///
    /// Takes memory for them. Fails only where there is none.
    pub fn new(alloc: Global, visitor: V, room: usize) -> Result<Self, AllocError>
        ensures visitor { IfOk result (λ r. r.visitor ≡ visitor) }
        ensures entries { IfOk result (λ r. r.entries.items ≡ []) }
        ensures room { IfOk result (λ r. room ≤ vec_capacity r.entries) }
    {
        let entries = Vec::with_capacity(alloc, room)?;
        Ok(Recorder { visitor, entries })
    }
}

impl<V: LinkVisitor> LinkVisitor for Recorder<V> {
    ghost use Rattle.std.specs.Prelude.{◌≡◌, ◌<◌, ◌≤◌, ◌++◌, ◌∷◌, [], length, vec_capacity};

    ghost visits = { λ s n b t. V.visits s.visitor n b t.visitor
        × (vec_capacity t.entries ≡ vec_capacity s.entries)
        × (length s.entries.items < vec_capacity s.entries
        → t.entries.items ≡ s.entries.items ++ (n, b) ∷ [])
        × (vec_capacity s.entries ≤ length s.entries.items → t.entries.items ≡ s.entries.items) };

    ghost place = { λ s. V.place s.visitor };

    ghost can_visit = { λ s n. V.can_visit s.visitor n };

    fn visit(&mut self, link: usize) -> bool {
        let answer = self.visitor.visit(link);
        if self.entries.len() < self.entries.capacity() {
            self.entries.push_reserved((link, answer));
        }
        answer
    }
}

/// [`reachable_with`](crate::dfs::reachable_with), and the whole trace: each link that was shown
/// with the visitor's answer, in the order in which they were shown.
///
/// Time grows with the nodes and the links that leave the result. Takes memory for the set, a
/// number a node and an entry a link, and fails only where there is none. A [`Recorder`] that is lent
/// to `reachable_with` is as it was then.
pub fn reachable_recorded<G: GraphSpec, V: LinkVisitor + Drop>(
    graph: &Graph<G>,
    initials: &IxSet<G>,
    direction: DependencyDirection,
    visitor: V,
) -> Result<(IxSet<G>, Recorder<V>), AllocError>
    requires count { length initials.now ≡ length graph.now.nodes }
    requires ready { IsCallable V.can_visit V.visits direction graph.now.links initials.now visitor }
    ensures count { IfOk result (λ r. length r.0 ≡ length graph.now.nodes) }
    ensures judged { IfOk result
        (λ r. JudgesResolve direction graph.now.links initials.now r.1.entries.items r.0) }
    ensures visits { IfOk result (λ r. Visits V.visits visitor r.1.entries.items r.1.visitor) }
{
    let mut recorder = Recorder::new(graph.alloc(), visitor, graph.link_count())?;
    let set = reachable_with(graph, initials, direction, &mut recorder)?;
    Ok((set, recorder))
}
