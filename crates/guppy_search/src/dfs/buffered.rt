ghost use Rattle.std.specs.Prelude.{◌≡◌, ◌⊎◌, ℕ, ◌+◌, ◌<◌, ◌≤◌, List, [], ◌++◌, length, IfOk, OnOk, OnErr, vec_capacity};
ghost use Rattle.guppy_search.specs.Graph.{IsGraph};
ghost use Rattle.guppy_search.specs.IxSet.{member_count, positions_in};
ghost use Rattle.guppy_search.specs.Links.{links_at};
ghost use Rattle.guppy_search.specs.Buffered.{Question, AreLinkNumbers, Adds, Answers, Asks, IsAskable, EndsInError, JudgesBuffered};
ghost use Rattle.guppy_search.specs.Buffering.{Takes, Stops, MayAskOn};

use crate::dfs::filter::BufferedEdgeFilter;
use crate::dfs::search::include;
use crate::graph_core::Graph;
use crate::ix::{DependencyDirection, GraphSpec, IndexType, IxSet};
use std::alloc::AllocError;

/// The positions that the initial ones lead to over the links that the filter hands back, the
/// initial ones among them.
///
/// The filter is asked once about each of these positions, after it was included, and once about
/// each link that leaves it, after that position. Each link that it hands back is followed to its far
/// end in the direction, whatever its other end is, and may be handed back any number of times. An
/// error that it answers ends the search at once.
///
/// The initial ones are a set of the graph's positions, and the filter takes each question that it is
/// asked in this way. Time grows with the nodes, the links that leave the result, and the links handed
/// back. Takes memory for the set and a number a node. `AllocError` comes where there is none, and
/// where the filter answers it; what the filter is like then is told by [`reachable_buffered_mut`].
pub fn reachable_buffered<G: GraphSpec, T: BufferedEdgeFilter<G> + Drop>(
    graph: &Graph<G>,
    initials: &IxSet<G>,
    direction: DependencyDirection,
    mut filter: T,
) -> Result<IxSet<G>, AllocError>
    requires count { length initials.now ≡ length graph.now.nodes }
    requires ready { IsAskable (T.can_discover graph.now) (T.can_filter graph.now)
        (Answers (T.discovers graph.now) (T.filters graph.now)) direction graph.now.links
        initials.now filter }
    ensures count { IfOk result (λ set. length set ≡ length graph.now.nodes) }
    ensures judged { IfOk result (λ set. (trace : List (Question × List ℕ)) × (last : T)
        × JudgesBuffered direction graph.now.links initials.now trace set
        × Asks (Answers (T.discovers graph.now) (T.filters graph.now)) filter trace last) }
{
    let set = reachable_buffered_mut(graph, initials, direction, &mut filter)?;
    Ok(set)
}

/// [`reachable_buffered`], with a filter that is lent: at the end it is as the questions left it.
///
/// Where it answers an error, that was the last question; where there is no memory for the search
/// itself, it is as it was.
pub fn reachable_buffered_mut<G: GraphSpec, T: BufferedEdgeFilter<G>>(
    graph: &Graph<G>,
    initials: &IxSet<G>,
    direction: DependencyDirection,
    filter: &mut T,
) -> Result<IxSet<G>, AllocError>
    requires count { length initials.now ≡ length graph.now.nodes }
    requires ready { IsAskable (T.can_discover graph.now) (T.can_filter graph.now)
        (Answers (T.discovers graph.now) (T.filters graph.now)) direction graph.now.links
        initials.now filter.old }
    ensures count { IfOk result (λ set. length set ≡ length graph.now.nodes) }
    ensures judged { IfOk result (λ set. (trace : List (Question × List ℕ))
        × JudgesBuffered direction graph.now.links initials.now trace set
        × Asks (Answers (T.discovers graph.now)
        (T.filters graph.now)) filter.old trace filter.new) }
    ensures refused { OnErr result ((filter.new ≡ filter.old)
        ⊎ EndsInError (Answers (T.discovers graph.now)
        (T.filters graph.now)) direction graph.now.links initials.now filter.old filter.new) }
    ensures same_place { T.place filter.new ≡ T.place filter.old }
{
    let mut set = initials.clone()?;
    let mut waiting = Vec::with_capacity(graph.alloc(), graph.node_count())?;
    for ix in initials.ones() {
        waiting.push_reserved(ix.index());
    }
    search(graph, direction, &mut set, &mut waiting, filter)?;
    Ok(set)
}

// The search itself, from the positions of the set, all of which wait. There is room for every
// position.
fn search<G: GraphSpec, T: BufferedEdgeFilter<G>>(
    graph: &Graph<G>,
    direction: DependencyDirection,
    set: &mut IxSet<G>,
    waiting: &mut Vec<usize>,
    filter: &mut T,
) -> Result<(), AllocError>
    requires graph { IsGraph graph.now }
    requires count { length set.old ≡ length graph.now.nodes }
    requires ready { IsAskable (T.can_discover graph.now) (T.can_filter graph.now)
        (Answers (T.discovers graph.now) (T.filters graph.now)) direction graph.now.links
        set.old filter.old }
    requires waiting { waiting.old.items ≡ positions_in set.old }
    requires room { length graph.now.nodes ≤ vec_capacity waiting.old }
    ensures count { length set.new ≡ length graph.now.nodes }
    ensures judged { OnOk result ((trace : List (Question × List ℕ))
        × JudgesBuffered direction graph.now.links set.old trace set.new
        × Asks (Answers (T.discovers graph.now)
        (T.filters graph.now)) filter.old trace filter.new) }
    ensures refused { OnErr result
        (EndsInError (Answers (T.discovers graph.now)
        (T.filters graph.now)) direction graph.now.links set.old filter.old filter.new) }
    ensures same_place { T.place filter.new ≡ T.place filter.old }
{
    'positions: while let Some(position) = waiting.pop() {
        let handed = filter.discover(graph, G::Ix::new(position))?;
        follow_all(graph, direction, handed, set, waiting);
        ask_links(graph, direction, position, set, waiting, filter)?;
    }
    Ok(())
}

// Asks the filter about the links that leave the position, and follows those that it hands back.
fn ask_links<G: GraphSpec, T: BufferedEdgeFilter<G>>(
    graph: &Graph<G>,
    direction: DependencyDirection,
    position: usize,
    set: &mut IxSet<G>,
    waiting: &mut Vec<usize>,
    filter: &mut T,
) -> Result<(), AllocError>
    requires position { position < length graph.now.nodes }
    requires count { length set.old ≡ length graph.now.nodes }
    requires ready { MayAskOn (T.can_filter graph.now)
        (Answers (T.discovers graph.now)
        (T.filters graph.now)) direction graph.now.links set.old waiting.old.items
        (links_at direction graph.now.links position) filter.old }
    requires room { length waiting.old.items + length set.old ≤ vec_capacity waiting.old +
        member_count set.old }
    ensures count { length set.new ≡ length graph.now.nodes }
    ensures asked { OnOk result ((asked : List (Question × List ℕ))
        × Asks (Answers (T.discovers graph.now) (T.filters graph.now)) filter.old asked filter.new
        × Takes direction graph.now.links asked set.old waiting.old.items
        (links_at direction graph.now.links position) set.new waiting.new.items []) }
    ensures refused { OnErr result
        (Stops (Answers (T.discovers graph.now)
        (T.filters graph.now)) direction graph.now.links set.old waiting.old.items
        (links_at direction graph.now.links position) filter.old filter.new) }
    ensures same_place { T.place filter.new ≡ T.place filter.old }
    ensures balance { length waiting.new.items + member_count set.old
        ≡ length waiting.old.items + member_count set.new }
    ensures capacity { vec_capacity waiting.new ≡ vec_capacity waiting.old }
{
    'links: for number in graph.links_at(position, direction) {
        let handed = filter.filter(graph, *number)?;
        follow_all(graph, direction, handed, set, waiting);
    }
    Ok(())
}

// Puts the far ends of the links into the set, and those that are new among the positions that wait.
fn follow_all<G: GraphSpec>(
    graph: &Graph<G>,
    direction: DependencyDirection,
    numbers: Vec<usize>,
    set: &mut IxSet<G>,
    waiting: &mut Vec<usize>,
)
    requires count { length set.old ≡ length graph.now.nodes }
    requires links { AreLinkNumbers graph.now.links numbers.items }
    requires room { length waiting.old.items + length set.old ≤ vec_capacity waiting.old +
        member_count set.old }
    ensures count { length set.new ≡ length set.old }
    ensures added { (added : List ℕ) × (waiting.new.items ≡ waiting.old.items ++ added)
        × Adds direction graph.now.links numbers.items set.old added set.new }
    ensures balance { length waiting.new.items + member_count set.old
        ≡ length waiting.old.items + member_count set.new }
    ensures capacity { vec_capacity waiting.new ≡ vec_capacity waiting.old }
{
    for number in &numbers {
        let far_end = graph.link(*number).far_end(direction);
        include(set, waiting, far_end);
    }
}
