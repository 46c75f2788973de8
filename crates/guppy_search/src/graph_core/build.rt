ghost use Rattle.std.specs.Prelude.{◌≡◌, ◌+◌, ◌<◌, length, map, IfOk, MatchOption, All};
ghost use Rattle.guppy_search.specs.Links.{EndsBelow, bare};
ghost use Rattle.guppy_search.specs.declared.graph_core.link.Link.{Link};
ghost use Rattle.guppy_search.specs.Stored.{ListsAre};
ghost use Rattle.guppy_search.specs.Pairs.{IsFirstTo, NoneTo, LeadApart, IsFirstAgain, SinglesBelow, IsFirstRepeat, IsFirstUnknown};

use crate::graph_core::link::Link;
use crate::graph_core::lists::LinkLists;
use crate::ix::DependencyDirection;
use std::alloc::{AllocError, Global};

/// The ends of the links alone.
pub(crate) fn ends_alone<E>(alloc: Global, links: &[Link<E>]) -> Result<Vec<Link<()>>, AllocError>
    ensures { IfOk result (λ ends. ends.items ≡ map bare links.now) }
{
    links
        .iter()
        .map(|link| Link {
            from: link.from,
            to: link.to,
            edge: (),
        })
        .collect(alloc)
}

/// The data of the links alone.
pub(crate) fn data_alone<E: Drop>(alloc: Global, links: Vec<Link<E>>) -> Result<Vec<E>, AllocError>
    ensures { IfOk result (λ edges. edges.items ≡ map (λ (l : Link E). l.edge) links.items) }
{
    links.into_iter().map(|link| link.edge).collect(alloc)
}

/// The first link that has an end which is no position.
pub(crate) fn first_unknown<E>(links: &[Link<E>], count: usize) -> Option<usize>
    ensures { MatchOption result (All (EndsBelow count) links.now)
        (IsFirstUnknown count links.now) }
{
    for (number, link) in links.iter().enumerate() {
        if link.has_unknown_end(count) {
            return Some(number);
        }
    }
    None
}

/// The number beside the first of the far ends that is the position.
pub(crate) fn number_to(row: &[usize], far_ends: &[u32], to: usize) -> Option<usize>
    requires { length far_ends.now ≡ length row.now }
    ensures { MatchOption result (NoneTo far_ends.now to (length row.now))
        (IsFirstTo row.now far_ends.now to) }
{
    for (place, far_end) in far_ends.iter().enumerate() {
        if *far_end as usize == to {
            return Some(row[place]);
        }
    }
    None
}

/// The number beside the first of the far ends that an earlier one is. The far ends up to there get
/// the mark.
fn first_again(row: &[usize], far_ends: &[u32], mark: usize, marks: &mut [usize]) -> Option<usize>
    requires beside { length far_ends.now ≡ length row.now }
    requires ends { All (λ p. p < length marks.old) far_ends.now }
    requires unused { All (λ m. m < mark) marks.old }
    ensures again { MatchOption result (LeadApart far_ends.now (length row.now))
        (IsFirstAgain row.now far_ends.now) }
    ensures used { All (λ m. m < mark + 1) marks.new }
    ensures len { length marks.new ≡ length marks.old }
{
    for (place, far_end) in far_ends.iter().enumerate() {
        let to = *far_end as usize;
        if marks[to] == mark {
            return Some(row[place]);
        }
        marks[to] = mark;
    }
    None
}

/// The first link with the ordered pair of an earlier one.
pub(crate) fn first_repeat<E>(
    alloc: Global,
    links: &[Link<E>],
    count: usize,
    forward: &LinkLists,
) -> Result<Option<usize>, AllocError>
    requires lists { ListsAre DependencyDirection.Forward count links.now forward.now.bounds.items
        forward.now.numbers.items forward.now.far.items }
    requires ends { All (EndsBelow count) links.now }
    ensures { IfOk result (λ r. MatchOption r (SinglesBelow links.now (length links.now))
        (IsFirstRepeat links.now)) }
{
    let mut marks = vec![in alloc; 0; count]?;
    let mut lowest = links.len();
    for position in 0..count {
        let row = forward.at(position);
        let far_ends = forward.far_at(position);
        if let Some(number) = first_again(row, far_ends, position + 1, marks.as_mut_slice()) {
            lowest = lowest.min(number);
        }
    }
    Ok((lowest < links.len()).then_some(lowest))
}
