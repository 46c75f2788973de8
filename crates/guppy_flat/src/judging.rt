//! Whether a trace and a set are those of a resolve that somebody else walked.
ghost use Rattle.std.specs.Prelude.{◌≡◌, ◌↔◌, ℕ, ◌<◌, All, Contains, true, length, IfOk, IfSome, MatchOption};
ghost use Rattle.std.specs.List.{zip};
ghost use Rattle.guppy_search.specs.IxSet.{has, IsIn};
ghost use Rattle.guppy_search.specs.Links.{near_end, far_end};
ghost use Rattle.guppy_search.specs.Resolve.{IsIncluded, LeavesOne, ShownInTime, JudgesResolve};
ghost use Rattle.guppy_flat.specs.Flat.{unflagged, plain};
ghost use Rattle.guppy_flat.specs.Judging.{EachOnce, ShowsLeaving, IncludesExactly};

use crate::flat::Ends;
use guppy_core::DependencyDirection;
use std::alloc::{AllocError, Global};

// The end that the link leaves in the direction.
fn near(link: Ends, direction: DependencyDirection) -> usize
    ensures { result ≡ near_end direction (unflagged link) }
{
    match direction {
        DependencyDirection::Forward => link.from as usize,
        DependencyDirection::Reverse => link.to as usize,
    }
}

// The end that it leads to.
fn far(link: Ends, direction: DependencyDirection) -> usize
    ensures { result ≡ far_end direction (unflagged link) }
{
    match direction {
        DependencyDirection::Forward => link.to as usize,
        DependencyDirection::Reverse => link.from as usize,
    }
}

// Whether each is the number of one of so many links.
fn all_below(shown: &[usize], count: usize) -> bool
    ensures { (result ≡ true) ↔ All (λ n. n < count) shown.now }
{
    shown.iter().all(|number| *number < count)
}

// A mark for each of so many links, at those shown and nowhere else; none where one is shown twice.
fn marks_of(alloc: Global, shown: &[usize], count: usize) -> Result<Option<Vec<bool>>, AllocError>
    requires { All (λ n. n < count) shown.now }
    ensures once { IfOk result
        (λ found. MatchOption found (¬ EachOnce shown.now) (λ _. EachOnce shown.now)) }
    ensures size { IfOk result (λ found. IfSome found (λ marks. length marks.items ≡ count)) }
    ensures marked { IfOk result (λ found. IfSome found
        (λ marks. (n : ℕ) → IsIn marks.items n ↔ Contains shown.now n)) }
{
    let mut marks = vec![in alloc; false; count]?;
    for place in 0..shown.len() {
        let number = shown[place];
        if marks[number] {
            return Ok(None);
        }
        marks[number] = true;
    }
    Ok(Some(marks))
}

// Whether there is such a position, and it is marked.
fn is_marked(marks: &[bool], position: usize) -> bool
    ensures { result ≡ has marks.now position }
{
    position < marks.len() && marks[position]
}

// Whether the links that leave the set are marked, and no other.
fn leaving_are_marked(
    links: &[Ends],
    direction: DependencyDirection,
    marks: &[bool],
    set: &[bool],
) -> bool
    requires { length marks.now ≡ length links.now }
    ensures { (result ≡ true) ↔ ((n : ℕ) → n < length links.now
        → IsIn marks.now n ↔ LeavesOne direction (plain links.now) (IsIn set.now) n) }
{
    for number in 0..links.len() {
        let leaves = is_marked(set, near(links[number], direction));
        if marks[number] != leaves {
            return false;
        }
    }
    true
}

// Whether the links shown are those that leave the set, each once.
fn shown_are_leaving(
    alloc: Global,
    links: &[Ends],
    direction: DependencyDirection,
    shown: &[usize],
    set: &[bool],
) -> Result<bool, AllocError>
    requires { All (λ n. n < length links.now) shown.now }
    ensures { IfOk result (λ holds. (holds ≡ true) ↔ (EachOnce shown.now
        × ShowsLeaving direction (plain links.now) set.now shown.now)) }
{
    match marks_of(alloc, shown, links.len())? {
        Some(marks) => Ok(leaving_are_marked(links, direction, marks.as_slice(), set)),
        None => Ok(false),
    }
}

// Whether the set has exactly the starts and what accepted links lead to.
fn included_exactly(
    alloc: Global,
    links: &[Ends],
    direction: DependencyDirection,
    starts: &[bool],
    shown: &[usize],
    answers: &[bool],
    set: &[bool],
) -> Result<bool, AllocError>
    requires answers { length answers.now ≡ length shown.now }
    requires below { All (λ n. n < length links.now) shown.now }
    requires set { length set.now ≡ length starts.now }
    ensures { IfOk result (λ holds. (holds ≡ true)
        ↔ IncludesExactly direction (plain links.now) starts.now
        (zip shown.now answers.now) set.now) }
{
    let mut marks = starts.to_vec(alloc)?;
    for place in 0..shown.len() {
        if answers[place] {
            let end = far(links[shown[place]], direction);
            if end >= marks.len() {
                return Ok(false);
            }
            marks[end] = true;
        }
    }
    Ok(marks.as_slice() == set)
}

// Whether the end that each link leaves is a start, or one that an accepted link shown earlier leads to.
fn led_to_before(
    alloc: Global,
    links: &[Ends],
    direction: DependencyDirection,
    starts: &[bool],
    shown: &[usize],
    answers: &[bool],
) -> Result<bool, AllocError>
    requires answers { length answers.now ≡ length shown.now }
    requires below { All (λ n. n < length links.now) shown.now }
    requires ends { (p : ℕ) → IsIncluded direction (plain links.now) starts.now
        (zip shown.now answers.now) p → p < length starts.now }
    ensures { IfOk result (λ holds. (holds ≡ true)
        ↔ ShownInTime direction (plain links.now) starts.now (zip shown.now answers.now)) }
{
    let mut marks = starts.to_vec(alloc)?;
    for place in 0..shown.len() {
        let link = links[shown[place]];
        if !is_marked(marks.as_slice(), near(link, direction)) {
            return Ok(false);
        }
        if answers[place] {
            marks[far(link, direction)] = true;
        }
    }
    Ok(true)
}

/// Whether a resolve from the marked starts in the direction shows these links, in their order, with these
/// answers, and includes the marked set: no link is shown twice, one is shown exactly if the end that it
/// leaves is in the set, and only after that end is a start or an accepted link led to it, and the set has
/// exactly the starts and what accepted links lead to. There is an answer for each number shown, and a mark of
/// the set for each of the starts' positions.
///
/// Nothing is refused: `false` where a number is no link's, or an accepted link leads to no position; the
/// ends of the other links may be anything. Time grows with positions, links and the trace. Takes memory for
/// a byte a link, and then for a byte a position, and fails only where there is none.
pub fn judge(
    alloc: Global,
    links: &[Ends],
    starts: &[bool],
    shown: &[usize],
    answers: &[bool],
    set: &[bool],
    direction: DependencyDirection,
) -> Result<bool, AllocError>
    requires answers { length answers.now ≡ length shown.now }
    requires set { length set.now ≡ length starts.now }
    ensures { IfOk result (λ holds. (holds ≡ true)
        ↔ JudgesResolve direction (plain links.now) starts.now
        (zip shown.now answers.now) set.now) }
{
    if !all_below(shown, links.len()) {
        return Ok(false);
    }
    if !shown_are_leaving(alloc, links, direction, shown, set)? {
        return Ok(false);
    }
    if !included_exactly(alloc, links, direction, starts, shown, answers, set)? {
        return Ok(false);
    }
    led_to_before(alloc, links, direction, starts, shown, answers)
}
