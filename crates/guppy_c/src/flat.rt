//! Answers about a graph that the caller holds as slices: those of `guppy_flat`, where time and memory are
//! said, with a status in place of each error. Lengths are tested first.
ghost use Rattle.std.specs.Prelude.{◌≡◌, ◌≢◌, ◌<◌, ◌≤◌, ◌↔◌, ◌⊎◌, ℕ, List, Bool, true, false, length, take};
ghost use Rattle.std.specs.List.{zip};
ghost use Rattle.guppy_search.specs.Resolve.{JudgesResolve};
ghost use Rattle.guppy_search.specs.declared.graph_core.graph.GraphFault.TheVariants.{OutOfMemory};
ghost use Rattle.guppy_search.specs.declared.graph_core.link.Link.{Link};
ghost use Rattle.guppy_search.specs.declared.ix.direction.DependencyDirection.TheVariants.{Forward};
ghost use Rattle.guppy_core.specs.Cycle.{IsAcyclic, IsCycle};
ghost use Rattle.guppy_flat.specs.Flat.{flagged, plain, IsFlatFault, MakeGraph};
ghost use Rattle.guppy_flat.specs.Ordering.{IsOrdered, MarksFirsts};
ghost use Rattle.guppy_flat.specs.Search.{FlaggedStep, IsReached};
ghost use Rattle.guppy_flat.specs.Sets.{AreSetLinks, MarksRoots};
ghost use Rattle.guppy_c.specs.Flat.{direction_of, TellsFault};

use guppy_flat::{DependencyDirection, Ends, GraphFault};
use std::alloc::Global;

/// How a call ended.
#[repr(C)]
#[derive(Clone, Copy, Debug, PartialEq, Eq)]
pub struct Outcome {
    /// 0: answered. 1: the lengths of the slices don't fit. 2: there are too many positions. 3: there are
    /// too many links. 4: an end of a link is no position. 5: a link has the ends of an earlier one. 6: there
    /// was no memory, and 1 to 4 aren't so.
    pub status: u32,
    /// At 4 and 5 the number of the first such link, else 0.
    pub link: usize,
}

// The direction from dependents to dependencies, or the other one.
fn direction(forward: bool) -> DependencyDirection
    ensures { result ≡ direction_of forward }
{
    if forward {
        DependencyDirection::Forward
    } else {
        DependencyDirection::Reverse
    }
}

// How a call ends that found the fault.
fn told(fault: GraphFault) -> Outcome
    ensures tells { (count : ℕ) (links : List (Link Bool)) → IsFlatFault count links fault
        → TellsFault count links result }
    ensures memory { (result.status ≡ 6) ↔ (fault ≡ OutOfMemory) }
    ensures at_least { 2 ≤ result.status }
    ensures at_most { result.status ≤ 6 }
{
    match fault {
        GraphFault::TooManyNodes => Outcome { status: 2, link: 0 },
        GraphFault::TooManyLinks => Outcome { status: 3, link: 0 },
        GraphFault::UnknownEnd(link) => Outcome { status: 4, link },
        GraphFault::RepeatedLink(link) => Outcome { status: 5, link },
        GraphFault::OutOfMemory => Outcome { status: 6, link: 0 },
    }
}

/// Marks the positions that flagged links lead to from the marked starts, the starts among them, and no
/// other; from dependents to dependencies where `forward` says so, else the other way. There is a flag for
/// each link, and a mark for each of the starts' positions.
#[unsafe(no_mangle)]
pub extern "C" fn guppy_reach(
    alloc: Global,
    links: &[Ends],
    flags: &[bool],
    starts: &[bool],
    forward: bool,
    marks: &mut [bool],
) -> Outcome
    ensures reached { result.status ≡ 0 → IsReached (direction_of forward)
        (flagged links.now flags.now) starts.now marks.new }
    ensures status { result.status ≤ 6 }
    ensures lengths { (result.status ≡ 1)
        ↔ ((length flags.now ≢ length links.now) ⊎ (length marks.old ≢ length starts.now)) }
    ensures graph { result.status ≡ 0
        → MakeGraph (length starts.now) (flagged links.now flags.now) }
    ensures fault { TellsFault (length starts.now) (flagged links.now flags.now) result }
    ensures unchanged { result.status ≢ 0 → marks.new ≡ marks.old }
{
    if flags.len() != links.len() || marks.len() != starts.len() {
        return Outcome { status: 1, link: 0 };
    }
    match guppy_flat::reach(alloc, links, flags, starts, direction(forward), marks) {
        Ok(()) => Outcome { status: 0, link: 0 },
        Err(fault) => told(fault),
    }
}

/// Writes all positions, each once: components together, and of a link between two components the
/// position that it leaves first. Where the flagged links have no cycle but self-links, of each of these
/// too. There is a flag for each link, and as many positions as places in the list.
#[unsafe(no_mangle)]
pub extern "C" fn guppy_order(
    alloc: Global,
    links: &[Ends],
    flags: &[bool],
    list: &mut [u32],
) -> Outcome
    ensures order { result.status ≡ 0
        → IsOrdered (flagged links.now flags.now) (length list.old) list.new }
    ensures status { result.status ≤ 6 }
    ensures lengths { (result.status ≡ 1) ↔ (length flags.now ≢ length links.now) }
    ensures graph { result.status ≡ 0
        → MakeGraph (length list.old) (flagged links.now flags.now) }
    ensures fault { TellsFault (length list.old) (flagged links.now flags.now) result }
    ensures unchanged { result.status ≢ 0 → list.new ≡ list.old }
{
    if flags.len() != links.len() {
        return Outcome { status: 1, link: 0 };
    }
    match guppy_flat::order(alloc, links, flags, list) {
        Ok(()) => Outcome { status: 0, link: 0 },
        Err(fault) => told(fault),
    }
}

/// Writes all positions as `guppy_order` does, and marks the places of the list at which a component
/// begins. There is a flag for each link, and a mark for each place of the list.
#[unsafe(no_mangle)]
pub extern "C" fn guppy_components(
    alloc: Global,
    links: &[Ends],
    flags: &[bool],
    list: &mut [u32],
    firsts: &mut [bool],
) -> Outcome
    ensures order { result.status ≡ 0
        → IsOrdered (flagged links.now flags.now) (length list.old) list.new }
    ensures firsts { result.status ≡ 0
        → MarksFirsts (flagged links.now flags.now) list.new firsts.new }
    ensures status { result.status ≤ 6 }
    ensures lengths { (result.status ≡ 1)
        ↔ ((length flags.now ≢ length links.now) ⊎ (length firsts.old ≢ length list.old)) }
    ensures graph { result.status ≡ 0
        → MakeGraph (length list.old) (flagged links.now flags.now) }
    ensures fault { TellsFault (length list.old) (flagged links.now flags.now) result }
    ensures unchanged { result.status ≢ 0 → list.new ≡ list.old }
    ensures unmarked { result.status ≢ 0 → firsts.new ≡ firsts.old }
{
    if flags.len() != links.len() || firsts.len() != list.len() {
        return Outcome { status: 1, link: 0 };
    }
    match guppy_flat::components(alloc, links, flags, list, firsts) {
        Ok(()) => Outcome { status: 0, link: 0 },
        Err(fault) => told(fault),
    }
}

/// Marks the roots of the marked set, and no other position: those whose component no link inside the
/// set enters from another one; a link enters what it leads to where `forward` says so, else what it
/// leaves. There is a mark for each of the set's positions.
#[unsafe(no_mangle)]
pub extern "C" fn guppy_roots(
    alloc: Global,
    links: &[Ends],
    set: &[bool],
    forward: bool,
    marks: &mut [bool],
) -> Outcome
    ensures roots { result.status ≡ 0
        → MarksRoots (direction_of forward) (plain links.now) set.now marks.new }
    ensures status { result.status ≤ 6 }
    ensures lengths { (result.status ≡ 1) ↔ (length marks.old ≢ length set.now) }
    ensures graph { result.status ≡ 0 → MakeGraph (length set.now) (plain links.now) }
    ensures fault { TellsFault (length set.now) (plain links.now) result }
    ensures unchanged { result.status ≢ 0 → marks.new ≡ marks.old }
{
    if marks.len() != set.len() {
        return Outcome { status: 1, link: 0 };
    }
    match guppy_flat::roots(alloc, links, set, direction(forward), marks) {
        Ok(()) => Outcome { status: 0, link: 0 },
        Err(fault) => told(fault),
    }
}

/// How a call ended that writes a list of its own length.
#[repr(C)]
#[derive(Clone, Copy, Debug, PartialEq, Eq)]
pub struct Listed {
    /// How the call ended. Its status 7: there are too few places for the list.
    pub outcome: Outcome,
    /// How long the list is, at 0 and 7, else 0.
    pub len: usize,
}

/// Writes a cycle over flagged links to the front of the list: two or more positions, each once, each with
/// a flagged link to the next, and the last with one to the first. There is a flag for each link, and as many
/// positions as places in the list. None is a list of no positions.
#[unsafe(no_mangle)]
pub extern "C" fn guppy_cycle(
    alloc: Global,
    links: &[Ends],
    flags: &[bool],
    list: &mut [u32],
) -> Listed
    ensures none { result.outcome.status ≡ 0 → result.len ≡ 0
        → IsAcyclic (FlaggedStep Forward (flagged links.now flags.now)) }
    ensures cycle { result.outcome.status ≡ 0 → result.len ≢ 0
        → IsCycle (FlaggedStep Forward (flagged links.now flags.now)) (take result.len list.new) }
    ensures room { result.len ≤ length list.new }
    ensures status { result.outcome.status ≤ 6 }
    ensures len { result.outcome.status ≢ 0 → result.len ≡ 0 }
    ensures lengths { (result.outcome.status ≡ 1) ↔ (length flags.now ≢ length links.now) }
    ensures graph { result.outcome.status ≡ 0
        → MakeGraph (length list.old) (flagged links.now flags.now) }
    ensures fault { TellsFault (length list.old) (flagged links.now flags.now) result.outcome }
{
    if flags.len() != links.len() {
        return Listed {
            outcome: Outcome { status: 1, link: 0 },
            len: 0,
        };
    }
    match guppy_flat::cycle(alloc, links, flags, list) {
        Ok(found) => Listed {
            outcome: Outcome { status: 0, link: 0 },
            len: found.unwrap_or(0),
        },
        Err(fault) => Listed {
            outcome: told(fault),
            len: 0,
        },
    }
}

// Puts the numbers to the front of the list, where there is room.
fn put(found: &[usize], numbers: &mut [usize]) -> Listed
    ensures written { result.outcome.status ≡ 0
        → (result.len ≡ length found.now) × (take result.len numbers.new ≡ found.now) }
    ensures status { (result.outcome.status ≡ 0) ⊎ (result.outcome.status ≡ 7) }
    ensures no_link { result.outcome.link ≡ 0 }
    ensures room { result.outcome.status ≡ 7
        → (length numbers.old < result.len) × (result.len ≡ length found.now) }
    ensures unchanged { result.outcome.status ≢ 0 → numbers.new ≡ numbers.old }
{
    let len = found.len();
    if len > numbers.len() {
        return Listed {
            outcome: Outcome { status: 7, link: 0 },
            len,
        };
    }
    numbers[..len].copy_from_slice(found);
    Listed {
        outcome: Outcome { status: 0, link: 0 },
        len,
    }
}

/// Writes the numbers of the links inside the marked set that are walked from its roots to the front of
/// `numbers`, each once: one whose leaving end is no root after a link that leads to that end. Where the set
/// holds each component that it touches, these are all links inside. A place for each link always does.
#[unsafe(no_mangle)]
pub extern "C" fn guppy_links(
    alloc: Global,
    links: &[Ends],
    set: &[bool],
    forward: bool,
    numbers: &mut [usize],
) -> Listed
    ensures links { result.outcome.status ≡ 0 → AreSetLinks (direction_of forward)
        (plain links.now) set.now (take result.len numbers.new) }
    ensures room { result.outcome.status ≡ 7 → (length numbers.old < result.len)
        × (list : List ℕ) × (result.len ≡ length list)
        × AreSetLinks (direction_of forward) (plain links.now) set.now list }
    ensures status { result.outcome.status ≤ 7 }
    ensures len { result.outcome.status ≢ 0 → result.outcome.status ≢ 7 → result.len ≡ 0 }
    ensures lengths { result.outcome.status ≢ 1 }
    ensures graph { (result.outcome.status ≡ 0) ⊎ (result.outcome.status ≡ 7)
        → MakeGraph (length set.now) (plain links.now) }
    ensures fault { TellsFault (length set.now) (plain links.now) result.outcome }
    ensures unchanged { result.outcome.status ≢ 0 → numbers.new ≡ numbers.old }
{
    match guppy_flat::links(alloc, links, set, direction(forward)) {
        Ok(found) => put(found.as_slice(), numbers),
        Err(fault) => Listed {
            outcome: told(fault),
            len: 0,
        },
    }
}

/// Whether what was walked is a resolve.
#[repr(C)]
#[derive(Clone, Copy, Debug, PartialEq, Eq)]
pub struct Judged {
    /// How the call ended, with 0, 1 or 6.
    pub outcome: Outcome,
    /// At 0 whether it is, else `false`.
    pub holds: bool,
}

/// Tells whether a walk from the marked starts that showed somebody links, in the order of their numbers in
/// `shown`, with their answers, and ended with the marked set, is a resolve: no link is shown twice; exactly those
/// are shown that leave a position of the set, each after this was a start or an accepted link had led to it; and
/// the set has exactly the starts and what accepted links lead to. From dependents to dependencies where `forward`
/// says so, else the other way. There is an answer for each number shown, and a mark of the set for each of the
/// starts' positions.
///
/// No link is refused: it is no resolve where a number is no link's, or an accepted link leads to no position.
#[unsafe(no_mangle)]
pub extern "C" fn guppy_judge(
    alloc: Global,
    links: &[Ends],
    starts: &[bool],
    shown: &[usize],
    answers: &[bool],
    set: &[bool],
    forward: bool,
) -> Judged
    ensures judged { result.outcome.status ≡ 0 → (result.holds ≡ true)
        ↔ JudgesResolve (direction_of forward) (plain links.now) starts.now
        (zip shown.now answers.now) set.now }
    ensures status { (result.outcome.status ≡ 0) ⊎ (result.outcome.status ≡ 1)
        ⊎ (result.outcome.status ≡ 6) }
    ensures no_link { result.outcome.link ≡ 0 }
    ensures lengths { (result.outcome.status ≡ 1)
        ↔ ((length answers.now ≢ length shown.now) ⊎ (length set.now ≢ length starts.now)) }
    ensures unanswered { result.outcome.status ≢ 0 → result.holds ≡ false }
{
    if answers.len() != shown.len() || set.len() != starts.len() {
        return Judged {
            outcome: Outcome { status: 1, link: 0 },
            holds: false,
        };
    }
    match guppy_flat::judge(
        alloc,
        links,
        starts,
        shown,
        answers,
        set,
        direction(forward),
    ) {
        Ok(holds) => Judged {
            outcome: Outcome { status: 0, link: 0 },
            holds,
        },
        Err(_) => Judged {
            outcome: Outcome { status: 6, link: 0 },
            holds: false,
        },
    }
}
