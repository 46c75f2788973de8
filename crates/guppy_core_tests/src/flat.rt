//! The calls of `guppy_flat`. Two depends on zero, which depends on one and back; one has a link to itself.

ghost use Rattle.std.specs.Prelude.{◌≡◌, length};

use guppy_flat::{
    DependencyDirection, Ends, GraphFault, components, cycle, judge, links, order, reach, roots,
};

const LINKS: [Ends; 4] = [
    Ends { from: 2, to: 0 },
    Ends { from: 0, to: 1 },
    Ends { from: 1, to: 0 },
    Ends { from: 1, to: 1 },
];

// All but the link back.
const FLAGS: [bool; 4] = [true, true, false, true];

#[test]
fn what_links_lead_to(rt: HostRuntime) {
    let mut marks = [false; 3];
    let starts = [true, false, false];
    let forward = DependencyDirection::Forward;
    let reached = reach(rt.alloc(), &LINKS, &FLAGS, &starts, forward, &mut marks);
    assert!(rt; reached == Ok(()) && marks == [true, true, false]);
    let reverse = DependencyDirection::Reverse;
    let reached = reach(rt.alloc(), &LINKS, &FLAGS, &starts, reverse, &mut marks);
    assert!(rt; reached == Ok(()) && marks == [true, false, true]);
}

#[test]
fn orders_and_components(rt: HostRuntime) {
    let mut list = [0; 3];
    let mut firsts = [false; 3];
    let ordered = order(rt.alloc(), &LINKS, &FLAGS, &mut list);
    assert!(rt; ordered == Ok(()) && list == [2, 0, 1]);
    let parted = components(rt.alloc(), &LINKS, &FLAGS, &mut list, &mut firsts);
    assert!(rt; parted == Ok(()) && list == [2, 0, 1] && firsts == [true, true, false]);
}

#[test]
fn roots_and_links_of_a_set(rt: HostRuntime) {
    let mut marks = [false; 3];
    let set = [true; 3];
    let forward = DependencyDirection::Forward;
    let rooted = roots(rt.alloc(), &LINKS, &set, forward, &mut marks);
    assert!(rt; rooted == Ok(()) && marks == [false, false, true]);
    let walked = links(rt.alloc(), &LINKS, &set, forward).expect(&rt, "links");
    assert!(rt; walked.len() == 4 && walked.first() == Some(&0));
}

#[test]
fn cycles(rt: HostRuntime) {
    let mut list = [9; 3];
    let none = cycle(rt.alloc(), &LINKS, &FLAGS, &mut list);
    assert!(rt; none == Ok(None) && list == [9; 3]);
    let round = cycle(rt.alloc(), &LINKS, &[true; 4], &mut list);
    assert!(rt; round == Ok(Some(2)) && list == [0, 1, 9]);
}

#[test]
fn faults(rt: HostRuntime) {
    let mut list = [9; 2];
    let unknown = order(rt.alloc(), &LINKS, &FLAGS, &mut list);
    assert!(rt; unknown == Err(GraphFault::UnknownEnd(0)) && list == [9; 2]);
    let twice = [Ends { from: 0, to: 1 }, Ends { from: 0, to: 1 }];
    let repeated = order(rt.alloc(), &twice, &[true; 2], &mut list);
    assert!(rt; repeated == Err(GraphFault::RepeatedLink(1)) && list == [9; 2]);
}

// Whether a resolve from two shows these links, in this order, with these answers, and includes this set.
fn is_resolve(rt: &HostRuntime, shown: &[usize], answers: &[bool], set: &[bool]) -> bool
    requires answers { length answers.now ≡ length shown.now }
    requires set { length set.now ≡ 3 }
{
    let starts = [false, false, true];
    let forward = DependencyDirection::Forward;
    judge(rt.alloc(), &LINKS, &starts, shown, answers, set, forward) == Ok(true)
}

// It accepts the link to zero, and refuses the one to one.
#[test]
fn resolves_are_judged(rt: HostRuntime) {
    let set = [true, false, true];
    assert!(rt; is_resolve(&rt, &[0, 1], &[true, false], &set));
    let is_too_early = is_resolve(&rt, &[1, 0], &[false, true], &set);
    let is_shown_twice = is_resolve(&rt, &[0, 0, 1], &[true, true, false], &set);
    let is_missing = is_resolve(&rt, &[0], &[true], &set);
    let is_larger = is_resolve(&rt, &[0, 1], &[true, false], &[true; 3]);
    let is_unknown = is_resolve(&rt, &[0, 4], &[true, false], &set);
    assert!(rt; !is_too_early && !is_shown_twice && !is_missing && !is_larger && !is_unknown);
}
