//! Worked examples of IDs, paths, kinds and sorted sets, with ample memory.

use crate::cases::{hold, is_text};
use crate::owned::{id, path};
use crate::printed::prints;
use guppy_data::{Component, DependencyKind, SortedSet, Utf8Path, Utf8PathBuf};
use std::alloc::Global;
use std::cmp::Ordering;
use std::collections::HashSet;
use std::process::Abort;

#[test]
fn package_ids(rt: HostRuntime) {
    let first = id(&rt, rt.alloc(), "path+file:///a#0.1.0");
    let second = id(&rt, rt.alloc(), "path+file:///b#0.1.0");
    let name = "package_ids";
    is_text(&rt, name, first.repr(), "path+file:///a#0.1.0");
    hold(&rt, name, first != second);
    hold(&rt, name, first.cmp(&second) == Ordering::Less);
    let order = second.partial_cmp(&first);
    hold(&rt, name, order == Some(Ordering::Greater));
}

#[test]
fn copied_ids(rt: HostRuntime) {
    let name = "copied_ids";
    let other = id(&rt, rt.alloc(), "ab");
    let short = id(&rt, rt.alloc(), "a");
    let copy = short.clone().expect(&rt, name);
    hold(&rt, name, copy == short);
    let mut ids = HashSet::new(rt.alloc());
    ids.insert(short).expect(&rt, name);
    hold(&rt, name, ids.contains(&copy));
    hold(&rt, name, !ids.contains(&other));
}

const A: Component<'static> = Component::Normal("a");

const COMPONENTS: &[(&str, &[Component<'static>])] = &[
    ("", &[]),
    ("a/./b/", &[A, Component::Normal("b")]),
    ("./a", &[Component::CurDir, A]),
    ("//a/../.", &[Component::RootDir, A, Component::ParentDir]),
];

#[test]
fn path_components(rt: HostRuntime) {
    for (text, wanted) in COMPONENTS {
        let mut components = Utf8Path::new(text).components();
        for component in *wanted {
            assert!(rt; components.next() == Some(*component), "{text}");
        }
        assert!(rt; components.next().is_none(), "{text}");
    }
}

const ASCENDING: &[&str] = &["", "/", "/a", ".", "./c", "..", "a", "a/b", "a-b", "b"];

fn compares(rt: &impl Abort, lower: &Utf8PathBuf, upper: &Utf8PathBuf, order: Ordering) {
    assert!(rt; lower.cmp(upper) == order, "{lower} and {upper}");
    let as_paths = lower.as_path().cmp(&upper.as_path());
    assert!(rt; as_paths == order, "{lower} and {upper}");
}

fn compares_with_each(rt: &impl Abort, alloc: Global, place: usize, lower: &Utf8PathBuf) {
    for (i, upper) in ASCENDING.iter().enumerate() {
        let upper = path(rt, alloc, upper);
        compares(rt, lower, &upper, place.cmp(&i));
    }
}

#[test]
fn path_order(rt: HostRuntime) {
    for (place, lower) in ASCENDING.iter().enumerate() {
        let lower = path(&rt, rt.alloc(), lower);
        compares_with_each(&rt, rt.alloc(), place, &lower);
    }
}

const EQUAL_TO_A_B: &[(&str, bool)] = &[
    ("a/./b/", true),
    ("a//b", true),
    ("./a/b", false),
    ("a/b/..", false),
];

fn is_equal_to(
    rt: &impl Abort,
    asked: &Utf8PathBuf,
    first: &Utf8PathBuf,
    paths: &HashSet<Utf8PathBuf>,
    case: &(&str, bool),
) {
    let (text, is_equal) = case;
    is_text(rt, text, asked.as_path().as_str(), text);
    hold(rt, text, (asked == first) == *is_equal);
    let is_same_path = asked.as_path() == Utf8Path::new("a/b");
    hold(rt, text, is_same_path == *is_equal);
    hold(rt, text, paths.contains(asked) == *is_equal);
}

#[test]
fn equal_paths(rt: HostRuntime) {
    let first = path(&rt, rt.alloc(), "a/b");
    let mut paths = HashSet::new(rt.alloc());
    let inserted = path(&rt, rt.alloc(), "a/b");
    paths.insert(inserted).expect(&rt, "equal_paths");
    for case in EQUAL_TO_A_B {
        let asked = path(&rt, rt.alloc(), case.0);
        is_equal_to(&rt, &asked, &first, &paths, case);
    }
}

const KINDS: &[(DependencyKind, &str)] = &[
    (DependencyKind::Normal, "normal"),
    (DependencyKind::Development, "dev"),
    (DependencyKind::Build, "build"),
];

#[test]
fn dependency_kinds(rt: HostRuntime) {
    let values = [
        DependencyKind::Normal,
        DependencyKind::Development,
        DependencyKind::Build,
    ];
    hold(&rt, "dependency_kinds", *DependencyKind::VALUES == values);
    for (kind, text) in KINDS {
        is_text(&rt, "dependency_kinds", kind.to_str(), text);
        prints(&rt, rt.alloc(), "dependency_kinds", *kind, text);
    }
}

#[test]
fn set_of_a_kind(rt: HostRuntime) {
    let name = "set_of_a_kind";
    let mut seen = HashSet::new(rt.alloc());
    seen.insert(DependencyKind::Build).expect(&rt, name);
    hold(&rt, name, seen.contains(&DependencyKind::Build));
    hold(&rt, name, !seen.contains(&DependencyKind::Normal));
}

fn set_of(rt: &impl Abort, alloc: Global, items: &[u8]) -> SortedSet<u8> {
    SortedSet::new(items.to_vec(alloc).expect(rt, "a set"))
}

#[test]
fn sorted_sets(rt: HostRuntime) {
    let set = set_of(&rt, rt.alloc(), &[5, 1, 3, 1, 5]);
    hold(&rt, "sorted_sets", set.as_slice() == [1, 3, 5].as_slice());
    for item in 0..7 {
        let is_member = item == 1 || item == 3 || item == 5;
        assert!(rt; set.contains(&item) == is_member, "sorted_sets: {item}");
    }
}

#[test]
fn sets_of_items(rt: HostRuntime) {
    let name = "sets_of_items";
    let set = set_of(&rt, rt.alloc(), &[5, 1, 3, 1, 5]);
    let other = set_of(&rt, rt.alloc(), &[1, 3]);
    let items = [3, 5, 3, 1].iter().copied();
    let same = SortedSet::from_items(rt.alloc(), items).expect(&rt, name);
    hold(&rt, name, set == same);
    hold(&rt, name, set != other);
    let items = same.into_inner();
    hold(&rt, name, items.as_slice() == [1, 3, 5].as_slice());
}

#[test]
fn sets_of_ids(rt: HostRuntime) {
    let name = "sets_of_ids";
    let mut ids = Vec::new(rt.alloc());
    for text in ["b", "a", "b"] {
        ids.push(id(&rt, rt.alloc(), text)).expect(&rt, name);
    }
    let ids = SortedSet::new(ids);
    let asked = id(&rt, rt.alloc(), "a");
    hold(&rt, name, ids.as_slice().len() == 2);
    hold(&rt, name, ids.contains(&asked));
}
