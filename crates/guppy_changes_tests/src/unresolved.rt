//! Which optional dependency is the first that is switched on and isn't resolved.

use crate::states::{graph_of, unix};
use guppy_built::{BuildQuestion, BuiltFault, built_packages};
use guppy_features::{CargoResolverVersion, StandardFeatures};
use std::alloc::{AllocError, Global};
use std::process::Abort;

// What it shows, a state, the features that are asked for, whether tests are built, and the package and the name of the
// first that isn't resolved, or nothing where all are. Members are built with their default features, by resolver 2, for
// `unix`.
const CASES: [(&str, &str, &[&str], bool, &str); 22] = [
    ("on, with no link", "+a ?x f=dep:x", &["f"], false, "a x"),
    ("off, with no link", "+a ?x f=dep:x", &[], false, ""),
    (
        "on by default",
        "+a ?x default=x x=dep:x",
        &[],
        false,
        "a x",
    ),
    (
        "on, with a link",
        "+a ?b f=dep:b b a>b:opt",
        &["f"],
        false,
        "",
    ),
    (
        "on, with a link for building",
        "+a ?b f=dep:b b a>b:opt:build",
        &["f"],
        false,
        "",
    ),
    (
        "on, of another platform",
        "+a ?b f=dep:b b a>b:opt:on=cfg(windows)",
        &["f"],
        false,
        "",
    ),
    ("renamed", "+a ?x f=dep:x b a>b:opt:as=x", &["f"], false, ""),
    // The link is that of another dependency on the same package.
    (
        "a link under another name",
        "+a ?x f=dep:x b a>b:opt",
        &["f"],
        false,
        "a x",
    ),
    (
        "a link of a required one alone",
        "+a ?b f=dep:b b a>b:build",
        &["f"],
        false,
        "a b",
    ),
    (
        "on by a dependency's feature",
        "+a ?x f=x/g",
        &["f"],
        false,
        "a x",
    ),
    ("not on by a weak one", "+a ?x f=x?/g", &["f"], false, ""),
    (
        "on by x/F of the command line",
        "+a ?x x=dep:x",
        &["x/g"],
        false,
        "a x",
    ),
    (
        "the first of the record",
        "+a ?x ?y f=dep:y,dep:x",
        &["f"],
        false,
        "a x",
    ),
    (
        "the first that is on",
        "+a ?x ?y f=dep:y",
        &["f"],
        false,
        "a y",
    ),
    (
        "the first by position",
        "b ?y f=dep:y +a ?x f=dep:x a>b:with=f",
        &["f"],
        false,
        "b y",
    ),
    (
        "of a dependency",
        "+a b ?x f=dep:x a>b:with=f",
        &[],
        false,
        "b x",
    ),
    (
        "of what takes no part",
        "+a b ?x default=dep:x",
        &[],
        false,
        "",
    ),
    (
        "of what is off on the platform",
        "+a b ?x default=dep:x a>b:on=cfg(windows)",
        &[],
        false,
        "",
    ),
    (
        "of what is needed to build",
        "+a b ?x f=dep:x a>b:build:with=f",
        &[],
        false,
        "b x",
    ),
    (
        "for development, without tests",
        "+a b ?x f=dep:x a>b:dev:with=f",
        &[],
        false,
        "",
    ),
    (
        "for development, with tests",
        "+a b ?x f=dep:x a>b:dev:with=f",
        &[],
        true,
        "b x",
    ),
    (
        "for development of what is no member",
        "+a b c ?x f=dep:x a>b b>c:dev:with=f",
        &[],
        true,
        "",
    ),
];

// The package and the name, nothing where all are resolved, and else another fault.
fn told<T: Drop>(alloc: Global, answer: Result<T, BuiltFault<'_>>) -> Result<String, AllocError> {
    match answer {
        Ok(_) => Ok(String::new(alloc)),
        Err(
            BuiltFault::Unresolved {
                package,
                dependency,
            },
        ) => format!(in alloc; "{package} {dependency}"),
        Err(fault) => format!(in alloc; "{fault:?}"),
    }
}

fn assert_first(
    rt: &impl Abort,
    alloc: Global,
    case: &str,
    state: &str,
    features: &[&str],
    tests: bool,
    wanted: &str,
) {
    let platforms = unix(rt, alloc);
    let graph = graph_of(rt, alloc, state);
    let question = BuildQuestion {
        members: &[],
        features,
        standard: StandardFeatures::Default,
        tests,
        resolver: CargoResolverVersion::V2,
        target_platform: &platforms,
        host_platform: &platforms,
    };
    let answer = built_packages(alloc, &graph, &question);
    let first = told(alloc, answer).expect(rt, case);
    assert!(rt; first.as_str() == wanted, "{case}: {first}");
}

#[test]
fn unresolved(rt: HostRuntime) {
    for (case, state, features, tests, wanted) in CASES {
        assert_first(&rt, rt.alloc(), case, state, features, tests, wanted);
    }
}
