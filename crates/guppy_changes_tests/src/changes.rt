//! Which packages of a state aren't as they were in another one.

use crate::states::{graph_of, unix};
use guppy_changes::{BuildSetting, changed_packages};
use guppy_data::PackageId;
use guppy_features::{CargoResolverVersion, StandardFeatures};
use std::alloc::Global;
use std::process::Abort;

// What it shows, the state before, the state now, and the packages of this one that changed, in its order. Members are
// built with their default features and with tests, by resolver 2, for `unix`.
const OF_PACKAGES: [(&str, &str, &str, &str); 13] = [
    ("everything equal", "+a b a>b", "+a b a>b", ""),
    ("another order", "+a b c a>b b>c", "c b +a b>c a>b", ""),
    // The one that needs it changes with its ID, and it wasn't there.
    (
        "a version changed",
        "+a b@1 a>b@1:as=b",
        "+a b@2 a>b@2:as=b",
        "a b@2",
    ),
    // What needs `b` is as it was.
    (
        "a version changed further down",
        "+a b c@1 a>b b>c@1:as=c",
        "+a b c@2 a>b b>c@2:as=c",
        "b c@2",
    ),
    ("a new dependency", "+a b", "+a b a>b", "a b"),
    (
        "a new dependency on what is built",
        "+a +m b m>b",
        "+a +m b m>b a>b",
        "a",
    ),
    ("a dependency gone", "+a b a>b", "+a b", "a b"),
    ("a package gone", "+a b a>b", "+a", "a"),
    ("a member new", "+a b a>b", "+a +m b a>b m>b", "m"),
    (
        "a member new that asks for a feature",
        "+a b f= a>b",
        "+a +m b f= a>b m>b:with=f",
        "m b",
    ),
    ("a member gone", "+a +m b a>b m>b", "+a b a>b", ""),
    (
        "a member gone that asked for a feature",
        "+a +m b f= a>b m>b:with=f",
        "+a b f= a>b",
        "b",
    ),
    (
        "a member that is a package now",
        "+a +b a>b",
        "+a b a>b",
        "",
    ),
];

// The same, of what dependencies ask for.
const OF_LINKS: [(&str, &str, &str, &str); 18] = [
    (
        "a feature switched on",
        "+a b f= a>b",
        "+a b f= a>b:with=f",
        "a b",
    ),
    (
        "a feature switched on by another member",
        "+a +m b f= a>b m>b",
        "+a +m b f= a>b m>b:with=f",
        "m b",
    ),
    (
        "a feature that is on anyway",
        "+a +m b f= a>b:with=f m>b",
        "+a +m b f= a>b:with=f m>b:with=f",
        "m",
    ),
    (
        "a feature that another one gives now",
        "+a b f= g= a>b:with=f",
        "+a b f=g g= a>b:with=f",
        "b",
    ),
    (
        "a feature that nothing switches on",
        "+a b a>b",
        "+a b f= a>b",
        "",
    ),
    (
        "a feature of a member's own",
        "+a default=f f= g=",
        "+a default=f,g f= g=",
        "a",
    ),
    (
        "default features no longer asked for",
        "+a b default= a>b",
        "+a b default= a>b:bare",
        "a b",
    ),
    (
        "no default features to be asked for",
        "+a b a>b",
        "+a b a>b:bare",
        "a",
    ),
    // Whether `a` needs `b` is asked without a platform, and what is built with one.
    (
        "off on the platform",
        "+a b a>b",
        "+a b a>b:on=cfg(windows)",
        "b",
    ),
    ("still on there", "+a b a>b", "+a b a>b:on=cfg(unix)", ""),
    (
        "on there in place of elsewhere",
        "+a b a>b:on=cfg(windows)",
        "+a b a>b:on=cfg(unix)",
        "b",
    ),
    ("for development alone", "+a b a>b", "+a b a>b:dev", "a"),
    ("new for development", "+a b", "+a b a>b:dev", "a b"),
    // There is no build script that would be built with it.
    ("for building alone", "+a b a>b", "+a b a>b:build", "a b"),
    ("another name", "+a b a>b", "+a b a>b:as=x", "a"),
    ("optional, and off", "+a b", "+a ?b f=dep:b b a>b:opt", "a"),
    (
        "optional, and switched on",
        "+a ?b default= f=dep:b b a>b:opt",
        "+a ?b default=f f=dep:b b a>b:opt",
        "a b",
    ),
    // What isn't resolved counts for nothing.
    (
        "optional, switched on and not resolved",
        "+a",
        "+a ?x default=x x=dep:x",
        "a",
    ),
];

// The IDs, separated by spaces.
fn line_of(rt: &impl Abort, alloc: Global, ids: &[&PackageId]) -> String {
    let mut texts = Vec::new(alloc);
    for id in ids {
        texts.push(id.repr()).expect(rt, "IDs");
    }
    texts.join(alloc, " ").expect(rt, "IDs")
}

fn assert_changed(
    rt: &impl Abort,
    alloc: Global,
    case: &str,
    before: &str,
    now: &str,
    wanted: &str,
) {
    let platforms = unix(rt, alloc);
    let setting = BuildSetting {
        standard: StandardFeatures::Default,
        target_platform: &platforms,
        host_platform: &platforms,
        resolver: CargoResolverVersion::V2,
    };
    let before = graph_of(rt, alloc, before);
    let now = graph_of(rt, alloc, now);
    let changed = changed_packages(alloc, &before, &now, &setting).expect(rt, case);
    let changed = line_of(rt, alloc, changed.as_slice());
    assert!(rt; changed.as_str() == wanted, "{case}: {changed}");
}

#[test]
fn packages_change(rt: HostRuntime) {
    for (case, before, now, wanted) in OF_PACKAGES {
        assert_changed(&rt, rt.alloc(), case, before, now, wanted);
    }
}

#[test]
fn what_dependencies_ask_for_changes(rt: HostRuntime) {
    for (case, before, now, wanted) in OF_LINKS {
        assert_changed(&rt, rt.alloc(), case, before, now, wanted);
    }
}
