//! Build targets: their IDs, kinds and fields.
ghost use Rattle.std.specs.Prelude.{IsSome};
ghost use Rattle.guppy_data.specs.TargetName.{target_name};

use crate::cases::{hold, is_text};
use crate::owned::{path, text, texts};
use guppy_data::{
    BuildTarget, BuildTargetId, BuildTargetKind, BuildTargetKindRecord, BuildTargetRecord,
    OwnedBuildTargetId, SortedSet, Utf8Path,
};
use std::alloc::Global;
use std::collections::HashSet;
use std::process::Abort;

const ASCENDING: [BuildTargetId<'static>; 7] = [
    BuildTargetId::Library,
    BuildTargetId::BuildScript,
    BuildTargetId::Binary("a"),
    BuildTargetId::Binary("b"),
    BuildTargetId::Example("b"),
    BuildTargetId::Test("a"),
    BuildTargetId::Benchmark(""),
];

#[test]
fn target_order(rt: HostRuntime) {
    let mut ids = [
        BuildTargetId::Test("t"),
        BuildTargetId::Library,
        BuildTargetId::Binary("b"),
        BuildTargetId::Binary("a"),
    ];
    ids.sort_unstable();
    let wanted = [
        BuildTargetId::Library,
        BuildTargetId::Binary("a"),
        BuildTargetId::Binary("b"),
        BuildTargetId::Test("t"),
    ];
    assert!(rt; ids == wanted);
}

fn compares_with_each(rt: &impl Abort, place: usize, lower: &BuildTargetId<'_>) {
    for (i, upper) in ASCENDING.iter().enumerate() {
        assert!(rt;
            lower.cmp(upper) == place.cmp(&i),
            "{lower:?} and {upper:?}"
        );
        assert!(rt; (lower == upper) == (place == i), "{lower:?} and {upper:?}");
    }
}

#[test]
fn target_ids(rt: HostRuntime) {
    let mut seen = HashSet::new(rt.alloc());
    for (place, lower) in ASCENDING.iter().enumerate() {
        compares_with_each(&rt, place, lower);
        let is_new = seen.insert(*lower).expect(&rt, "target_ids");
        hold(&rt, "target_ids", is_new);
    }
    let example = BuildTargetId::Example("b");
    hold(&rt, "target_ids", seen.contains(&example));
    let example = BuildTargetId::Example("a");
    hold(&rt, "target_ids", !seen.contains(&example));
}

fn recorded(rt: &impl Abort, alloc: Global, id: BuildTargetId<'_>) -> OwnedBuildTargetId {
    match id {
        BuildTargetId::Library => OwnedBuildTargetId::Library,
        BuildTargetId::BuildScript => OwnedBuildTargetId::BuildScript,
        BuildTargetId::Binary(name) => OwnedBuildTargetId::Binary(text(rt, alloc, name)),
        BuildTargetId::Example(name) => OwnedBuildTargetId::Example(text(rt, alloc, name)),
        BuildTargetId::Test(name) => OwnedBuildTargetId::Test(text(rt, alloc, name)),
        BuildTargetId::Benchmark(name) => OwnedBuildTargetId::Benchmark(text(rt, alloc, name)),
    }
}

fn target(rt: &impl Abort, alloc: Global, id: BuildTargetId<'_>) -> BuildTargetRecord
    ensures { IsSome (target_name result) }
{
    BuildTargetRecord {
        id: recorded(rt, alloc, id),
        kind: BuildTargetKindRecord::ProcMacro,
        lib_name: Some(text(rt, alloc, "l")),
        required_features: texts(rt, alloc, &["f"]),
        path: path(rt, alloc, "src/lib.rs"),
        edition: text(rt, alloc, "2021"),
        doc_by_default: true,
        doctest_by_default: false,
        test_by_default: true,
    }
}

fn target_fields_hold(rt: &impl Abort, target: BuildTarget<'_>) {
    let [feature] = target.required_features() else {
        panic!(rt; "one feature");
    };
    is_text(rt, "required_features", feature.as_str(), "f");
    hold(rt, "kind", target.kind() == BuildTargetKind::ProcMacro);
    hold(rt, "path", target.path() == Utf8Path::new("src/lib.rs"));
    is_text(rt, "edition", target.edition(), "2021");
    hold(rt, "doc_by_default", target.doc_by_default());
    hold(rt, "doctest_by_default", !target.doctest_by_default());
    hold(rt, "test_by_default", target.test_by_default());
}

// Each ID, the name in it, and the name of a target that has it.
const NAMED: &[(BuildTargetId<'static>, Option<&str>, &str)] = &[
    (BuildTargetId::Library, None, "l"),
    (BuildTargetId::BuildScript, None, "l"),
    (BuildTargetId::Binary("n"), Some("n"), "n"),
    (BuildTargetId::Example("e"), Some("e"), "e"),
    (BuildTargetId::Example("n"), Some("n"), "n"),
    (BuildTargetId::Test("n"), Some("n"), "n"),
    (BuildTargetId::Benchmark("n"), Some("n"), "n"),
];

#[test]
fn target_fields(rt: HostRuntime) {
    for (id, id_name, name) in NAMED {
        let record = target(&rt, rt.alloc(), *id);
        hold(&rt, "recorded_ids", BuildTargetId::new(&record.id) == *id);
        hold(&rt, "target_names", id.name() == *id_name);
        let target = BuildTarget::new(&record);
        hold(&rt, "target_fields", target.id() == *id);
        is_text(&rt, "target_names", target.name(), name);
        target_fields_hold(&rt, target);
    }
}

fn kinds_hold(rt: &impl Abort, library: &BuildTargetKindRecord) {
    let kind = BuildTargetKind::new(library);
    hold(rt, "library", kind == BuildTargetKind::new(library));
    let BuildTargetKind::LibraryOrExample([first, second]) = kind else {
        panic!(rt; "two crate types");
    };
    is_text(rt, "first type", first.as_str(), "cdylib");
    is_text(rt, "second type", second.as_str(), "rlib");
}

#[test]
fn target_kinds(rt: HostRuntime) {
    let types = texts(&rt, rt.alloc(), &["rlib", "cdylib", "rlib"]);
    let library = BuildTargetKindRecord::LibraryOrExample(SortedSet::new(types));
    kinds_hold(&rt, &library);
    let proc_macro = BuildTargetKind::new(&BuildTargetKindRecord::ProcMacro);
    hold(&rt, "proc macro", proc_macro == BuildTargetKind::ProcMacro);
    let binary = BuildTargetKind::new(&BuildTargetKindRecord::Binary);
    hold(&rt, "binary", binary == BuildTargetKind::Binary);
}
