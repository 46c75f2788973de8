//! Each printed text.

use crate::cases::is_text;
use crate::owned::{id, path, text, texts};
use guppy_data::{
    ConstructFault, Error, FeatureBuildStage, FeatureGraphWarning, NamedFeatureDep, PackageId,
    SortedSet, Utf8Path, VerifyFault,
};
use std::alloc::{AllocError, Global};
use std::fmt;
use std::process::Abort;

pub(crate) fn prints<T: fmt::Display + Drop>(
    rt: &impl Abort,
    alloc: Global,
    name: &str,
    value: T,
    wanted: &str,
) {
    let printed = value.to_string(alloc).expect(rt, name);
    is_text(rt, name, printed.as_str(), wanted);
}

const SETS: &[(&[&str], &str)] = &[(&["b", "a", "b"], "{a, b}"), (&["a"], "{a}"), (&[], "{}")];

#[test]
fn plain_texts(rt: HostRuntime) {
    let alloc = rt.alloc();
    let name = "plain_texts";
    prints(&rt, alloc, name, id(&rt, alloc, "p 1.0.0"), "p 1.0.0");
    prints(&rt, alloc, name, path(&rt, alloc, "//a/./b/"), "//a/./b/");
    prints(&rt, alloc, name, Utf8Path::new("./a/"), "./a/");
    for (items, wanted) in SETS {
        let set = SortedSet::new(texts(&rt, alloc, items));
        prints(&rt, alloc, "sets_print", set, wanted);
    }
}

#[test]
fn named_features(rt: HostRuntime) {
    let alloc = rt.alloc();
    let name = "named_features";
    for (weak, wanted) in [(false, "d/f"), (true, "d?/f")] {
        let feature = NamedFeatureDep::DependencyNamedFeature {
            dep_name: text(&rt, alloc, "d"),
            feature: text(&rt, alloc, "f"),
            weak,
        };
        prints(&rt, alloc, name, feature, wanted);
    }
    let feature = NamedFeatureDep::NamedFeature(text(&rt, alloc, "f"));
    let dependency = NamedFeatureDep::OptionalDependency(text(&rt, alloc, "f"));
    assert!(rt; feature != dependency);
    assert!(rt; feature == NamedFeatureDep::NamedFeature(text(&rt, alloc, "f")));
    prints(&rt, alloc, name, dependency, "dep:f");
    prints(&rt, alloc, name, feature, "f");
}

// The feature g of q is missing where the named features of p get their edges.
fn missing_feature(rt: &impl Abort, alloc: Global) -> FeatureGraphWarning {
    FeatureGraphWarning::MissingFeature {
        stage: FeatureBuildStage::AddNamedFeatureEdges {
            package_id: id(rt, alloc, "p"),
            from_feature: text(rt, alloc, "f"),
        },
        package_id: id(rt, alloc, "q"),
        feature_name: text(rt, alloc, "g"),
    }
}

#[test]
fn warnings(rt: HostRuntime) {
    let alloc = rt.alloc();
    prints(
        &rt,
        alloc,
        "warning_text",
        missing_feature(&rt, alloc),
        "for package 'p', while adding named feature edges from 'f': for package 'q', missing feature 'g'",
    );
    let self_loop = FeatureGraphWarning::SelfLoop {
        package_id: id(&rt, alloc, "p"),
        feature_name: text(&rt, alloc, "f"),
    };
    let wanted = "for package 'p', self-loop detected for named feature 'f'";
    prints(&rt, alloc, "self_loop_text", self_loop, wanted);
    let stage = FeatureBuildStage::AddDependencyEdges {
        package_id: id(&rt, alloc, "p"),
        dep_name: text(&rt, alloc, "d"),
    };
    let wanted = "for package 'p', while adding edges for dependency 'd'";
    prints(&rt, alloc, "dependency_stage_text", stage, wanted);
}

const CONSTRUCT_FAULTS: &[(ConstructFault, &str)] = &[
    (ConstructFault::TooManyPackages, "too many packages"),
    (
        ConstructFault::RepeatedPackageId { package: 12 },
        "repeated package ID at package 12",
    ),
    (
        ConstructFault::RepeatedBuildTarget {
            package: 1,
            target: 2,
        },
        "repeated build target 2 in package 1",
    ),
    (
        ConstructFault::UnnamedBuildTarget {
            package: 1,
            target: 0,
        },
        "build target 0 in package 1 has no name",
    ),
    (
        ConstructFault::RepeatedWorkspacePath { package: 3 },
        "repeated workspace path at package 3",
    ),
    (
        ConstructFault::RepeatedWorkspaceName { package: 4 },
        "repeated workspace name at package 4",
    ),
    (
        ConstructFault::UnknownDefaultMember { index: 5 },
        "unknown default member 5",
    ),
    (ConstructFault::TooManyLinks, "too many links"),
    (
        ConstructFault::UnknownLinkEnd { link: 2 },
        "unknown package at link 2",
    ),
    (
        ConstructFault::RepeatedLink { link: 10 },
        "repeated link 10",
    ),
];

const CYCLES: &[(&[&str], &str)] = &[
    (
        &["a", "b"],
        "cycle over links that are not dev-only: a -> b -> a",
    ),
    (
        &["b 1", "a", "c"],
        "cycle over links that are not dev-only: b 1 -> a -> c -> b 1",
    ),
];

fn cycle_of(rt: &impl Abort, alloc: Global, texts: &[&str]) -> Vec<PackageId> {
    let mut ids = Vec::new(alloc);
    for text in texts {
        ids.push(id(rt, alloc, text)).expect(rt, text);
    }
    ids
}

#[test]
fn faults(rt: HostRuntime) {
    for (fault, wanted) in CONSTRUCT_FAULTS {
        prints(&rt, rt.alloc(), "construct_faults", fault, wanted);
    }
    assert!(rt; ConstructFault::TooManyLinks != ConstructFault::TooManyPackages);
}

#[test]
fn verify_faults(rt: HostRuntime) {
    let alloc = rt.alloc();
    let name = "verify_faults";
    let fault = VerifyFault::TargetKind {
        package: 0,
        target: 1,
    };
    let wanted = "build target 1 in package 0 does not match its kind";
    prints(&rt, alloc, name, fault, wanted);
    let fault = VerifyFault::Version { link: 1 };
    let wanted = "version does not match requirement at link 1";
    prints(&rt, alloc, name, fault, wanted);
    let fault = VerifyFault::NoSection { link: 0 };
    prints(&rt, alloc, name, fault, "no section at link 0");
    for (ids, wanted) in CYCLES {
        let fault = VerifyFault::Cycle(cycle_of(&rt, alloc, ids));
        prints(&rt, alloc, name, fault, wanted);
    }
}

#[test]
fn errors(rt: HostRuntime) {
    let alloc = rt.alloc();
    let name = "errors_of_faults";
    let error = Error::from(ConstructFault::UnknownLinkEnd { link: 2 });
    let wanted = "failed to construct package graph: unknown package at link 2";
    prints(&rt, alloc, name, error, wanted);
    let error = Error::from(VerifyFault::NoSection { link: 0 });
    let wanted = "internal error in package graph: no section at link 0";
    prints(&rt, alloc, name, error, wanted);
    prints(&rt, alloc, name, Error::from(AllocError), "out of memory");
    let name = "errors_of_packages";
    let error = Error::UnknownPackageId(id(&rt, alloc, "z"));
    prints(&rt, alloc, name, error, "unknown package ID: z");
    let error = Error::UnknownWorkspacePath(path(&rt, alloc, "q"));
    prints(&rt, alloc, name, error, "unknown workspace path: q");
    let error = Error::UnknownWorkspaceName(text(&rt, alloc, "x"));
    prints(&rt, alloc, name, error, "unknown workspace package name: x");
    let name = "errors_of_features";
    let error = Error::UnknownFeatureId(id(&rt, alloc, "p"), text(&rt, alloc, "f"));
    prints(&rt, alloc, name, error, "unknown feature ID: 'p/f'");
    let error = Error::FeatureGraphInternalError(text(&rt, alloc, "no node"));
    let wanted = "internal error in feature graph: no node";
    prints(&rt, alloc, name, error, wanted);
}
