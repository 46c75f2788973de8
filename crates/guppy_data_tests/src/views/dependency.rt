//! Dependencies by platform and feature.

use crate::cases::hold;
use crate::evaluators::{ByTable, Machine};
use crate::owned::text;
use crate::platform::{KNOWS_NOTHING, specs};
use guppy_data::{
    DependencyReq, DependencyReqImpl, EnabledStatus, EnabledTernary, PlatformSpec, PlatformStatus,
    PlatformStatusImpl,
};
use std::alloc::Global;
use std::collections::BTreeMap;
use std::process::Abort;

fn add_features(
    rt: &impl Abort,
    alloc: Global,
    features: &mut BTreeMap<String, PlatformStatusImpl>,
    names: &[&str],
) {
    for name in names {
        let feature = text(rt, alloc, name);
        let inserted: Result<_, _> = features.insert(feature, PlatformStatusImpl::Always);
        inserted.expect(rt, name);
    }
}

// A status that is always required or never, and always optional or never.
fn status_holds(
    rt: &impl Abort,
    name: &str,
    status: EnabledStatus<'_>,
    is_required: bool,
    is_optional: bool,
) {
    let required = status.required_status();
    hold(rt, name, required.is_always() == is_required);
    hold(rt, name, required.is_never() != is_required);
    let optional = status.optional_status();
    hold(rt, name, optional.is_always() == is_optional);
    hold(rt, name, optional.is_never() != is_optional);
    let is_never = !(is_required || is_optional);
    hold(rt, name, status.is_never() == is_never);
}

fn feature_table_holds(rt: &impl Abort, req: DependencyReq<'_>) {
    let mut names = req.features();
    for wanted in &["a", "b", "a", "c"] {
        assert!(rt; names.next() == Some(*wanted), "{wanted}");
    }
    assert!(rt; names.next().is_none());
    status_holds(rt, "a", req.feature_status("a"), true, true);
    status_holds(rt, "b", req.feature_status("b"), true, false);
    status_holds(rt, "c", req.feature_status("c"), false, true);
    status_holds(rt, "z", req.feature_status("z"), false, false);
}

#[test]
fn feature_table(rt: HostRuntime) {
    let mut record = DependencyReqImpl::never(rt.alloc());
    let required = &mut record.required.feature_targets;
    add_features(&rt, rt.alloc(), required, &["b", "a"]);
    let optional = &mut record.optional.feature_targets;
    add_features(&rt, rt.alloc(), optional, &["c", "a"]);
    feature_table_holds(&rt, DependencyReq::new(&record));
}

fn knows_nothing_holds(
    rt: &impl Abort,
    required: &PlatformStatusImpl,
    one: &PlatformSpec<Machine>,
) {
    let status = EnabledStatus::new(PlatformStatus::new(required), PlatformStatus::Always);
    let required = status.required_on(one, &ByTable);
    hold(rt, "required", required == EnabledTernary::Unknown);
    let enabled = status.enabled_on(one, &ByTable);
    hold(rt, "enabled", enabled == EnabledTernary::Enabled);
    hold(rt, "never", !status.is_never());
}

#[test]
fn knows_nothing(rt: HostRuntime) {
    let required = specs(&rt, rt.alloc(), "s");
    let one = PlatformSpec::one(rt.alloc(), KNOWS_NOTHING).expect(&rt, "knows_nothing");
    knows_nothing_holds(&rt, &required, &one);
}

#[test]
fn dependency_sections(rt: HostRuntime) {
    let mut record = DependencyReqImpl::never(rt.alloc());
    assert!(rt; !DependencyReq::new(&record).is_present());
    record.optional.build_if = PlatformStatusImpl::Always;
    record.required.default_features_if = PlatformStatusImpl::Always;
    record.optional.no_default_features_if = PlatformStatusImpl::Always;
    let req = DependencyReq::new(&record);
    assert!(rt; req.is_present());
    status_holds(&rt, "status", req.status(), false, true);
    status_holds(&rt, "default", req.default_features(), true, false);
    status_holds(&rt, "no default", req.no_default_features(), false, true);
}

#[test]
fn required_dependency(rt: HostRuntime) {
    let record = DependencyReqImpl::required(rt.alloc());
    let req = DependencyReq::new(&record);
    status_holds(&rt, "status", req.status(), true, false);
    status_holds(&rt, "default", req.default_features(), true, false);
    status_holds(&rt, "no default", req.no_default_features(), false, false);
    assert!(rt; req.features().next().is_none());
}
