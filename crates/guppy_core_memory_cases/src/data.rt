//! Sorted sets, statuses and questions.
use crate::records::{copy_of, id_of};
use crate::told::{begin, tell, tell_all, tell_line};
use guppy_data::{
    PackageId, PlatformSpec, PlatformStatus, PlatformStatusImpl, SortedSet, TargetSpec,
};
use std::alloc::{AllocError, Global};

fn spec_of(alloc: Global, text: &str) -> TargetSpec {
    TargetSpec::new(copy_of(alloc, text))
}

// The status of these texts.
pub fn status_of(alloc: Global, texts: &[&str]) -> Result<PlatformStatusImpl, AllocError> {
    let mut status = PlatformStatusImpl::never(alloc);
    for text in texts {
        status.add_spec(Some(&spec_of(alloc, text)))?;
    }
    Ok(status)
}

fn tell_status(rt: &HostRuntime, status: &PlatformStatusImpl) {
    if let PlatformStatus::PlatformDependent { eval } = PlatformStatus::new(status) {
        for spec in eval.target_specs() {
            tell(rt, spec.as_str());
        }
    }
    tell_line(rt, &"status");
}

fn ask_status(rt: &HostRuntime, alloc: Global, call: &str) -> Result<(), AllocError> {
    let other = status_of(alloc, &["v", "w"])?;
    let mut status = status_of(alloc, &["x", "y"])?;
    let spec = spec_of(alloc, "z");
    tell_status(rt, &status);
    begin(rt);
    let grown = if call == "extend" {
        status.extend(&other)
    } else {
        status.add_spec(Some(&spec))
    };
    tell_status(rt, &status);
    grown
}

fn tell_question(rt: &HostRuntime, question: &PlatformSpec<&str>) {
    if let PlatformSpec::Platforms(platforms) = question {
        for platform in platforms {
            tell(rt, *platform);
        }
    }
    tell_line(rt, &"platforms");
}

fn ask_question(rt: &HostRuntime, alloc: Global, call: &str) -> Result<(), AllocError> {
    begin(rt);
    let question = if call == "platforms" {
        PlatformSpec::platforms(alloc, ["linux", "windows"].into_iter())
    } else {
        PlatformSpec::one(alloc, "linux")
    };
    tell_question(rt, &question?);
    Ok(())
}

fn ask_sorted(rt: &HostRuntime, alloc: Global) -> Result<(), AllocError> {
    begin(rt);
    let set = SortedSet::from_items(alloc, ["b", "a", "b"].into_iter())?;
    tell_all(rt, set.as_slice().iter().copied(), &"sorted");
    Ok(())
}

fn ask_id(rt: &HostRuntime, id: &PackageId) -> Result<(), AllocError> {
    begin(rt);
    let copy = id.clone()?;
    tell_line(rt, &copy);
    Ok(())
}

pub fn ask(rt: &HostRuntime, alloc: Global, call: &str) -> Result<(), AllocError> {
    match call {
        "from_items" => ask_sorted(rt, alloc),
        "platforms" | "one" => ask_question(rt, alloc, call),
        "id_clone" => ask_id(rt, &id_of(alloc, "a")),
        _ => ask_status(rt, alloc, call),
    }
}
