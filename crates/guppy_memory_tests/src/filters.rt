//! Parts of a set, by a callback that counts its calls.
use crate::told::{begin, tell_calls, tell_made, tell_set};
use crate::world::World;
use guppy::graph::DependencyDirection;
use guppy::{Error, PackageMetadata, PackageSet};

const FORWARD: DependencyDirection = DependencyDirection::Forward;

// Keeps every second package.
fn ask_filter(rt: &HostRuntime, set: &PackageSet<'_>, is_lent: bool) -> Result<(), Error> {
    let mut calls = 0_usize;
    tell_calls(rt, calls);
    begin(rt);
    let mut callback = |_package: PackageMetadata<'_>| {
        calls = calls.wrapping_add(1);
        calls % 2 == 0
    };
    let kept = if is_lent {
        set.filter_mut(FORWARD, &mut callback)
    } else {
        set.filter(FORWARD, callback)
    };
    tell_calls(rt, calls);
    tell_made(rt, kept)
}

fn tell_halves(
    rt: &HostRuntime,
    halves: Result<(PackageSet<'_>, PackageSet<'_>), Error>,
) -> Result<(), Error> {
    let halves = halves?;
    tell_set(rt, &halves.0);
    tell_set(rt, &halves.1);
    Ok(())
}

fn ask_partition(rt: &HostRuntime, set: &PackageSet<'_>, is_lent: bool) -> Result<(), Error> {
    let mut calls = 0_usize;
    tell_calls(rt, calls);
    begin(rt);
    let mut callback = |_package: PackageMetadata<'_>| {
        calls = calls.wrapping_add(1);
        calls % 2 == 0
    };
    let halves = if is_lent {
        set.partition_mut(FORWARD, &mut callback)
    } else {
        set.partition(FORWARD, callback)
    };
    tell_calls(rt, calls);
    tell_halves(rt, halves)
}

// Leaves out the first package.
fn ask_filter_partition(
    rt: &HostRuntime,
    set: &PackageSet<'_>,
    is_lent: bool,
) -> Result<(), Error> {
    let mut calls = 0_usize;
    tell_calls(rt, calls);
    begin(rt);
    let mut callback = |_package: PackageMetadata<'_>| {
        calls = calls.wrapping_add(1);
        if calls == 1 {
            None
        } else {
            Some(calls % 2 == 0)
        }
    };
    let halves = if is_lent {
        set.filter_partition_mut(FORWARD, &mut callback)
    } else {
        set.filter_partition(FORWARD, callback)
    };
    tell_calls(rt, calls);
    tell_halves(rt, halves)
}

pub(crate) fn ask(rt: &HostRuntime, world: &World<'_>, call: &str) -> Result<(), Error> {
    match call {
        "filter" => ask_filter(rt, &world.all, false),
        "filter_mut" => ask_filter(rt, &world.all, true),
        "partition" => ask_partition(rt, &world.all, false),
        "partition_mut" => ask_partition(rt, &world.all, true),
        "filter_partition" => ask_filter_partition(rt, &world.all, false),
        _ => ask_filter_partition(rt, &world.all, true),
    }
}
