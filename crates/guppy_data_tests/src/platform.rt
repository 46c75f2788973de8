//! Platform statuses and what they enable.

use crate::cases::hold;
use crate::evaluators::{ByTable, Machine};
use crate::owned::text;
use guppy_data::{
    EnabledTernary, PlatformSpec, PlatformStatus, PlatformStatusImpl, TargetSpec,
    and_is_the_minimum, extended_is_either, or_is_the_maximum, platforms_together_are_either,
    questions_ascend, ternaries_ascend,
};
use std::alloc::Global;
use std::cmp::Ordering;
use std::process::Abort;

const DISABLED: EnabledTernary = EnabledTernary::Disabled;

const UNKNOWN: EnabledTernary = EnabledTernary::Unknown;

const ENABLED: EnabledTernary = EnabledTernary::Enabled;

const LINUX: Machine = Machine {
    windows: Some(false),
    other: Some(false),
};

const WINDOWS: Machine = Machine {
    windows: Some(true),
    other: None,
};

/// Answers nothing to each text.
pub(crate) const KNOWS_NOTHING: Machine = Machine {
    windows: None,
    other: None,
};

const WINDOWS_SSE: Machine = Machine {
    windows: Some(true),
    other: Some(true),
};

pub(crate) fn specs(rt: &impl Abort, alloc: Global, name: &str) -> PlatformStatusImpl {
    let mut status = PlatformStatusImpl::never(alloc);
    let spec = TargetSpec::new(text(rt, alloc, name));
    status.add_spec(Some(&spec)).expect(rt, name);
    status
}

// Whether the status is of the texts x and y, in this order.
fn is_x_and_y(status: &PlatformStatusImpl) -> bool {
    match PlatformStatus::new(status) {
        PlatformStatus::PlatformDependent { eval } => match eval.target_specs() {
            [first, second] => first.as_str() == "x" && second.as_str() == "y",
            _ => false,
        },
        _ => false,
    }
}

fn is_always(status: &PlatformStatusImpl) -> bool {
    let status = PlatformStatus::new(status);
    status.is_always() && status.is_present()
}

fn grow(rt: &impl Abort, alloc: Global, status: &mut PlatformStatusImpl) {
    let name = "statuses_grow";
    status.extend(&specs(rt, alloc, "y")).expect(rt, name);
    hold(rt, name, is_x_and_y(status));
    hold(rt, name, !status.is_never());
    status.add_spec(None).expect(rt, name);
    hold(rt, name, is_always(status));
    let spec = TargetSpec::new(text(rt, alloc, "x"));
    status.add_spec(Some(&spec)).expect(rt, name);
    hold(rt, name, is_always(status));
}

#[test]
fn statuses_grow(rt: HostRuntime) {
    let name = "statuses_grow";
    let mut status = specs(&rt, rt.alloc(), "x");
    grow(&rt, rt.alloc(), &mut status);
    let mut never = PlatformStatusImpl::never(rt.alloc());
    hold(&rt, name, never.is_never());
    let seen = PlatformStatus::new(&never);
    hold(&rt, name, seen.is_never() && !seen.is_present());
    never.extend(&status).expect(&rt, name);
    hold(&rt, name, is_always(&never));
}

// Where a status is asked about.
#[derive(Clone, Copy)]
enum On {
    Always,
    Any,
    Machines(&'static [Machine]),
}

// A status of one text, or that is always enabled, on some machines.
struct OnMachines {
    status: Option<&'static str>,
    on: On,
    enabled: EnabledTernary,
}

const TARGET_TABLE: &[OnMachines] = &[
    OnMachines {
        status: Some("cfg(windows)"),
        on: On::Machines(&[LINUX, WINDOWS]),
        enabled: ENABLED,
    },
    OnMachines {
        status: Some("cfg(windows)"),
        on: On::Machines(&[LINUX]),
        enabled: DISABLED,
    },
    OnMachines {
        status: None,
        on: On::Machines(&[]),
        enabled: DISABLED,
    },
    OnMachines {
        status: None,
        on: On::Machines(&[LINUX]),
        enabled: ENABLED,
    },
    OnMachines {
        status: Some("S"),
        on: On::Machines(&[LINUX, WINDOWS]),
        enabled: UNKNOWN,
    },
    OnMachines {
        status: Some("S"),
        on: On::Machines(&[WINDOWS, WINDOWS_SSE]),
        enabled: ENABLED,
    },
    OnMachines {
        status: Some("knows_nothing"),
        on: On::Machines(&[KNOWS_NOTHING]),
        enabled: UNKNOWN,
    },
    OnMachines {
        status: Some("knows_nothing"),
        on: On::Machines(&[]),
        enabled: DISABLED,
    },
    OnMachines {
        status: Some("knows_nothing"),
        on: On::Always,
        enabled: DISABLED,
    },
    OnMachines {
        status: Some("knows_nothing"),
        on: On::Any,
        enabled: ENABLED,
    },
];

// One machine is made a list by a call of its own.
fn platforms_of(rt: &impl Abort, alloc: Global, on: On) -> PlatformSpec<Machine> {
    let platforms = match on {
        On::Always => Ok(PlatformSpec::Always),
        On::Any => Ok(PlatformSpec::Any),
        On::Machines([machine]) => PlatformSpec::one(alloc, *machine),
        On::Machines(machines) => PlatformSpec::platforms(alloc, machines.iter().copied()),
    };
    platforms.expect(rt, "platforms")
}

// What its text says of one machine is what the status says.
fn status_holds(
    rt: &impl Abort,
    status: &PlatformStatusImpl,
    platforms: &PlatformSpec<Machine>,
    case: &OnMachines,
) {
    let status = PlatformStatus::new(status);
    let enabled = status.enabled_on(platforms, &ByTable);
    assert!(rt; enabled == case.enabled, "{:?}", case.status);
    if let (PlatformStatus::PlatformDependent { eval }, On::Machines([machine])) = (
        status, case.on,
    ) {
        let enabled = eval.eval(machine, &ByTable);
        assert!(rt; enabled == case.enabled, "{:?}", case.status);
    }
}

#[test]
fn target_table(rt: HostRuntime) {
    for case in TARGET_TABLE {
        let platforms = platforms_of(&rt, rt.alloc(), case.on);
        let status = match case.status {
            Some(text) => specs(&rt, rt.alloc(), text),
            None => PlatformStatusImpl::Always,
        };
        status_holds(&rt, &status, &platforms, case);
    }
}

#[test]
fn ternaries(rt: HostRuntime) {
    for (low, high) in &[(DISABLED, UNKNOWN), (UNKNOWN, ENABLED)] {
        let (low, high) = (*low, *high);
        hold(&rt, "less", low < high);
        hold(&rt, "and", low & high == low);
        hold(&rt, "or", low | high == high);
        hold(&rt, "ascend", ternaries_ascend(low, high) == Ordering::Less);
        hold(&rt, "minimum", and_is_the_minimum(high, low) == low);
        hold(&rt, "maximum", or_is_the_maximum(high, low) == high);
    }
    hold(&rt, "disabled", DISABLED.is_known());
    hold(&rt, "unknown", !UNKNOWN.is_known());
    hold(&rt, "enabled", ENABLED.is_known());
}

#[test]
fn laws_hold(rt: HostRuntime) {
    questions_ascend::<ByTable>();
    platforms_together_are_either::<ByTable>();
    let other = specs(&rt, rt.alloc(), "y");
    let mut status = specs(&rt, rt.alloc(), "x");
    extended_is_either::<ByTable>(&mut status, &other).expect(&rt, "laws_hold");
    hold(&rt, "laws_hold", is_x_and_y(&status));
}
