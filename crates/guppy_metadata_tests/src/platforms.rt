//! `guppy_target`. What Cargo reads as the platforms of a dependency, and whether it takes the dependency in on Linux, was
//! asked of Cargo 1.95. The lines are those that `rustc --print cfg` prints there.
use crate::callers::platform::enabled_on;
use guppy::platform::{EnabledTernary, PlatformStatus, PlatformStatusImpl, TargetEval, TargetSpec};
use guppy_target::{CfgEval, Platform, PlatformFault, are_settings};
use std::alloc::Global;
use std::process::Abort;
use std::test::Fail;

const LINUX: &str = "debug_assertions
panic=\"unwind\"
target_abi=\"\"
target_arch=\"x86_64\"
target_endian=\"little\"
target_env=\"gnu\"
target_family=\"unix\"
target_feature=\"fxsr\"
target_feature=\"sse\"
target_feature=\"sse2\"
target_has_atomic=\"16\"
target_has_atomic=\"32\"
target_has_atomic=\"64\"
target_has_atomic=\"8\"
target_has_atomic=\"ptr\"
target_os=\"linux\"
target_pointer_width=\"64\"
target_vendor=\"unknown\"
unix
";

// A text, and behind the arrow whether it fits Linux, if it reads.
const TEXTS: &str = "cfg(windows) => no
cfg(unix) => yes
cfg(not(unix)) => no
cfg(all()) => yes
cfg(any()) => no
cfg(target_os = \"linux\") => yes
cfg(target_os=\"linux\") => yes
cfg(target_os = \"windows\") => no
cfg(target_feature=\"sse2\") => yes
cfg(target_feature=\"avx\") => no
cfg(target_abi = \"\") => yes
cfg(unix = \"linux\") => no
cfg(target_os) => no
cfg(all(unix, target_os=\"linux\",)) => yes
cfg(all(unix, windows)) => no
cfg(any(unix, windows)) => yes
cfg(any(windows, target_os = \"macos\")) => no
cfg(all(not(windows),any(unix,windows))) => yes
cfg( unix ) => yes
cfg(  all  (  unix  ,  )  ) => yes
cfg(true) => yes
cfg(false) => no
cfg(all(false)) => no
cfg(any(true, false)) => yes
cfg(true = \"x\") => no
cfg(not(true)) => no
cfg(_) => no
cfg(target_os = \"li\\nux\") => no
x86_64-unknown-linux-gnu => yes
x86_64-unknown-linux => no
x86_64-unknown-linux-gnux32 => no
x.y_z-1 => no
cfg => no
cfg() => unknown
cfg(unix) x => unknown
cfg(not) => unknown
cfg(all) => unknown
cfg(all = \"x\") => unknown
cfg(not()) => unknown
cfg(not(unix,)) => unknown
cfg(any(,)) => unknown
cfg(any(unix,,)) => unknown
cfg(unix,) => unknown
cfg(unix)(unix) => unknown
cfg(1unix) => unknown
cfg(a-b) => unknown
cfg(\"unix\") => unknown
cfg(target_os \"linux\") => unknown
cfg(target_os == \"linux\") => unknown
cfg(target_os = linux) => unknown
cfg(target_os = \"linux) => unknown
cfg(target_os = r\"linux\") => unknown
cfg(target_os = \"li\\\"nux\") => unknown
cfg(all(unix) => unknown
cfg (unix) => unknown
 cfg(unix) => unknown
a b => unknown
";

fn spec(rt: &impl Abort, alloc: Global, text: &str) -> TargetSpec {
    TargetSpec::new(String::from_str(alloc, text).expect(rt, "memory"))
}

fn answer(rt: &impl Abort, alloc: Global, text: &str, platform: &Platform) -> &'static str {
    match CfgEval.eval(&spec(rt, alloc, text), platform) {
        Some(true) => "yes",
        Some(false) => "no",
        None => "unknown",
    }
}

#[test]
fn texts(rt: HostRuntime) {
    let platform = Platform::new(rt.alloc(), "x86_64-unknown-linux-gnu", LINUX);
    let platform = platform.expect(&rt, "platform");
    for line in TEXTS.lines() {
        let (text, wanted) = line.split_once(" => ").expect(&rt, "no arrow");
        let found = answer(&rt, rt.alloc(), text, &platform);
        assert!(rt; found == wanted, "{text}");
    }
    assert!(rt; answer(&rt, rt.alloc(), "", &platform) == "no");
    assert!(rt; answer(&rt, rt.alloc(), "cfg(\tunix)", &platform) == "unknown");
}

// As many `not` around `unix`.
fn nested(rt: &impl Abort, alloc: Global, nots: u32) -> String {
    let mut text = String::from_str(alloc, "cfg(").expect(rt, "memory");
    for _ in 0..nots {
        text.push_str("not(").expect(rt, "memory");
    }
    text.push_str("unix").expect(rt, "memory");
    for _ in 0..nots {
        text.push_str(")").expect(rt, "memory");
    }
    text.push_str(")").expect(rt, "memory");
    text
}

// Whether the answer is this one where so many `not` stand around `unix`.
fn answers(rt: &impl Abort, alloc: Global, platform: &Platform, nots: u32, wanted: &str) -> bool {
    answer(rt, alloc, nested(rt, alloc, nots).as_str(), platform) == wanted
}

#[test]
fn deep(rt: HostRuntime) {
    let platform = Platform::new(rt.alloc(), "linux", LINUX).expect(&rt, "platform");
    for (nots, wanted) in [
        (126, "yes"),
        (127, "no"),
        (128, "unknown"),
        (100000, "unknown"),
    ] {
        assert!(rt; answers(&rt, rt.alloc(), &platform, nots, wanted), "{nots}");
    }
}

fn fault(rt: &impl Abort, cfgs: &str, alloc: Global) -> PlatformFault {
    match Platform::new(alloc, "linux", cfgs) {
        Ok(_) => panic!(rt; "no fault"),
        Err(fault) => fault,
    }
}

#[test]
fn faults(rt: HostRuntime) -> Result<(), Fail> {
    assert_eq!(rt;
        fault(&rt, "unix\ntarget_os=linux\n", rt.alloc()),
        PlatformFault::NotASetting(1)
    );
    assert_eq!(rt;
        fault(&rt, "unix\n\n", rt.alloc()),
        PlatformFault::NotASetting(1)
    );
    assert_eq!(rt;
        fault(&rt, "all(unix)", rt.alloc()),
        PlatformFault::NotASetting(0)
    );
    let told = format!(in rt.alloc(); "{}", PlatformFault::NotASetting(1))?;
    assert_eq!(rt;
        told.as_str(),
        "line 2 is neither a name nor key=\"value\": give the lines that `rustc --print cfg` prints"
    );
    let told = format!(in rt.alloc(); "{}", PlatformFault::OutOfMemory)?;
    assert_eq!(rt; told.as_str(), "out of memory");
    Ok(())
}

// What is enabled on Linux where a status has these texts.
fn status_of(rt: &impl Abort, alloc: Global, texts: &[&str]) -> EnabledTernary {
    let mut status = PlatformStatusImpl::never(alloc);
    for text in texts {
        status
            .add_spec(Some(&spec(rt, alloc, text)))
            .expect(rt, "memory");
    }
    enabled_on(alloc, PlatformStatus::new(&status), "linux", LINUX).expect(rt, "platform")
}

#[test]
fn statuses(rt: HostRuntime) {
    for (texts, wanted) in [
        (&["cfg(windows)"][..], EnabledTernary::Disabled),
        (&["cfg(windows)", "cfg("][..], EnabledTernary::Unknown),
        (
            &["cfg(windows)", "cfg(", "cfg(unix)"][..],
            EnabledTernary::Enabled,
        ),
    ] {
        assert!(rt; status_of(&rt, rt.alloc(), texts) == wanted);
    }
}

#[test]
fn settings(rt: HostRuntime) {
    assert!(rt; are_settings(""));
    assert!(rt; are_settings("unix\r\ntarget_os=\"linux\"\n"));
    assert!(rt; !are_settings("unix\n\nwindows"));
    assert!(rt; !are_settings("unix\ntarget_os=linux"));
}
