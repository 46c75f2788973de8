ghost use Rattle.std.specs.Prelude.{◌≡◌, [], ◌∷◌, IfOk};
ghost use Rattle.std.specs.Str.Lines.{lines};
ghost use Rattle.guppy.specs.Platform.{OnPlatforms, status_value, seen_status};
ghost use Rattle.guppy_target.specs.Platform.{PlatformData, AreLines};
ghost use Rattle.guppy_target.specs.Answer.{answer_of};

use guppy::platform::{EnabledTernary, PlatformSpec, PlatformStatus};
use guppy_target::{CfgEval, Platform, PlatformFault};
use std::alloc::Global;

/// Whether what has the status is enabled on the platform of this name, for which `rustc --print cfg` prints
/// these lines.
pub fn enabled_on(
    alloc: Global,
    status: PlatformStatus<'_>,
    triple: &str,
    cfgs: &str,
) -> Result<EnabledTernary, PlatformFault>
    ensures { IfOk result (λ value. (platform : PlatformData) × (platform.triple ≡ triple.now)
        × AreLines (lines cfgs.now) platform.settings
        × (value ≡ status_value answer_of (seen_status status.entry)
        (OnPlatforms (platform ∷ [])))) }
{
    let platform = Platform::new(alloc, triple, cfgs)?;
    let spec = PlatformSpec::one(alloc, platform)?;
    Ok(status.enabled_on(&spec, &CfgEval))
}
