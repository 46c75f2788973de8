//! On which platforms something is enabled, under the path that guppy has for it.

pub use guppy_data::platform::laws;
pub use guppy_data::{
    EnabledTernary, PlatformEval, PlatformSpec, PlatformStatus, PlatformStatusImpl, TargetEval,
    TargetSpec,
};
