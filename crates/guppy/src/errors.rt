//! Errors and warnings, under the path that guppy has for them.

pub use guppy_data::{ConstructFault, Error, FeatureBuildStage, FeatureGraphWarning, VerifyFault};
