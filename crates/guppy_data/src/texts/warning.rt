use crate::texts::package_id::PackageId;
use std::fmt;

/// What is odd about the features of a package. Kept for the layer above.
#[derive(Debug, Drop)]
pub enum FeatureGraphWarning {
    /// The package has no such feature.
    MissingFeature {
        stage: FeatureBuildStage,
        package_id: PackageId,
        feature_name: String,
    },
    /// The named feature turns itself on.
    SelfLoop {
        package_id: PackageId,
        feature_name: String,
    },
}

impl fmt::Display for FeatureGraphWarning {
    ghost use Rattle.std.specs.Prelude.{Some};
    ghost use Rattle.guppy_data.specs.Texts.{warning_text};

    ghost output = { λ w. Some (warning_text w) };

    fn fmt<W: fmt::Write>(&self, f: &mut fmt::Formatter<W>) -> fmt::Result {
        match self {
            FeatureGraphWarning::MissingFeature {
                stage,
                package_id,
                feature_name,
            } => write!(
                f,
                "{stage}: for package '{package_id}', missing feature '{feature_name}'"
            ),
            FeatureGraphWarning::SelfLoop {
                package_id,
                feature_name,
            } => {
                write!(
                    f,
                    "for package '{package_id}', self-loop detected for named feature '{feature_name}'"
                )
            }
        }
    }
}

/// What was being added to the feature graph as a warning came up. Kept for the layer above.
#[derive(Debug, Drop)]
pub enum FeatureBuildStage {
    /// What a named feature turns on.
    AddNamedFeatureEdges {
        package_id: PackageId,
        from_feature: String,
    },
    /// What a dependency turns on.
    AddDependencyEdges {
        package_id: PackageId,
        dep_name: String,
    },
}

impl fmt::Display for FeatureBuildStage {
    ghost use Rattle.std.specs.Prelude.{Some};
    ghost use Rattle.guppy_data.specs.Texts.{build_stage_text};

    ghost output = { λ s. Some (build_stage_text s) };

    fn fmt<W: fmt::Write>(&self, f: &mut fmt::Formatter<W>) -> fmt::Result {
        match self {
            FeatureBuildStage::AddNamedFeatureEdges {
                package_id,
                from_feature,
            } => {
                write!(
                    f,
                    "for package '{package_id}', while adding named feature edges from '{from_feature}'"
                )
            }
            FeatureBuildStage::AddDependencyEdges {
                package_id,
                dep_name,
            } => {
                write!(
                    f,
                    "for package '{package_id}', while adding edges for dependency '{dep_name}'"
                )
            }
        }
    }
}
