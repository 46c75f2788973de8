//! The text of a package.
ghost use Rattle.std.specs.Prelude.{◌≡◌, ◌++◌, ◌∷◌, [], OnOk, string_bytes, flat_map};
ghost use Rattle.guppy_wire.specs.Parts.{listed, string_field};
ghost use Rattle.guppy_wire.specs.Package.{feature_dep_text, named_feature_text, package_details, package_text, publish_text, source_text, target_id_text, target_kind_text, target_text};

use crate::parts::{Tell, push_count, push_flag, push_list, push_optional};
use guppy_data::{
    BuildTargetKindRecord, BuildTargetRecord, NamedFeatureDep, OwnedBuildTargetId,
    PackagePublishRecord, PackageRecord, PackageSourceRecord,
};
use indexmap::IndexMap;
use std::alloc::{AllocError, Global};

impl Tell for PackageSourceRecord {
    ghost told = { source_text };

    fn tell(&self, alloc: Global, text: &mut String) -> Result<(), AllocError> {
        match self {
            PackageSourceRecord::Workspace(path) => {
                text.push('w')?;
                path.tell(alloc, text)
            }
            PackageSourceRecord::Path(path) => {
                text.push('p')?;
                path.tell(alloc, text)
            }
            PackageSourceRecord::External(source) => {
                text.push('x')?;
                source.tell(alloc, text)
            }
        }
    }
}

impl Tell for PackagePublishRecord {
    ghost told = { publish_text };

    fn tell(&self, alloc: Global, text: &mut String) -> Result<(), AllocError> {
        match self {
            PackagePublishRecord::Unrestricted => text.push('*'),
            PackagePublishRecord::Registries(registries) => {
                push_list(alloc, text, registries.as_slice())
            }
        }
    }
}

impl Tell for NamedFeatureDep {
    ghost told = { feature_dep_text };

    fn tell(&self, alloc: Global, text: &mut String) -> Result<(), AllocError> {
        match self {
            NamedFeatureDep::NamedFeature(feature) => {
                text.push('f')?;
                feature.tell(alloc, text)
            }
            NamedFeatureDep::OptionalDependency(dep_name) => {
                text.push('d')?;
                dep_name.tell(alloc, text)
            }
            NamedFeatureDep::DependencyNamedFeature {
                dep_name,
                feature,
                weak,
            } => {
                text.push(if *weak { 'w' } else { 's' })?;
                dep_name.tell(alloc, text)?;
                feature.tell(alloc, text)
            }
        }
    }
}

// Adds the named features with what each switches on.
fn push_features(
    alloc: Global,
    text: &mut String,
    features: &IndexMap<String, Vec<NamedFeatureDep>>,
) -> Result<(), AllocError>
    ensures { OnOk result (string_bytes text.new
        ≡ string_bytes text.old ++ listed named_feature_text features.now.entries) }
{
    push_count(text, features.len())?;
    for (feature, deps) in features.iter() {
        feature.tell(alloc, text)?;
        push_list(alloc, text, deps.as_slice())?;
    }
    Ok(())
}

impl Tell for OwnedBuildTargetId {
    ghost told = { target_id_text };

    fn tell(&self, alloc: Global, text: &mut String) -> Result<(), AllocError> {
        let (mark, name) = match self {
            OwnedBuildTargetId::Library => return text.push('l'),
            OwnedBuildTargetId::BuildScript => return text.push('s'),
            OwnedBuildTargetId::Binary(name) => ('b', name),
            OwnedBuildTargetId::Example(name) => ('e', name),
            OwnedBuildTargetId::Test(name) => ('t', name),
            OwnedBuildTargetId::Benchmark(name) => ('m', name),
        };
        text.push(mark)?;
        name.tell(alloc, text)
    }
}

impl Tell for BuildTargetKindRecord {
    ghost told = { target_kind_text };

    fn tell(&self, alloc: Global, text: &mut String) -> Result<(), AllocError> {
        match self {
            BuildTargetKindRecord::LibraryOrExample(crate_types) => {
                text.push('c')?;
                push_list(alloc, text, crate_types.as_slice())
            }
            BuildTargetKindRecord::ProcMacro => text.push('p'),
            BuildTargetKindRecord::Binary => text.push('b'),
        }
    }
}

impl Tell for BuildTargetRecord {
    ghost told = { target_text };

    fn tell(&self, alloc: Global, text: &mut String) -> Result<(), AllocError> {
        self.id.tell(alloc, text)?;
        self.kind.tell(alloc, text)?;
        push_optional(alloc, text, &self.lib_name)?;
        push_list(alloc, text, self.required_features.as_slice())?;
        self.path.tell(alloc, text)?;
        self.edition.tell(alloc, text)?;
        push_flag(text, self.doc_by_default)?;
        push_flag(text, self.doctest_by_default)?;
        push_flag(text, self.test_by_default)
    }
}

/// Adds what isn't among the first that a reader asks for of a package, but for its free table.
pub(crate) fn push_details(
    alloc: Global,
    text: &mut String,
    package: &PackageRecord,
) -> Result<(), AllocError>
    ensures { OnOk result (string_bytes text.new
        ≡ string_bytes text.old ++ package_details «package».now) }
{
    push_list(alloc, text, package.authors.as_slice())?;
    push_optional(alloc, text, &package.license_file)?;
    push_list(alloc, text, package.categories.as_slice())?;
    push_list(alloc, text, package.keywords.as_slice())?;
    push_optional(alloc, text, &package.readme)?;
    push_optional(alloc, text, &package.homepage)?;
    push_optional(alloc, text, &package.documentation)?;
    push_optional(alloc, text, &package.links)?;
    package.publish.tell(alloc, text)?;
    push_optional(alloc, text, &package.default_run)?;
    push_optional(alloc, text, &package.rust_version)?;
    push_features(alloc, text, &package.named_features)?;
    push_list(alloc, text, package.optional_deps.as_slice())?;
    push_list(alloc, text, package.build_targets.as_slice())
}

impl Tell for PackageRecord {
    ghost told = { package_text };

    fn tell(&self, alloc: Global, text: &mut String) -> Result<(), AllocError> {
        self.id.tell(alloc, text)?;
        self.name.tell(alloc, text)?;
        self.version.tell(alloc, text)?;
        self.source.tell(alloc, text)?;
        self.manifest_path.tell(alloc, text)?;
        self.edition.tell(alloc, text)?;
        push_optional(alloc, text, &self.description)?;
        push_optional(alloc, text, &self.license)?;
        push_optional(alloc, text, &self.repository)
    }
}
