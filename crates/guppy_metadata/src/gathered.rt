//! What a link is gathered from: declared dependencies, in their order.
ghost use Rattle.std.specs.Prelude.{◌≡◌, ◌++◌, ◌∷◌, [], ℕ, List, if◌then◌else◌, true, false, filter, map, string_bytes, option_map, slice_get, Some, IfOk, OnOk, IfSome};
ghost use Rattle.std.specs.List.{fold};
ghost use Rattle.std.specs.Str.{bytes_eq};
ghost use Rattle.std.specs.Option.{option_copied, option_or};
ghost use Rattle.guppy_data.specs.declared.records.LinkRecord.{LinkRecord};
ghost use Rattle.guppy_data.specs.Platform.{recorded_status, with_spec};
ghost use Rattle.guppy_metadata.specs.declared.types.Declared.{Declared};
ghost use Rattle.guppy_metadata.specs.Fits.{fits};
ghost use Rattle.guppy_metadata.specs.Gathered.{status_at, asked_too, asks_for, IsSection, IsGathered, IsNamedAs};
ghost use Rattle.guppy_metadata.specs.Links.{Joins};

use crate::fits::{Wanted, fits};
use crate::object::optional_copy;
use crate::types::Declared;
use guppy_data::{
    DepRequiredOrOptional, DependencyKind, DependencyReqImpl, LinkRecord, PlatformStatusImpl,
    TargetSpec, Utf8PathBuf,
};
use std::alloc::{AllocError, Global};
use std::collections::BTreeMap;

// The text of the platforms, where the dependency isn't for all.
fn spec_of(alloc: Global, target: Option<&str>) -> Result<Option<TargetSpec>, AllocError>
    ensures { IfOk result (λ spec. spec ≡ option_copied target.entry) }
{
    match target {
        Some(target) => Ok(Some(TargetSpec::new(String::from_str(alloc, target)?))),
        None => Ok(None),
    }
}

// Adds that the feature is asked for on the platforms.
fn add_feature(
    alloc: Global,
    statuses: &mut BTreeMap<String, PlatformStatusImpl>,
    feature: &str,
    spec: Option<&TargetSpec>,
) -> Result<(), AllocError>
    ensures { OnOk result ((name : List ℕ) → status_at statuses.new name
        ≡ (if bytes_eq name feature.now
        then asked_too (status_at statuses.old name) (option_copied spec.entry)
        else status_at statuses.old name)) }
{
    let name = String::from_str(alloc, feature)?;
    let status = statuses
        .entry(name)?
        .or_insert(PlatformStatusImpl::never(alloc));
    status.add_spec(spec)
}

// Adds that these features are asked for on the platforms.
fn add_features(
    alloc: Global,
    statuses: &mut BTreeMap<String, PlatformStatusImpl>,
    features: &[&str],
    spec: Option<&TargetSpec>,
) -> Result<(), AllocError>
    ensures { OnOk result ((name : List ℕ) → status_at statuses.new name
        ≡ fold asked_too (status_at statuses.old name)
        (map (λ _. option_copied spec.entry) (filter (λ f. bytes_eq name f.now) features.now))) }
{
    for feature in features {
        add_feature(alloc, statuses, feature, spec)?;
    }
    Ok(())
}

// Adds what a declared dependency asks for.
fn add_to_side(
    alloc: Global,
    side: &mut DepRequiredOrOptional,
    declared: &Declared<'_>,
) -> Result<(), AllocError>
    ensures built { OnOk result (recorded_status side.new.build_if
        ≡ with_spec (recorded_status side.old.build_if) (option_copied declared.now.target)) }
    ensures with_defaults { OnOk result (recorded_status side.new.default_features_if
        ≡ (if declared.now.default_features
        then with_spec (recorded_status side.old.default_features_if)
        (option_copied declared.now.target)
        else recorded_status side.old.default_features_if)) }
    ensures without_defaults { OnOk result (recorded_status side.new.no_default_features_if
        ≡ (if declared.now.default_features
        then recorded_status side.old.no_default_features_if
        else with_spec (recorded_status side.old.no_default_features_if)
        (option_copied declared.now.target))) }
    ensures features { OnOk result ((name : List ℕ) → status_at side.new.feature_targets name
        ≡ fold asked_too (status_at side.old.feature_targets name)
        (asks_for name declared.now)) }
{
    let spec = spec_of(alloc, declared.target)?;
    side.build_if.add_spec(spec.as_ref())?;
    if declared.default_features {
        side.default_features_if.add_spec(spec.as_ref())?;
    } else {
        side.no_default_features_if.add_spec(spec.as_ref())?;
    }
    let features = declared.features.as_slice();
    add_features(alloc, &mut side.feature_targets, features, spec.as_ref())
}

fn add_to_section(
    alloc: Global,
    section: &mut DependencyReqImpl,
    declared: &Declared<'_>,
) -> Result<(), AllocError>
    ensures required { declared.now.optional ≡ true → section.new.required ≡ section.old.required }
    ensures optional { declared.now.optional ≡ false → section.new.optional ≡ section.old.optional }
    ensures gathered { OnOk result ((before : List Declared)
        → IsSection before section.old → IsSection (before ++ declared.now ∷ []) section.new) }
{
    if declared.optional {
        add_to_side(alloc, &mut section.optional, declared)
    } else {
        add_to_side(alloc, &mut section.required, declared)
    }
}

// The own text, or else a copy of the other.
fn first_text(
    alloc: Global,
    own: Option<String>,
    other: Option<&str>,
) -> Result<Option<String>, AllocError>
    ensures { IfOk result (λ text. option_map string_bytes text
        ≡ option_or (option_map string_bytes own) (option_copied other.entry)) }
{
    match own {
        Some(own) => Ok(Some(own)),
        None => optional_copy(alloc, other),
    }
}

// The own path, or else a copy of the other.
fn first_path(
    alloc: Global,
    own: Option<Utf8PathBuf>,
    other: Option<&str>,
) -> Result<Option<Utf8PathBuf>, AllocError>
    ensures { IfOk result (λ path. path ≡ option_or own (option_copied other.entry)) }
{
    match own {
        Some(own) => Ok(Some(own)),
        None => match other {
            Some(other) => Ok(Some(Utf8PathBuf::new(String::from_str(alloc, other)?))),
            None => Ok(None),
        },
    }
}

// Adds a declared dependency to the link. Of registries and paths the first one counts.
fn add_declared(
    alloc: Global,
    link: &mut LinkRecord,
    declared: &Declared<'_>,
) -> Result<(), AllocError>
    ensures joins { (from to name : List ℕ)
        → Joins from to name link.old → Joins from to name link.new }
    ensures named { (first : Declared) → IsNamedAs first link.old → IsNamedAs first link.new }
    ensures gathered { OnOk result ((before : List Declared)
        → IsGathered before link.old → IsGathered (before ++ declared.now ∷ []) link.new) }
{
    link.registry = first_text(alloc, link.registry.take(), declared.registry)?;
    link.path = first_path(alloc, link.path.take(), declared.path)?;
    match declared.section {
        DependencyKind::Normal => add_to_section(alloc, &mut link.normal, declared),
        DependencyKind::Build => add_to_section(alloc, &mut link.build, declared),
        DependencyKind::Development => add_to_section(alloc, &mut link.dev, declared),
    }
}

/// Adds those declared dependencies to the link that were resolved to the package, as the first one was.
pub(crate) fn add_fitting(
    alloc: Global,
    link: &mut LinkRecord,
    declared: &[Declared<'_>],
    wanted: &Wanted<'_, '_, '_>,
) -> Result<(), AllocError>
    requires { IfSome (slice_get declared.now 0)
        (λ first. fits wanted.now.asking.now wanted.now.resolved.now wanted.now.needed.now first ≡ true) }
    ensures joins { (one other name : List ℕ)
        → Joins one other name link.old → Joins one other name link.new }
    ensures named { (first : Declared) → IsNamedAs first link.old → IsNamedAs first link.new }
    ensures gathered { OnOk result (IsGathered [] link.old
        → IsGathered (filter (fits wanted.now.asking.now wanted.now.resolved.now wanted.now.needed.now) declared.now)
        link.new) }
{
    for (index, dependency) in declared.iter().enumerate() {
        if index == 0 || fits(dependency, wanted) {
            add_declared(alloc, link, dependency)?;
        }
    }
    Ok(())
}
