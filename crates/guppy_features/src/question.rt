//! A graph with what is asked of it.
ghost use Rattle.std.specs.Prelude.{◌≡◌, ◌↔◌, ◌<◌, length, IsTrue, Some, slice_get};
ghost use Rattle.std.specs.List.{list_any};
ghost use Rattle.guppy_data.specs.Platform.{recorded_status, seen_status, status_value, question_of as platforms_of};
ghost use Rattle.guppy_target.specs.Answer.{answer_of};
ghost use Rattle.guppy_features.specs.Facts.{feature_fact, switched_fact};
ghost use Rattle.guppy_features.specs.Dependencies.{seen_dependency};
ghost use Rattle.guppy_features.specs.Questions.{question_of, splits, is_initial, is_macro, is_macro_library, is_on, platforms_for, may_ask, may_be, counts, side_of, use_of};

use crate::dependencies::Dependency;
use crate::fact::{BuildPlatform, Fact};
use crate::options::{CargoOptions, CargoResolverVersion};
use guppy_data::{
    BuildTargetKindRecord, BuildTargetRecord, DependencyKind, EnabledTernary, OwnedBuildTargetId,
    PlatformSpec, PlatformStatus, PlatformStatusImpl,
};
use guppy_graph::RecordGraph;
use guppy_target::{CfgEval, Platform};

/// What is asked of a graph.
#[derive(Clone, Copy)]
pub struct Asked<'a> {
    /// The graph.
    pub graph: &'a RecordGraph,
    /// What is asked.
    pub options: &'a CargoOptions<'a>,
}

impl<'a> Asked<'a> {
    /// Whether the sides are apart: not with resolver 1.
    pub fn splits(self) -> bool
        ensures { result ≡ splits (question_of self.entry) }
    {
        !matches!(self.options.resolver, CargoResolverVersion::V1)
    }

    // Whether the package is chosen.
    fn is_initial(self, position: usize) -> bool
        ensures { result ≡ is_initial (question_of self.entry) position }
    {
        self.options
            .initials
            .iter()
            .any(|initial| initial.position == position)
    }

    /// Whether the library of the package is a procedural macro.
    pub fn is_macro(self, position: usize) -> bool
        requires { position < length self.graph.now.packages }
        ensures { result ≡ is_macro (question_of self.entry) position }
    {
        has_macro_library(self.graph.package_at(position).build_targets.as_slice())
    }

    /// Whether what has the status is on for a package on the side, in a section: with resolver 1 if there is a
    /// platform for it, and else if it is for one that counts there, as far as it can be told.
    pub(crate) fn is_on(
        self,
        side: BuildPlatform,
        section: DependencyKind,
        status: &PlatformStatusImpl,
    ) -> bool
        ensures { result ≡ is_on (question_of self.entry) side section (recorded_status status.now) }
    {
        let status = PlatformStatus::new(status);
        if !self.splits() {
            return status.is_present();
        }
        may_be_on(status, self.platforms_for(side, section))
    }

    // The platforms that count for a package on the side, in the section.
    fn platforms_for(
        self,
        side: BuildPlatform,
        section: DependencyKind,
    ) -> &'a PlatformSpec<Platform>
        ensures { result.now ≡ platforms_for (question_of self.entry) side section }
    {
        if side == BuildPlatform::Host || section == DependencyKind::Build {
            self.options.host_platform
        } else {
            self.options.target_platform
        }
    }

    /// Whether dependencies of the section of the package count at all.
    pub(crate) fn may_ask(self, position: usize, section: DependencyKind) -> bool
        ensures { result ≡ may_ask (question_of self.entry) position section }
    {
        if section != DependencyKind::Development {
            return true;
        }
        (self.options.tests || !self.splits()) && self.is_initial(position)
    }

    /// Whether the dependency counts on the side.
    pub(crate) fn counts(self, side: BuildPlatform, dependency: &Dependency<'_>) -> bool
        ensures { result ≡ counts (question_of self.entry) side (seen_dependency dependency.now) }
    {
        self.may_ask(dependency.from, dependency.section)
            && self.is_on(side, dependency.section, &dependency.part.build_if)
    }

    /// The side that the dependency's package is on, for a package on the side.
    pub fn side_of(self, side: BuildPlatform, dependency: &Dependency<'_>) -> BuildPlatform
        requires { dependency.now.to < length self.graph.now.packages }
        ensures { result ≡ side_of (question_of self.entry) side (seen_dependency dependency.now) }
    {
        if !self.splits() {
            return side;
        }
        if dependency.section == DependencyKind::Build || self.is_macro(dependency.to) {
            BuildPlatform::Host
        } else {
            side
        }
    }

    /// That the package's feature of the name is on, if it has one.
    pub fn feature(self, position: usize, side: BuildPlatform, name: &str) -> Option<Fact>
        requires { position < length self.graph.now.packages }
        ensures { result ≡ feature_fact self.entry.graph.now.packages position side name.now }
    {
        let features = &self.graph.package_at(position).named_features;
        let place = features.get_index_of(name)?;
        Some(Fact::feature(position, side, place))
    }

    /// That the package's optional dependency of the name is switched on, if it has one.
    pub(crate) fn switched(self, position: usize, side: BuildPlatform, name: &str) -> Option<Fact>
        requires { position < length self.graph.now.packages }
        ensures { result ≡ switched_fact self.entry.graph.now.packages position side name.now }
    {
        let names = &self.graph.package_at(position).optional_deps;
        let place = names.get_index_of(name)?;
        Some(Fact::switched(position, side, place))
    }

    /// What holds where the dependency is used on the side: that its package takes part, or that the optional one is
    /// switched on.
    pub fn use_of(self, side: BuildPlatform, dependency: &Dependency<'_>) -> Option<Fact>
        requires { dependency.now.from < length self.graph.now.packages }
        ensures { result ≡ use_of (question_of self.entry) side (seen_dependency dependency.now) }
    {
        if dependency.is_optional {
            self.switched(dependency.from, side, dependency.name)
        } else {
            Some(Fact::part(dependency.from, side))
        }
    }
}

/// Whether what has the status is on on one of the platforms, as far as it can be told.
pub fn may_be_on(status: PlatformStatus<'_>, platform: &PlatformSpec<Platform>) -> bool
    ensures { result ≡ may_be (status_value answer_of (seen_status status.entry) (platforms_of platform.now)) }
{
    status.enabled_on(platform, &CfgEval) != EnabledTernary::Disabled
}

fn has_macro_library(targets: &[BuildTargetRecord]) -> bool
    ensures { result ≡ list_any is_macro_library targets.now }
{
    targets.iter().any(|target| is_macro_library(target))
}

/// Whether the target is a library that is a procedural macro.
pub fn is_macro_library(target: &BuildTargetRecord) -> bool
    ensures { result ≡ is_macro_library target.now }
{
    matches!(target.id, OwnedBuildTargetId::Library)
        && matches!(target.kind, BuildTargetKindRecord::ProcMacro)
}
