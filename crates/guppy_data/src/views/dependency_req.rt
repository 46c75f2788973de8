ghost use Rattle.std.specs.Prelude.{◌≡◌, ◌++◌};
ghost use Rattle.std.specs.Bool.{OnTrue, OnFalse};
ghost use Rattle.std.specs.Ordering.{nat_cmp};
ghost use Rattle.std.specs.Cmp.Lexicographic.{slice_cmp};
ghost use Rattle.std.specs.List.Sorted.{IsStrictlySortedBy};
ghost use Rattle.guppy_data.specs.Platform.{Never, seen_status, recorded_status};
ghost use Rattle.guppy_data.specs.DependencyReq.{status_of_feature};
ghost use Rattle.guppy_data.specs.EnabledStatus.{required_of, optional_of};

use crate::platform::status::{PlatformStatus, PlatformStatusImpl};
use crate::records::{DepRequiredOrOptional, DependencyReqImpl};
use crate::views::enabled_status::EnabledStatus;
use std::collections::btree_map::Keys;

/// A dependency of one kind, as a view of a [`DependencyReqImpl`]: on which platforms it is there, as
/// a required and as an optional one. No call takes memory.
#[derive(Clone, Copy, Debug)]
pub struct DependencyReq<'g> {
    req: &'g DependencyReqImpl,
}

impl<'g> DependencyReq<'g> {
    ghost use Rattle.guppy_data.specs.DependencyReq.{seen_req, feature_names, names_left};

    /// The view of a record.
    pub fn new(req: &'g DependencyReqImpl) -> Self
        ensures { seen_req result ≡ req.now }
    {
        DependencyReq { req }
    }

    /// Whether the dependency may be there on some platform: [`DependencyReq::status`] isn't never.
    pub fn is_present(self) -> bool
        ensures present { OnTrue result
            (¬ ((recorded_status (seen_req self.entry).required.build_if ≡ Never)
            × (recorded_status (seen_req self.entry).optional.build_if ≡ Never))) }
        ensures never { OnFalse result
            ((recorded_status (seen_req self.entry).required.build_if ≡ Never)
            × (recorded_status (seen_req self.entry).optional.build_if ≡ Never)) }
    {
        !self.req.required.build_if.is_never() || !self.req.optional.build_if.is_never()
    }

    /// Where the dependency is built.
    pub fn status(self) -> EnabledStatus<'g>
        ensures required { required_of result
            ≡ recorded_status (seen_req self.entry).required.build_if }
        ensures optional { optional_of result
            ≡ recorded_status (seen_req self.entry).optional.build_if }
    {
        EnabledStatus::new(
            PlatformStatus::new(&self.req.required.build_if),
            PlatformStatus::new(&self.req.optional.build_if),
        )
    }

    /// Where the dependency is built with its default features.
    pub fn default_features(self) -> EnabledStatus<'g>
        ensures required { required_of result
            ≡ recorded_status (seen_req self.entry).required.default_features_if }
        ensures optional { optional_of result
            ≡ recorded_status (seen_req self.entry).optional.default_features_if }
    {
        EnabledStatus::new(
            PlatformStatus::new(&self.req.required.default_features_if),
            PlatformStatus::new(&self.req.optional.default_features_if),
        )
    }

    /// Where the dependency is built without its default features.
    pub fn no_default_features(self) -> EnabledStatus<'g>
        ensures required { required_of result
            ≡ recorded_status (seen_req self.entry).required.no_default_features_if }
        ensures optional { optional_of result
            ≡ recorded_status (seen_req self.entry).optional.no_default_features_if }
    {
        EnabledStatus::new(
            PlatformStatus::new(&self.req.required.no_default_features_if),
            PlatformStatus::new(&self.req.optional.no_default_features_if),
        )
    }

    /// The names of the features that have a status: those of the required part, ascending by their
    /// bytes, then those of the optional part, ascending. A name in both comes twice.
    pub fn features(self) -> Features<'g>
        ensures names { names_left result
            ≡ feature_names (seen_req self.entry).required
            ++ feature_names (seen_req self.entry).optional }
        ensures required_ascend { IsStrictlySortedBy (slice_cmp nat_cmp)
            (feature_names (seen_req self.entry).required) }
        ensures optional_ascend { IsStrictlySortedBy (slice_cmp nat_cmp)
            (feature_names (seen_req self.entry).optional) }
    {
        let required = self.req.required.feature_targets.keys();
        let optional = self.req.optional.feature_targets.keys();
        Features { required, optional }
    }

    /// Where the dependency is built with the feature of this name, by a search in either part, of the
    /// order of log n comparisons for n features. A part that hasn't the name has the status never.
    pub fn feature_status(self, feature: &str) -> EnabledStatus<'g>
        ensures required { required_of result
            ≡ status_of_feature (seen_req self.entry).required feature.now }
        ensures optional { optional_of result
            ≡ status_of_feature (seen_req self.entry).optional feature.now }
    {
        EnabledStatus::new(
            status_in(&self.req.required, feature),
            status_in(&self.req.optional, feature),
        )
    }
}

fn status_in<'g>(part: &'g DepRequiredOrOptional, feature: &str) -> PlatformStatus<'g>
    ensures { seen_status result ≡ status_of_feature part.now feature.now }
{
    match part.feature_targets.get(feature) {
        Some(status) => PlatformStatus::new(status),
        None => PlatformStatus::Never,
    }
}

/// The names of a dependency's features that are still to come, of the required part first. Takes no
/// memory.
#[derive(Drop)]
pub struct Features<'g> {
    required: Keys<'g, String, PlatformStatusImpl>,
    optional: Keys<'g, String, PlatformStatusImpl>,
}

impl<'g> Iterator for Features<'g> {
    ghost use Rattle.std.specs.Iterator.{YieldsFirstRef, item_count};
    ghost use Rattle.guppy_data.specs.DependencyReq.{names_left};

    type Item = &'g str;

    ghost next_gives = { YieldsFirstRef names_left };

    ghost remaining = { item_count names_left };

    fn next(&mut self) -> Option<&'g str> {
        match self.required.next() {
            Some(name) => Some(name.as_str()),
            None => match self.optional.next() {
                Some(name) => Some(name.as_str()),
                None => None,
            },
        }
    }
}
