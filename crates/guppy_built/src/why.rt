//! Why a feature is on.
ghost use Rattle.std.specs.Prelude.{◌≡◌, ◌<◌, All, IfErr, IfOk, IfSome, IsSomeAnd, MatchOption, None, is_some, length, map, slice_get};
ghost use Rattle.guppy_graph.specs.Ids.{HasId, IsKnown};
ghost use Rattle.guppy_features.specs.Facts.{feature_place};
ghost use Rattle.guppy_features.specs.Questions.{question};
ghost use Rattle.guppy_built.specs.Asked.{choice_of};
ghost use Rattle.guppy_built.specs.Names.{step_shown};
ghost use Rattle.guppy_built.specs.Rows.{IsFeatureOn};
ghost use Rattle.guppy_built.specs.Why.{IsWhy, IsWhyFault, IsWhyFeature, IsWhyOn};

use crate::asked::options_of;
use crate::fault::BuiltFault;
use crate::members::{checked_members, position_of};
use crate::names::{NamedReason, named_steps};
use crate::question::BuildQuestion;
use crate::resolved::all_resolved;
use guppy_data::PackageId;
use guppy_features::{BuildPlatform, CargoSet};
use guppy_graph::RecordGraph;
use std::alloc::{AllocError, Global};

// Why the package's feature of the name is on on the side, if it is.
fn why_on<'a>(
    alloc: Global,
    graph: &'a RecordGraph,
    set: &CargoSet<'_>,
    position: usize,
    side: BuildPlatform,
    name: &str,
) -> Result<Option<Vec<NamedReason<'a>>>, AllocError>
    requires graph { set.now.graph ≡ graph.now }
    requires within { position < length graph.now.packages }
    ensures { IfOk result (λ found. MatchOption found (¬ IsFeatureOn set.now position side name.now)
        (λ steps. IsWhyOn set.now position side name.now (map step_shown steps.items))) }
{
    let Some(fact) = set.asked().feature(position, side, name) else {
        return Ok(None);
    };
    match set.why(alloc, fact)? {
        Some(reasons) => Ok(Some(named_steps(alloc, graph, reasons.as_slice())?)),
        None => Ok(None),
    }
}

// Why it is on on one of the sides, the target's first.
fn why_on_one<'a>(
    alloc: Global,
    graph: &'a RecordGraph,
    set: &CargoSet<'_>,
    position: usize,
    name: &str,
) -> Result<Option<Vec<NamedReason<'a>>>, AllocError>
    requires graph { set.now.graph ≡ graph.now }
    requires within { position < length graph.now.packages }
    ensures on { IfOk result (λ found. IfSome found
        (λ steps. IsWhyFeature set.now position name.now (map step_shown steps.items))) }
    ensures off { IfOk result (λ found. found ≡ None → ¬ IsFeatureOn set.now position BuildPlatform.Target name.now
        × ¬ IsFeatureOn set.now position BuildPlatform.Host name.now) }
{
    if let Some(steps) = why_on(alloc, graph, set, position, BuildPlatform::Target, name)? {
        return Ok(Some(steps));
    }
    why_on(alloc, graph, set, position, BuildPlatform::Host, name)
}

// Whether the package has a feature of the name.
fn has_feature(graph: &RecordGraph, position: usize, name: &str) -> bool
    requires { position < length graph.now.packages }
    ensures { IsSomeAnd (slice_get graph.now.packages position) (λ r. is_some (feature_place r name.now) ≡ result) }
{
    let features = &graph.package_at(position).named_features;
    features.get_index_of(name).is_some()
}

/// Why the feature of the name of the package with the ID is on where Cargo builds the choice: who asks for it, in steps,
/// each behind those that its own follows from, the last one that the feature is on. Nothing that isn't needed is told.
/// Where it is on on both sides, that of the target is told.
///
/// The members' IDs, and this one, have to be known. Fails with `LacksFeature` where the package has no feature of the
/// name, then as [`built_packages`](crate::built_packages) does, with `FeatureOff` where the feature is on on neither
/// side, and else with `OutOfMemory` only where there is none. Time and memory are those of [`CargoSet::new`],
/// [`CargoSet::first_unresolved`] and [`CargoSet::why`].
pub fn why_feature<'a>(
    alloc: Global,
    graph: &'a RecordGraph,
    question: &BuildQuestion<'_, 'a>,
    id: &PackageId,
    name: &str,
) -> Result<Vec<NamedReason<'a>>, BuiltFault<'a>>
    requires members { All (IsKnown graph.now.packages) question.now.members.now }
    requires package { IsKnown graph.now.packages id.now }
    ensures ok { IfOk result (λ steps. IsWhy graph.now (choice_of question.now) id.now name.now
        (map step_shown steps.items)) }
    ensures err { IfErr result (IsWhyFault graph.now (choice_of question.now) id.now name.now) }
{
    let position = position_of(graph, id);
    if !has_feature(graph, position, name) {
        return Err(BuiltFault::LacksFeature);
    }
    let members = checked_members(alloc, graph, question.members)?;
    let options = options_of(alloc, graph, question, members.as_slice())?;
    let set = CargoSet::new(graph, &options)?;
    all_resolved(graph, &set)?;
    match why_on_one(alloc, graph, &set, position, name)? {
        Some(steps) => Ok(steps),
        None => Err(BuiltFault::FeatureOff),
    }
}
