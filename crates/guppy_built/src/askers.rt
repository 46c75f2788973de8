//! Which features of a package are on, and who asks for them.
ghost use Rattle.std.specs.Prelude.{◌≡◌, ◌++◌, ◌<◌, All, IfErr, IfOk, IfSome, OnOk, None, length, map, option_map};
ghost use Rattle.std.specs.List.{filter_map};
ghost use Rattle.guppy_graph.specs.Ids.{IsKnown};
ghost use Rattle.guppy_features.specs.Reasons.{grounds};
ghost use Rattle.guppy_built.specs.Asked.{choice_of};
ghost use Rattle.guppy_built.specs.Features.{AreAskers, AreFeatures, AreOnSide, AreOnSides, IsFeature, feature_shown, id_at, needed_positions};
ghost use Rattle.guppy_built.specs.Refused.{IsBuiltFault};
ghost use Rattle.guppy_built.specs.Rows.{IsFeatureOn};

use crate::asked::options_of;
use crate::fault::BuiltFault;
use crate::members::{checked_members, position_of};
use crate::question::BuildQuestion;
use crate::resolved::all_resolved;
use guppy_data::{PackageId, SortedSet};
use guppy_features::{BuildPlatform, CargoSet, Fact, Reason};
use guppy_graph::RecordGraph;
use std::alloc::{AllocError, Global};

/// A feature that is on.
#[derive(Debug, Drop)]
pub struct FeatureOn<'a> {
    /// The side on which it is on.
    pub side: BuildPlatform,
    /// Its name.
    pub name: &'a str,
    /// The packages that ask for it, by position: those of which something holds from which it follows. A chosen package
    /// that is asked for it by the command line alone has none.
    pub askers: Vec<&'a PackageId>,
}

// Adds the positions of the packages of all that the way needs.
fn add_positions(positions: &mut Vec<usize>, way: &Reason) -> Result<(), AllocError>
    ensures { OnOk result (positions.new.items ≡ positions.old.items
        ++ map (λ f. f.position) (grounds way.now)) }
{
    if let Some(fact) = way.first {
        positions.push(fact.position)?;
    }
    if let Some(fact) = way.second {
        positions.push(fact.position)?;
    }
    Ok(())
}

// The positions of the packages of all that the ways need.
fn needed_positions(alloc: Global, ways: &[Reason]) -> Result<Vec<usize>, AllocError>
    ensures { IfOk result (λ positions. positions.items ≡ needed_positions ways.now) }
{
    let mut positions = Vec::new(alloc);
    for way in ways {
        add_positions(&mut positions, way)?;
    }
    Ok(positions)
}

// The ID of the package at the position, if there is one.
fn id_at(graph: &RecordGraph, position: usize) -> Option<&PackageId>
    ensures { option_map (λ id. id.now) result ≡ id_at graph.now position }
{
    let package = graph.dep_graph().nodes().get(position)?;
    Some(&package.id)
}

// The IDs of the packages at these positions.
fn ids_at<'a>(
    alloc: Global,
    graph: &'a RecordGraph,
    positions: &[usize],
) -> Result<Vec<&'a PackageId>, AllocError>
    ensures { IfOk result (λ ids. map (λ id. id.now) ids.items ≡ filter_map (id_at graph.now) positions.now) }
{
    let mut ids = Vec::new(alloc);
    for position in positions {
        if let Some(id) = id_at(graph, *position) {
            ids.push(id)?;
        }
    }
    Ok(ids)
}

// The packages that ask for the fact.
fn askers_of<'a>(
    alloc: Global,
    graph: &'a RecordGraph,
    set: &CargoSet<'_>,
    fact: Fact,
) -> Result<Vec<&'a PackageId>, AllocError>
    requires { set.now.graph ≡ graph.now }
    ensures { IfOk result (λ ids. AreAskers set.now fact (map (λ id. id.now) ids.items)) }
{
    let ways = set.ways(alloc, fact)?;
    let positions = SortedSet::new(needed_positions(alloc, ways.as_slice())?);
    ids_at(alloc, graph, positions.as_slice())
}

// The package's feature of the name, if it is on on the side, with who asks for it.
fn feature_on<'a>(
    alloc: Global,
    graph: &'a RecordGraph,
    set: &CargoSet<'_>,
    position: usize,
    side: BuildPlatform,
    name: &'a str,
) -> Result<Option<FeatureOn<'a>>, AllocError>
    requires graph { set.now.graph ≡ graph.now }
    requires within { position < length graph.now.packages }
    ensures off { IfOk result (λ found. found ≡ None → ¬ IsFeatureOn set.now position side name.now) }
    ensures on { IfOk result (λ found. IfSome found (λ on. IsFeatureOn set.now position side name.now)) }
    ensures named { IfOk result (λ found. IfSome found (λ on. on.name.now ≡ name.now)) }
    ensures feature { IfOk result (λ found. IfSome found
        (λ on. IsFeature set.now position side (feature_shown on))) }
{
    let Some(fact) = set.asked().feature(position, side, name) else {
        return Ok(None);
    };
    if !set.contains(fact) {
        return Ok(None);
    }
    Ok(Some(FeatureOn {
        side,
        name,
        askers: askers_of(alloc, graph, set, fact)?,
    }))
}

// The features of the package that are on on the side.
fn features_at<'a>(
    alloc: Global,
    graph: &'a RecordGraph,
    set: &CargoSet<'_>,
    position: usize,
    side: BuildPlatform,
) -> Result<Vec<FeatureOn<'a>>, AllocError>
    requires graph { set.now.graph ≡ graph.now }
    requires within { position < length graph.now.packages }
    ensures { IfOk result (λ rows. AreOnSide set.now position side (map feature_shown rows.items)) }
{
    let package = graph.package_at(position);
    let mut rows = Vec::new(alloc);
    for name in package.named_features.keys() {
        if let Some(on) = feature_on(alloc, graph, set, position, side, name.as_str())? {
            rows.push(on)?;
        }
    }
    Ok(rows)
}

// Those that are on on both sides, the target's first.
fn features_on_sides<'a>(
    alloc: Global,
    graph: &'a RecordGraph,
    set: &CargoSet<'_>,
    position: usize,
) -> Result<Vec<FeatureOn<'a>>, AllocError>
    requires graph { set.now.graph ≡ graph.now }
    requires within { position < length graph.now.packages }
    ensures { IfOk result (λ rows. AreOnSides set.now position (map feature_shown rows.items)) }
{
    let mut rows = features_at(alloc, graph, set, position, BuildPlatform::Target)?;
    let mut more = features_at(alloc, graph, set, position, BuildPlatform::Host)?;
    rows.append(&mut more)?;
    Ok(rows)
}

/// The features of the package with the ID that are on where Cargo builds the choice, those on the target's side first,
/// each side in the order of the record, and who asks for each.
///
/// The members' IDs, and this one, have to be known. Fails as [`built_packages`](crate::built_packages) does. Takes the
/// time and memory of [`CargoSet::new`] and [`CargoSet::first_unresolved`], and of [`CargoSet::ways`] for each feature
/// that is on.
pub fn features_of<'a>(
    alloc: Global,
    graph: &'a RecordGraph,
    question: &BuildQuestion<'_, 'a>,
    id: &PackageId,
) -> Result<Vec<FeatureOn<'a>>, BuiltFault<'a>>
    requires members { All (IsKnown graph.now.packages) question.now.members.now }
    requires package { IsKnown graph.now.packages id.now }
    ensures ok { IfOk result (λ rows. AreFeatures graph.now (choice_of question.now) id.now
        (map feature_shown rows.items)) }
    ensures err { IfErr result (IsBuiltFault graph.now (choice_of question.now)) }
{
    let position = position_of(graph, id);
    let members = checked_members(alloc, graph, question.members)?;
    let options = options_of(alloc, graph, question, members.as_slice())?;
    let set = CargoSet::new(graph, &options)?;
    all_resolved(graph, &set)?;
    Ok(features_on_sides(alloc, graph, &set, position)?)
}
