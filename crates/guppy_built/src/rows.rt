//! What is built, a row for each package on each platform.
ghost use Rattle.std.specs.Prelude.{◌≡◌, ◌<◌, All, IfErr, IfOk, IfSome, List, ℕ, None, Some, option_map, length, map, filter, slice_get, if◌then◌else◌};
ghost use Rattle.std.specs.List.{AllZip};
ghost use Rattle.guppy_graph.specs.Ids.{IsKnown};
ghost use Rattle.guppy_features.specs.Questions.{question};
ghost use Rattle.guppy_builds.specs.Building.{builds};
ghost use Rattle.guppy_built.specs.Asked.{AreChosen, IsChoiceFault, choice_of};
ghost use Rattle.guppy_built.specs.Refused.{IsBuiltFault};
ghost use Rattle.guppy_built.specs.Rows.{AreBuilt, AreBuiltAsResolved, AreRows, IsRow, has_row, is_alone, platform_name, row_of};

use crate::asked::options_of;
use crate::fault::BuiltFault;
use crate::features::{features_on, side_at};
use crate::members::{checked_members, chosen_members};
use crate::question::BuildQuestion;
use crate::resolved::all_resolved;
use guppy_builds::{Build, BuildMode, BuildPlace, BuildSet};
use guppy_data::{PackageId, PackageRecord, PlatformSpec};
use guppy_features::CargoSet;
use guppy_graph::RecordGraph;
use guppy_target::Platform;
use std::alloc::{AllocError, Global};

/// A package that is built for a platform.
#[derive(Debug, Drop)]
pub struct BuiltPackage<'a> {
    /// The package.
    pub id: &'a PackageId,
    /// What the platform is called: by its name, `target` where it has none, or `host`, which builds.
    pub platform: &'a str,
    /// Its features that are on there, in the order of its record.
    pub features: Vec<&'a str>,
}

// What the platform of the place is called.
fn platform_name(platforms: &PlatformSpec<Platform>, place: BuildPlace) -> &str
    ensures { result.now ≡ platform_name platforms.now place }
{
    match (place, platforms) {
        (BuildPlace::Host, _) => "host",
        (BuildPlace::Target(place), PlatformSpec::Platforms(list)) => match list.get(place) {
            Some(platform) => platform.triple_str(),
            None => "target",
        },
        (BuildPlace::Target(_), _) => "target",
    }
}

/// Where rows are made: the graph, what is on, and the platforms that are built for.
#[derive(Clone, Copy)]
struct Rows<'a, 's> {
    graph: &'a RecordGraph,
    platforms: &'a PlatformSpec<Platform>,
    set: &'s CargoSet<'s>,
    ghost same: { set.now.graph ≡ graph.now },
    ghost for_these: { set.now.options.target_platform.now ≡ platforms.now },
}

impl<'a> Rows<'a, '_> {
    // The package, if what is built has a row.
    fn package_of(self, build: &Build) -> Option<&'a PackageRecord>
        ensures { option_map (λ r. r.now) result ≡ (if has_row self.entry.graph.now build.now
            then slice_get self.entry.graph.now.packages build.now.position else None) }
    {
        if build.mode == BuildMode::Test {
            return None;
        }
        self.graph.dep_graph().nodes().get(build.position)
    }

    // The row of what is built of the package.
    fn row_of(
        self,
        alloc: Global,
        build: &Build,
        package: &'a PackageRecord,
    ) -> Result<BuiltPackage<'a>, AllocError>
        requires { slice_get self.graph.now.packages build.now.position ≡ Some «package».now }
        ensures { IfOk result (λ built. (members : List ℕ)
            → IsRow (builds self.entry.set.now members) build.now (row_of built)) }
    {
        let side = side_at(self.set, build.place);
        Ok(BuiltPackage {
            id: &package.id,
            platform: platform_name(self.platforms, build.place),
            features: features_on(alloc, self.set, build.position, side, package)?,
        })
    }

    // The rows of what is built.
    fn rows_of(self, alloc: Global, built: &[Build]) -> Result<Vec<BuiltPackage<'a>>, AllocError>
        ensures { IfOk result (λ rows. (members : List ℕ) → AllZip (IsRow (builds self.entry.set.now members))
            (filter (has_row self.entry.graph.now) built.now) (map row_of rows.items)) }
    {
        let mut rows = Vec::new(alloc);
        for build in built {
            if let Some(package) = self.package_of(build) {
                rows.push(self.row_of(alloc, build, package)?)?;
            }
        }
        Ok(rows)
    }
}

// The rows of what is built of these members, where the set says what is on.
fn rows_in<'a>(
    alloc: Global,
    graph: &'a RecordGraph,
    platforms: &'a PlatformSpec<Platform>,
    set: &CargoSet<'_>,
    members: &[usize],
) -> Result<Vec<BuiltPackage<'a>>, BuiltFault<'a>>
    requires graph { set.now.graph ≡ graph.now }
    requires for_these { set.now.options.target_platform.now ≡ platforms.now }
    requires within { All (λ m. m < length graph.now.packages) members.now }
    ensures ok { IfOk result (λ rows. AreRows (builds set.now members.now) (map row_of rows.items)) }
    ensures err { IfErr result (λ fault. fault ≡ BuiltFault.OutOfMemory) }
{
    let builds = BuildSet::new(set, members)?;
    let rows = Rows {
        graph,
        platforms,
        set,
    };
    Ok(rows.rows_of(alloc, builds.builds(alloc)?.as_slice())?)
}

/// What Cargo builds by the choice: a row for each package on each platform, by the positions of the packages.
///
/// The members' IDs have to be known. Fails with `NoMember`, with the place of the first of the question's members that
/// is none; with `UnknownFeature`, with the place of the first of the features that Cargo refuses; with `Unresolved`, of
/// the first optional dependency that is switched on and for which the metadata resolve nothing; and else with
/// `OutOfMemory` only where there is none. Time and memory are those of [`CargoSet::new`],
/// [`CargoSet::first_unresolved`] and [`BuildSet::new`].
pub fn built_packages<'a>(
    alloc: Global,
    graph: &'a RecordGraph,
    question: &BuildQuestion<'_, 'a>,
) -> Result<Vec<BuiltPackage<'a>>, BuiltFault<'a>>
    requires { All (IsKnown graph.now.packages) question.now.members.now }
    ensures ok { IfOk result (λ rows. AreBuilt graph.now (choice_of question.now) (map row_of rows.items)) }
    ensures err { IfErr result (IsBuiltFault graph.now (choice_of question.now)) }
{
    let members = checked_members(alloc, graph, question.members)?;
    let options = options_of(alloc, graph, question, members.as_slice())?;
    let set = CargoSet::new(graph, &options)?;
    all_resolved(graph, &set)?;
    rows_in(
        alloc,
        graph,
        question.target_platform,
        &set,
        members.as_slice(),
    )
}

/// The same of what the metadata resolve, whatever they lack: an optional dependency for which they resolve nothing adds
/// nothing. Each package that the question names is taken for a member.
///
/// The members' IDs have to be known. Fails with `UnknownFeature`, with the place of the first of the features that Cargo
/// refuses, and else with `OutOfMemory` only where there is none. Time and memory are those of [`CargoSet::new`] and
/// [`BuildSet::new`].
pub fn built_as_resolved<'a>(
    alloc: Global,
    graph: &'a RecordGraph,
    question: &BuildQuestion<'_, 'a>,
) -> Result<Vec<BuiltPackage<'a>>, BuiltFault<'a>>
    requires { All (IsKnown graph.now.packages) question.now.members.now }
    ensures ok { IfOk result (λ rows. AreBuiltAsResolved graph.now (choice_of question.now) (map row_of rows.items)) }
    ensures err { IfErr result (IsChoiceFault graph.now (choice_of question.now)) }
{
    let members = chosen_members(alloc, graph, question.members)?;
    let options = options_of(alloc, graph, question, members.as_slice())?;
    let set = CargoSet::new(graph, &options)?;
    rows_in(
        alloc,
        graph,
        question.target_platform,
        &set,
        members.as_slice(),
    )
}
