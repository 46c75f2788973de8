//! Tells what Cargo resolves for a build and what it builds, as `guppy_features` and `guppy_builds` have it, a fact a
//! line; `.ci/features.py` judges it.
//!
//! The JSON of `cargo metadata --all-features` stands on standard input, and what is asked in the arguments:
//! `-p MEMBER`, also several, `--features F,..`, `--all-features`, `--no-default-features`, `--tests`, `--resolver N`,
//! and `--host TRIPLE --cfgs TEXT`, then `--platform TRIPLE --cfgs TEXT` for each platform that is built for, where TEXT
//! is what `rustc --print cfg` prints, with a space for the end of a line.
//!
//! - `words`: what the arguments say;
//! - `initials`: which members are chosen by them, and what each package is asked for.
#![tactic(auto)]

ghost use Rattle.std.specs.Prelude.{◌<◌, length, All, IfOk};

mod initials;
mod words;

use crate::initials::{initials_of, members_of};
use crate::words::Words;
use anyhow::bail;
use guppy_builds::{Build, BuildMode, BuildPlace, BuildSet};
use guppy_data::PlatformSpec;
use guppy_features::{BuildPlatform, CargoOptions, CargoSet, Fact};
use guppy_graph::RecordGraph;
use guppy_metadata::records_of;
use guppy_target::Platform;
use std::alloc::Global;
use std::io::{Read, Write};
use std::{env, mem};

fn side_name(side: BuildPlatform) -> &'static str {
    match side {
        BuildPlatform::Target => "target",
        BuildPlatform::Host => "host",
    }
}

// Tells what holds of the package at the position on the side.
fn tell(
    rt: &HostRuntime,
    graph: &RecordGraph,
    set: &CargoSet,
    position: usize,
    side: BuildPlatform,
) -> anyhow::Result<()>
    requires { position < length graph.now.packages }
{
    let package = graph.package_at(position);
    let (name, version, on) = (package.name.as_str(), &package.version, side_name(side));
    if set.contains(Fact::part(position, side)) {
        writeln!(rt.stdout(), "part {name} {version} {on}")?;
    }
    for (place, feature) in package.named_features.keys().enumerate() {
        if set.contains(Fact::feature(position, side, place)) {
            writeln!(rt.stdout(), "feature {name} {version} {on} {feature}")?;
        }
    }
    Ok(())
}

// The name of the platform of the place.
fn platform_name(words: &Words, place: BuildPlace) -> &str {
    let name = match place {
        BuildPlace::Target(place) => words.target_triples.get(place),
        BuildPlace::Host => words.host_triples.first(),
    };
    name.map_or("", |name| name.as_str())
}

// Tells what is built, and what of it with its dev-dependencies.
fn tell_builds(
    rt: &HostRuntime,
    graph: &RecordGraph,
    words: &Words,
    set: &BuildSet,
) -> anyhow::Result<()> {
    for build in set.builds(graph.alloc())? {
        if build.position >= graph.package_count() || build.mode != BuildMode::Build {
            continue;
        }
        let package = graph.package_at(build.position);
        let (name, version, on) = (
            package.name.as_str(),
            &package.version,
            side_name(build.place.side()),
        );
        let platform = platform_name(words, build.place);
        writeln!(rt.stdout(), "built {name} {version} {on} {platform}")?;
        if set.contains(Build::tested(build.position, build.place)) {
            writeln!(rt.stdout(), "tested {name} {version} {on} {platform}")?;
        }
    }
    Ok(())
}

// The graph of the JSON on standard input.
fn graph_of(rt: &HostRuntime) -> anyhow::Result<RecordGraph> {
    let mut json = String::new(rt.alloc());
    rt.stdin().read_to_string(&mut json)?;
    let records = records_of(rt.alloc(), json.as_str())?;
    let graph = RecordGraph::from_records(records.packages, records.links, records.workspace)?;
    Ok(graph)
}

// What the arguments ask.
fn words_of(rt: &HostRuntime) -> anyhow::Result<Words> {
    let mut words = Words::new(rt.alloc());
    for word in env::args(rt)?.skip(1) {
        words.add(word)?;
    }
    Ok(words)
}

// The platforms, which are taken out of the words.
fn platforms_in(alloc: Global, platforms: &mut Vec<Platform>) -> PlatformSpec<Platform> {
    PlatformSpec::Platforms(mem::replace(platforms, Vec::new(alloc)))
}

// What is asked of Cargo, on these platforms.
fn options_of<'a>(
    graph: &RecordGraph,
    words: &Words,
    target_platform: &'a PlatformSpec<Platform>,
    host_platform: &'a PlatformSpec<Platform>,
) -> anyhow::Result<CargoOptions<'a>>
    ensures { IfOk result
        (λ options. All (λ i. i.position < length graph.now.packages) options.initials.items) }
{
    let initials = initials_of(graph, words)?;
    Ok(CargoOptions {
        initials,
        tests: words.tests,
        resolver: words.resolver,
        target_platform,
        host_platform,
    })
}

// Tells what Cargo resolves.
fn tell_resolved(rt: &HostRuntime, graph: &RecordGraph, set: &CargoSet) -> anyhow::Result<()> {
    for position in 0..graph.package_count() {
        tell(rt, graph, set, position, BuildPlatform::Target)?;
        tell(rt, graph, set, position, BuildPlatform::Host)?;
    }
    Ok(())
}

// Tells what Cargo resolves and builds for these members.
fn tell_all(
    rt: &HostRuntime,
    graph: &RecordGraph,
    words: &Words,
    members: &[usize],
    options: &CargoOptions<'_>,
) -> anyhow::Result<()>
    requires initials { All (λ i. i.position < length graph.now.packages) options.now.initials.items }
    requires members { All (λ m. m < length graph.now.packages) members.now }
{
    let Ok(set) = CargoSet::new(graph, options) else {
        bail!("there is no memory, or there are too many clauses");
    };
    tell_resolved(rt, graph, &set)?;
    let Ok(builds) = BuildSet::new(&set, members) else {
        bail!("there is no memory, or there are too many clauses");
    };
    tell_builds(rt, graph, words, &builds)
}

fn main(rt: HostRuntime) -> anyhow::Result<()> {
    let graph = graph_of(&rt)?;
    let mut words = words_of(&rt)?;
    let members = members_of(&graph, &words)?;
    let target = platforms_in(rt.alloc(), &mut words.targets);
    let host = platforms_in(rt.alloc(), &mut words.host);
    let options = options_of(&graph, &words, &target, &host)?;
    tell_all(&rt, &graph, &words, members.as_slice(), &options)
}
