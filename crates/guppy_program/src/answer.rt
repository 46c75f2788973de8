//! What a command answers of a package graph.
ghost use Rattle.std.specs.Prelude.{◌≡◌, ◌↔◌, ◌∷◌, [], ℕ, List, map, option_map, codes, string_bytes, IfOk, IfErr, IsOkUnless, OnOk, All, length};
ghost use Rattle.std.specs.List.{AllZip};
ghost use Rattle.guppy_graph.specs.Ids.{IsKnown, DistinctBelow};
ghost use Rattle.guppy_graph.specs.Refused.{NamesId, IsFirstUnknown};
ghost use Rattle.guppy.specs.ListedCycles.{cycle_left};
ghost use Rattle.guppy.specs.Query.{IncludesId};
ghost use Rattle.guppy.specs.Views.{link_data};
ghost use Rattle.guppy_affected.specs.Folders.{given_in};
ghost use Rattle.guppy_process.specs.Cause.{Cause, library};
ghost use Rattle.guppy_program.specs.Answer.{IsReached, AreReached, IsReachAnswer, TellsDependence, IsDependsAnswer, IsOrderAnswer, IsRootsAnswer, IsLinksAnswer, IsCyclesAnswer, IsDuplicatesAnswer, IsVerifyAnswer, IsDotAnswer, IsAffectedAnswer, AreGiven, TellsAffected, IsFaultOn, IsWordFault, IsVerifyTold, IsLinkTold};
ghost use Rattle.guppy_program.specs.Meant.{Means};
ghost use Rattle.guppy_print.specs.Printed.{called};
ghost use Rattle.guppy_program.specs.Builds.{places_of};
ghost use Rattle.guppy_program.specs.Since.{AreChangedSince, HaveChanged, IsAnswerSince, IsSetting, IsSinceAnswer, TellsAffectedSince};
ghost use Rattle.guppy_changes.specs.Changes.{setting_of};
ghost use Rattle.guppy_command.specs.Shown.{asked_shown, command_shown, texts};
ghost use Rattle.guppy_print.specs.Shown.{answer_shown, link_shown};

use crate::builds::{built, features, why_on};
use crate::publish::published;
use crate::verify::verified;
use crate::why::{section_kinds, why};
use guppy::graph::DependencyDirection;
use guppy::{CycleIds, Error, PackageGraph, PackageId, PackageLink, PackageSet};
use guppy_affected::{affected, affected_after};
use guppy_changes::{BuildSetting, changed_packages};
use guppy_command::{Asked, Command, Kinds, Options};
use guppy_dot::drawing_of;
use guppy_extras::duplicates;
use guppy_features::StandardFeatures;
use guppy_print::{Answer, Format, LinkEnds};
use guppy_process::ProgramFault;
use guppy_process::fault::{passed_on, want_of_memory};
use std::alloc::{AllocError, Global};

/// The IDs of the packages that the words mean, where each means one.
pub(crate) fn all_meant<F: Format>(
    alloc: Global,
    graph: &PackageGraph,
    names: &F::Names,
    words: &[&str],
) -> Result<Vec<PackageId>, F::Fault>
    requires { F.are_names names.now graph.now.packages }
    ensures named { IfOk result (λ ids. AllZip (Means (F.format.meant graph.now.packages))
        (texts words.now) ids.items) }
    ensures known { IfOk result (λ ids. All (IsKnown graph.now.packages) ids.items) }
    ensures err { IfErr result (λ fault. IsWordFault F.format graph.now.packages
        (texts words.now) fault (F.Fault.cause fault)) }
{
    let mut ids = Vec::new(alloc);
    for word in words {
        let id = F::find(alloc, graph, names, word)?;
        let Ok(()) = ids.push(id) else {
            return Err(want_of_memory());
        };
    }
    Ok(ids)
}

// The packages that those with these IDs reach in the direction.
fn reached<'g>(
    graph: &'g PackageGraph,
    direction: DependencyDirection,
    ids: &[PackageId],
) -> Result<PackageSet<'g>, Error>
    ensures graph { IfOk result (λ set. set.graph ≡ graph.now) }
    ensures count { IfOk result (λ set. length set.included ≡ length graph.now.packages) }
    ensures exact { IfOk result (λ set. (id : List ℕ) → IncludesId set id
        ↔ IsReached direction graph.now ids.now id) }
    ensures err { IfErr result (NamesId (IsFirstUnknown graph.now.packages ids.now)) }
{
    graph.query_directed(ids.iter(), direction)?.resolve()
}

// These packages, of which each ID must be known.
fn reach_from<'g>(
    alloc: Global,
    graph: &'g PackageGraph,
    direction: DependencyDirection,
    ids: &[PackageId],
) -> Result<Answer<'g>, Error>
    requires { All (IsKnown graph.now.packages) ids.now }
    ensures ok { IfOk result
        (λ answer. AreReached direction graph.now ids.now (answer_shown answer)) }
    ensures err { IsOkUnless result Error.OutOfMemory }
{
    let set = reached(graph, direction, ids)?;
    let listed: Vec<&PackageId> = set.package_ids(direction).collect(alloc)?;
    Ok(Answer::Set(listed))
}

fn reach<'g, F: Format>(
    alloc: Global,
    graph: &'g PackageGraph,
    names: &F::Names,
    direction: DependencyDirection,
    words: &[&str],
) -> Result<Answer<'g>, F::Fault>
    requires { F.are_names names.now graph.now.packages }
    ensures ok { IfOk result (λ answer. IsReachAnswer direction graph.now
        (F.format.meant graph.now.packages) (texts words.now) (answer_shown answer)) }
    ensures err { IfErr result (λ fault. IsWordFault F.format graph.now.packages
        (texts words.now) fault (F.Fault.cause fault)) }
{
    let ids = all_meant::<F>(alloc, graph, names, words)?;
    passed_on(reach_from(alloc, graph, direction, &ids))
}

// Whether the package with the first ID depends on that with the second. Each must be known.
fn dependence<'g>(
    graph: &'g PackageGraph,
    from: &PackageId,
    to: &PackageId,
) -> Result<Answer<'g>, Error>
    requires from_known { IsKnown graph.now.packages from.now }
    requires to_known { IsKnown graph.now.packages to.now }
    ensures ok { IfOk result
        (λ answer. TellsDependence graph.now from.now to.now (answer_shown answer)) }
    ensures err { IsOkUnless result Error.OutOfMemory }
{
    Ok(Answer::Truth(graph.depends_on(from, to)?))
}

fn depends<'g, F: Format>(
    alloc: Global,
    graph: &'g PackageGraph,
    names: &F::Names,
    from: &str,
    to: &str,
) -> Result<Answer<'g>, F::Fault>
    requires { F.are_names names.now graph.now.packages }
    ensures ok { IfOk result (λ answer. IsDependsAnswer graph.now
        (F.format.meant graph.now.packages) from.now to.now (answer_shown answer)) }
    ensures err { IfErr result (λ fault. IsWordFault F.format graph.now.packages
        (from.now ∷ to.now ∷ []) fault (F.Fault.cause fault)) }
{
    let from = F::find(alloc, graph, names, from)?;
    let to = F::find(alloc, graph, names, to)?;
    passed_on(dependence(graph, &from, &to))
}

fn order(alloc: Global, graph: &PackageGraph) -> Result<Answer<'_>, Error>
    ensures ok { IfOk result (λ answer. IsOrderAnswer graph.now (answer_shown answer)) }
    ensures err { IsOkUnless result Error.OutOfMemory }
{
    let all = graph.resolve_all()?;
    let ids: Vec<&PackageId> = all
        .package_ids(DependencyDirection::Forward)
        .collect(alloc)?;
    Ok(Answer::List(ids))
}

fn roots(
    alloc: Global,
    graph: &PackageGraph,
    direction: DependencyDirection,
) -> Result<Answer<'_>, Error>
    ensures ok { IfOk result (λ answer. IsRootsAnswer direction graph.now (answer_shown answer)) }
    ensures err { IsOkUnless result Error.OutOfMemory }
{
    let all = graph.resolve_all()?;
    let roots = all.root_ids(direction)?;
    let ids: Vec<&PackageId> = roots.collect(alloc)?;
    Ok(Answer::List(ids))
}

// The packages that the link goes from and to, and the kinds of its sections.
fn ends_of(link: PackageLink<'_>) -> LinkEnds<'_>
    ensures { IsLinkTold (link_data link.entry) (link_shown result) }
{
    LinkEnds {
        from: link.from().id(),
        to: link.to().id(),
        kinds: section_kinds(link),
    }
}

fn links(
    alloc: Global,
    graph: &PackageGraph,
    direction: DependencyDirection,
) -> Result<Answer<'_>, Error>
    ensures ok { IfOk result (λ answer. IsLinksAnswer direction graph.now (answer_shown answer)) }
    ensures err { IsOkUnless result Error.OutOfMemory }
{
    let all = graph.resolve_all()?;
    let walked = all.links(direction)?;
    let mut links = Vec::new(alloc);
    for link in walked {
        links.push(ends_of(link))?;
    }
    Ok(Answer::Links(links))
}

// The IDs of a cycle.
fn row_of<'g>(alloc: Global, cycle: CycleIds<'g>) -> Result<Vec<&'g PackageId>, AllocError>
    ensures { IfOk result (λ ids. map (λ id. id.now) ids.items ≡ cycle_left cycle.entry) }
{
    let ids: Vec<&PackageId> = cycle.collect(alloc)?;
    Ok(ids)
}

fn cycles(alloc: Global, graph: &PackageGraph) -> Result<Answer<'_>, Error>
    ensures ok { IfOk result (λ answer. IsCyclesAnswer graph.now (answer_shown answer)) }
    ensures err { IsOkUnless result Error.OutOfMemory }
{
    let mut rows = Vec::new(alloc);
    for cycle in graph.cycles().all_cycles() {
        rows.push(row_of(alloc, cycle)?)?;
    }
    Ok(Answer::Rows(rows))
}

// The packages whose name another one has, too, each with those that need it.
fn repeated(graph: &PackageGraph) -> Result<Answer<'_>, Error>
    ensures ok { IfOk result (λ answer. IsDuplicatesAnswer graph.now (answer_shown answer)) }
    ensures err { IsOkUnless result Error.OutOfMemory }
{
    Ok(Answer::Needs(duplicates(graph)?))
}

fn verify<'g, F: Format>(
    alloc: Global,
    graph: &'g PackageGraph,
    names: &F::Names,
    options: &Options,
) -> Result<Answer<'g>, F::Fault>
    requires { F.are_names names.now graph.now.packages }
    ensures ok { IfOk result (λ answer. IsVerifyAnswer graph.now (answer_shown answer)) }
    ensures err { IfErr result (λ fault. IsVerifyTold F.format
        (called options.now (F.format.text graph.now.packages)) graph.now fault (F.Fault.cause fault)) }
{
    verified::<(), F>(alloc, graph, names, options, graph.verify())?;
    Ok(Answer::AllWell)
}

fn dot<'g, F: Format>(
    alloc: Global,
    graph: &'g PackageGraph,
    names: &F::Names,
    words: &[&str],
) -> Result<Answer<'g>, F::Fault>
    requires { F.are_names names.now graph.now.packages }
    ensures ok { IfOk result (λ answer. IsDotAnswer graph.now
        (F.format.meant graph.now.packages) (texts words.now) (answer_shown answer)) }
    ensures err { IfErr result (λ fault. IsWordFault F.format graph.now.packages
        (texts words.now) fault (F.Fault.cause fault)) }
{
    let ids = all_meant::<F>(alloc, graph, names, words)?;
    let drawing = passed_on(drawing_of(alloc, graph, &ids))?;
    Ok(Answer::Drawing(drawing))
}

// The folders, each with the ID of the package that its word means, where each means one.
fn given_folders<'a, F: Format>(
    alloc: Global,
    graph: &PackageGraph,
    names: &F::Names,
    also: &[(&'a str, &str)],
) -> Result<Vec<(&'a str, PackageId)>, F::Fault>
    requires { F.are_names names.now graph.now.packages }
    ensures given { IfOk result (λ given. AreGiven (F.format.meant graph.now.packages)
        (map (λ both. (both.0.now, both.1.now)) also.now) (given_in given.items)) }
    ensures err { IfErr result (λ fault. IsWordFault F.format graph.now.packages
        (map (λ (both : List ℕ × List ℕ). both.1) (map (λ both. (both.0.now, both.1.now)) also.now)) fault
        (F.Fault.cause fault)) }
{
    let mut given = Vec::new(alloc);
    for (folder, word) in also {
        let owner = F::find(alloc, graph, names, word)?;
        let Ok(()) = given.push((*folder, owner)) else {
            return Err(want_of_memory());
        };
    }
    Ok(given)
}

// The members to test.
fn tested<'g>(
    graph: &'g PackageGraph,
    ignored: &[String],
    given: &[(&str, PackageId)],
    paths: &[String],
) -> Result<Answer<'g>, Error>
    ensures ok { IfOk result (λ answer. TellsAffected graph.now (map string_bytes ignored.now)
        (given_in given.now) (map string_bytes paths.now) (answer_shown answer)) }
    ensures err { IsOkUnless result Error.OutOfMemory }
{
    Ok(Answer::List(affected(graph, paths, ignored, given)?))
}

// The folders to leave out, and the workspace's `Cargo.lock`.
fn with_lock(alloc: Global, ignored: &[String]) -> Result<Vec<String>, AllocError>
    ensures { IfOk result (λ more. map string_bytes more.items
        ≡ codes "Cargo.lock" ∷ map string_bytes ignored.now) }
{
    let mut more = Vec::new(alloc);
    more.push(String::from_str(alloc, "Cargo.lock")?)?;
    for folder in ignored {
        more.push(folder.clone()?)?;
    }
    Ok(more)
}

// The members to test, with folders that belong to the packages that their words mean.
fn tested_also<'g, F: Format>(
    alloc: Global,
    graph: &'g PackageGraph,
    names: &F::Names,
    ignored: &[String],
    also: &[(&str, &str)],
    paths: &[String],
) -> Result<Answer<'g>, F::Fault>
    requires { F.are_names names.now graph.now.packages }
    ensures ok { IfOk result (λ answer. IsAffectedAnswer graph.now (F.format.meant graph.now.packages)
        (map string_bytes ignored.now) (map (λ both. (both.0.now, both.1.now)) also.now)
        (map string_bytes paths.now) (answer_shown answer)) }
    ensures err { IfErr result (λ fault. IsWordFault F.format graph.now.packages
        (map (λ (both : List ℕ × List ℕ). both.1) (map (λ both. (both.0.now, both.1.now)) also.now)) fault
        (F.Fault.cause fault)) }
{
    let given = given_folders::<F>(alloc, graph, names, also)?;
    passed_on(tested(graph, ignored, given.as_slice(), paths))
}

// How both states are built, with these features of members.
fn setting_of<'p>(asked: &'p Asked<'_>, standard: StandardFeatures) -> BuildSetting<'p>
    ensures { IsSetting (asked_shown asked.now) standard (setting_of result) }
{
    BuildSetting {
        standard,
        target_platform: &asked.platforms,
        host_platform: &asked.host,
        resolver: asked.resolver,
    }
}

// The packages that changed between the states, where members are built with these features.
fn changed_with<'g>(
    graph: &'g PackageGraph,
    before: &PackageGraph,
    asked: &Asked<'_>,
    standard: StandardFeatures,
) -> Result<Vec<&'g PackageId>, AllocError>
    ensures { IfOk result (λ ids. HaveChanged (asked_shown asked.now) before.now graph.now standard
        (map (λ id. id.now) ids.items)) }
{
    let setting = setting_of(asked, standard);
    changed_packages(graph.alloc(), before.records(), graph.records(), &setting)
}

// Those that did with the default features of members, and those that did with all of them.
fn changed_since<'g>(
    graph: &'g PackageGraph,
    before: &PackageGraph,
    asked: &Asked<'_>,
) -> Result<Vec<&'g PackageId>, AllocError>
    ensures { IfOk result (λ ids. AreChangedSince (asked_shown asked.now) before.now graph.now
        (map (λ id. id.now) ids.items)) }
{
    let mut changed = changed_with(graph, before, asked, StandardFeatures::Default)?;
    let mut more = changed_with(graph, before, asked, StandardFeatures::All)?;
    changed.append(&mut more)?;
    Ok(changed)
}

// The members to test, where there is a state before.
fn tested_after<'g>(
    graph: &'g PackageGraph,
    before: &PackageGraph,
    asked: &Asked<'_>,
    ignored: &[String],
    given: &[(&str, PackageId)],
    paths: &[String],
) -> Result<Answer<'g>, Error>
    ensures ok { IfOk result (λ answer. TellsAffectedSince (asked_shown asked.now) before.now graph.now
        (map string_bytes ignored.now) (given_in given.now) (map string_bytes paths.now) (answer_shown answer)) }
    ensures err { IsOkUnless result Error.OutOfMemory }
{
    let changed = changed_since(graph, before, asked)?;
    let ignored = with_lock(graph.alloc(), ignored)?;
    let ids = affected_after(graph, changed.as_slice(), paths, ignored.as_slice(), given)?;
    Ok(Answer::List(ids))
}

// The members to test, where there is a state before, with folders that belong to the packages that their words mean.
fn tested_since<'g, F: Format>(
    alloc: Global,
    graph: &'g PackageGraph,
    before: &PackageGraph,
    names: &F::Names,
    asked: &Asked<'_>,
    ignored: &[String],
    also: &[(&str, &str)],
    paths: &[String],
) -> Result<Answer<'g>, F::Fault>
    requires { F.are_names names.now graph.now.packages }
    ensures ok { IfOk result (λ answer. IsSinceAnswer (asked_shown asked.now) before.now graph.now
        (F.format.meant graph.now.packages) (map string_bytes ignored.now)
        (map (λ both. (both.0.now, both.1.now)) also.now) (map string_bytes paths.now) (answer_shown answer)) }
    ensures err { IfErr result (λ fault. IsWordFault F.format graph.now.packages
        (map (λ (both : List ℕ × List ℕ). both.1) (map (λ both. (both.0.now, both.1.now)) also.now)) fault
        (F.Fault.cause fault)) }
{
    let given = given_folders::<F>(alloc, graph, names, also)?;
    passed_on(tested_after(graph, before, asked, ignored, given.as_slice(), paths))
}

/// What the command answers of the graph, whose packages have these names, and of that of the state before, where there
/// is one.
///
/// The first word of the command that means no package, or may mean several, is told, and for `why` that no links lead
/// from one package to the other. For `verify` and `publish-order` alone it is told what the graph's `verify` refuses, a
/// cycle by what its packages are called as the options have it, and of the members that can be published, where these
/// alone are asked for, the first that needs one that can't. Of what Cargo builds it is told which feature Cargo refuses,
/// and for `why-feature` that the package has no such feature, or that it is on nowhere.
///
/// Takes memory for the answer, and for some numbers a package and a link. Time grows with packages and
/// links.
pub fn answer_of<'g, F: Format>(
    alloc: Global,
    graph: &'g PackageGraph,
    before: Option<&PackageGraph>,
    names: &F::Names,
    asked: &'g Asked<'_>,
) -> Result<Answer<'g>, F::Fault>
    requires names { F.are_names names.now graph.now.packages }
    requires distinct { DistinctBelow graph.now.packages (length graph.now.packages) }
    ensures ok { IfOk result (λ answer. IsAnswerSince (asked_shown asked.now)
        (option_map (λ g. g.now) before.entry) (F.format.meant graph.now.packages)
        (command_shown asked.now.command) graph.now (answer_shown answer)) }
    ensures err { IfErr result (λ fault. IsFaultOn F.format (places_of (asked_shown asked.now))
        (called asked.now.options (F.format.text graph.now.packages)) (command_shown asked.now.command) graph.now
        fault (F.Fault.cause fault)) }
{
    let options = &asked.options;
    match &asked.command {
        Command::Reach(direction, words) => { reach::<F>(alloc, graph, names, *direction, words) }
        Command::Depends(from, to) => depends::<F>(alloc, graph, names, from, to),
        Command::Why(from, to) => why::<F>(alloc, graph, names, from, to),
        Command::Order => passed_on(order(alloc, graph)),
        Command::Roots(direction) => passed_on(roots(alloc, graph, *direction)),
        Command::Links(direction) => passed_on(links(alloc, graph, *direction)),
        Command::Cycles => passed_on(cycles(alloc, graph)),
        Command::Duplicates => passed_on(repeated(graph)),
        Command::Built(request) => built::<F>(alloc, graph, names, asked, request),
        Command::Features(request, word) => {
            features::<F>(alloc, graph, names, asked, request, word)
        }
        Command::WhyFeature(request, word, name) => {
            why_on::<F>(alloc, graph, names, asked, request, word, name)
        }
        Command::Verify => verify::<F>(alloc, graph, names, options),
        Command::PublishOrder { publishable } => {
            published::<F>(alloc, graph, names, options, *publishable)
        }
        Command::Dot(words) => dot::<F>(alloc, graph, names, words),
        Command::Affected {
            ignored,
            also,
            paths,
        } => match before {
            Some(before) => tested_since::<F>(
                alloc, graph, before, names, asked, ignored, also, paths,
            ),
            None => tested_also::<F>(alloc, graph, names, ignored, also, paths),
        },
    }
}
