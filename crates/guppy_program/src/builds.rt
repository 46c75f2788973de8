//! What is answered of what Cargo builds.
ghost use Rattle.std.specs.Prelude.{◌≡◌, ◌⊎◌, ℕ, List, All, IfErr, IfOk, IsSomeAnd, slice_get};
ghost use Rattle.std.specs.List.{AllZip};
ghost use Rattle.guppy_graph.specs.Graph.{GraphData};
ghost use Rattle.guppy_graph.specs.Ids.{IsKnown};
ghost use Rattle.guppy_built.specs.Asked.{Choice, choice_of};
ghost use Rattle.guppy_built.specs.Refused.{IsBuiltFault};
ghost use Rattle.guppy_process.specs.Cause.{library, build, no_member, unknown_feature};
ghost use Rattle.guppy_command.specs.Command.{built, features, why_feature};
ghost use Rattle.guppy_command.specs.Shown.{asked_shown, request_shown};
ghost use Rattle.guppy_data.specs.declared.texts.error.Error.TheVariants.{OutOfMemory};
ghost use Rattle.guppy_program.specs.Answer.{IsBuiltAnswer, IsFaultOn, IsFeaturesAnswer, IsWhyFeatureAnswer};
ghost use Rattle.guppy_program.specs.Builds.{IsChosen, IsRequestCause, Places, places_of};
ghost use Rattle.guppy_program.specs.Meant.{Means};
ghost use Rattle.guppy_print.specs.Printed.{called};
ghost use Rattle.guppy_print.specs.Shown.{answer_shown};

use crate::answer::all_meant;
use guppy::{PackageGraph, PackageId};
use guppy_built::{BuildQuestion, BuiltFault, built_packages, features_of, why_feature};
use guppy_command::{Asked, BuildRequest, Options};
use guppy_print::{Answer, Format, text_of};
use guppy_process::fault::{
    feature_off, lacks_feature, no_member, unknown_feature, unresolved, want_of_memory,
};
use std::alloc::Global;

// What is asked of Cargo, of these members on the platforms that are asked about.
fn question_of<'q, 'p>(
    asked: &'p Asked<'_>,
    request: &'q BuildRequest<'_>,
    members: &'q [PackageId],
) -> BuildQuestion<'q, 'p>
    ensures chosen { (g : GraphData) → (meant : List ℕ → List (List ℕ))
        → AllZip (Means meant) (request_shown request.now).members members.now
        → All (IsKnown g.packages) members.now
        → IsChosen (places_of (asked_shown asked.now)) g meant (request_shown request.now) (choice_of result) }
    ensures members { result.members.now ≡ members.now }
{
    BuildQuestion {
        members,
        features: request.features.as_slice(),
        standard: request.standard,
        tests: request.tests,
        resolver: request.resolver,
        target_platform: &asked.platforms,
        host_platform: &asked.host,
    }
}

// That Cargo refuses the feature at the place.
fn refused<F: Format>(alloc: Global, request: &BuildRequest<'_>, place: usize) -> F::Fault
    ensures { (F.Fault.cause result ≡ library OutOfMemory) ⊎ IsSomeAnd (slice_get (request_shown request.now).features place)
        (λ text. F.Fault.cause result ≡ build (unknown_feature text)) }
{
    match request.features.get(place) {
        Some(text) => unknown_feature(alloc, text),
        None => want_of_memory(),
    }
}

// That the word at the place means no member.
fn not_member<F: Format>(alloc: Global, request: &BuildRequest<'_>, place: usize) -> F::Fault
    ensures { (F.Fault.cause result ≡ library OutOfMemory) ⊎ IsSomeAnd (slice_get (request_shown request.now).members place)
        (λ word. F.Fault.cause result ≡ build (no_member word)) }
{
    match request.members.get(place) {
        Some(word) => no_member(alloc, word),
        None => want_of_memory(),
    }
}

// Why nothing is told of what Cargo builds by the request, but for what is told of one feature.
fn fault_of<F: Format>(
    alloc: Global,
    names: &F::Names,
    options: &Options,
    request: &BuildRequest<'_>,
    fault: BuiltFault<'_>,
) -> F::Fault
    ensures { (places : Places) → (g : GraphData) → (choice : Choice) → F.are_names names.now g.packages
        → IsChosen places g (F.format.meant g.packages) (request_shown request.now) choice
        → IsBuiltFault g choice fault.entry
        → IsRequestCause places (called options.now (F.format.text g.packages)) g (F.format.meant g.packages)
        (request_shown request.now) (F.Fault.cause result) }
{
    match fault {
        BuiltFault::NoMember(place) => not_member::<F>(alloc, request, place),
        BuiltFault::UnknownFeature(place) => refused::<F>(alloc, request, place),
        BuiltFault::Unresolved {
            package,
            dependency,
        } => unresolved(alloc, text_of::<F>(options, names, package), dependency),
        _ => want_of_memory(),
    }
}

// What Cargo builds by the request, of these members.
fn built_of<'g, 'q, F: Format>(
    alloc: Global,
    graph: &'g PackageGraph,
    names: &F::Names,
    asked: &'g Asked<'_>,
    request: &'q BuildRequest<'_>,
    members: &'q [PackageId],
) -> Result<Answer<'g>, F::Fault>
    requires names { F.are_names names.now graph.now.packages }
    requires named { AllZip (Means (F.format.meant graph.now.packages)) (request_shown request.now).members members.now }
    requires known { All (IsKnown graph.now.packages) members.now }
    ensures ok { IfOk result (λ answer. IsBuiltAnswer (places_of (asked_shown asked.now)) graph.now
        (F.format.meant graph.now.packages) (request_shown request.now) (answer_shown answer)) }
    ensures err { IfErr result (λ fault. IsFaultOn F.format (places_of (asked_shown asked.now))
        (called asked.now.options (F.format.text graph.now.packages)) (built (request_shown request.now)) graph.now fault
        (F.Fault.cause fault)) }
{
    let question = question_of(asked, request, members);
    match built_packages(alloc, graph.records(), &question) {
        Ok(rows) => Ok(Answer::Built(rows)),
        Err(fault) => Err(fault_of::<F>(alloc, names, &asked.options, request, fault)),
    }
}

/// What Cargo builds by the request.
pub(crate) fn built<'g, F: Format>(
    alloc: Global,
    graph: &'g PackageGraph,
    names: &F::Names,
    asked: &'g Asked<'_>,
    request: &BuildRequest<'_>,
) -> Result<Answer<'g>, F::Fault>
    requires { F.are_names names.now graph.now.packages }
    ensures ok { IfOk result (λ answer. IsBuiltAnswer (places_of (asked_shown asked.now)) graph.now
        (F.format.meant graph.now.packages) (request_shown request.now) (answer_shown answer)) }
    ensures err { IfErr result (λ fault. IsFaultOn F.format (places_of (asked_shown asked.now))
        (called asked.now.options (F.format.text graph.now.packages)) (built (request_shown request.now)) graph.now fault
        (F.Fault.cause fault)) }
{
    let members = all_meant::<F>(alloc, graph, names, request.members.as_slice())?;
    built_of::<F>(alloc, graph, names, asked, request, members.as_slice())
}

// The features of the package with the ID that are on where Cargo builds the request, of these members.
fn features_on<'g, 'q, F: Format>(
    alloc: Global,
    graph: &'g PackageGraph,
    names: &F::Names,
    asked: &'g Asked<'_>,
    request: &'q BuildRequest<'_>,
    members: &'q [PackageId],
    id: &PackageId,
) -> Result<Answer<'g>, F::Fault>
    requires names { F.are_names names.now graph.now.packages }
    requires named { AllZip (Means (F.format.meant graph.now.packages)) (request_shown request.now).members members.now }
    requires known { All (IsKnown graph.now.packages) members.now }
    requires package { IsKnown graph.now.packages id.now }
    ensures ok { (word : List ℕ) → Means (F.format.meant graph.now.packages) word id.now
        → IfOk result (λ answer. IsFeaturesAnswer (places_of (asked_shown asked.now)) graph.now
        (F.format.meant graph.now.packages) (request_shown request.now) word (answer_shown answer)) }
    ensures err { (word : List ℕ) → IfErr result (λ fault. IsFaultOn F.format (places_of (asked_shown asked.now))
        (called asked.now.options (F.format.text graph.now.packages)) (features (request_shown request.now) word) graph.now fault
        (F.Fault.cause fault)) }
{
    let question = question_of(asked, request, members);
    match features_of(alloc, graph.records(), &question, id) {
        Ok(rows) => Ok(Answer::Features(rows)),
        Err(fault) => Err(fault_of::<F>(alloc, names, &asked.options, request, fault)),
    }
}

/// The features of the package that the word means that are on where Cargo builds the request.
pub(crate) fn features<'g, F: Format>(
    alloc: Global,
    graph: &'g PackageGraph,
    names: &F::Names,
    asked: &'g Asked<'_>,
    request: &BuildRequest<'_>,
    word: &str,
) -> Result<Answer<'g>, F::Fault>
    requires { F.are_names names.now graph.now.packages }
    ensures ok { IfOk result (λ answer. IsFeaturesAnswer (places_of (asked_shown asked.now)) graph.now
        (F.format.meant graph.now.packages) (request_shown request.now) word.now (answer_shown answer)) }
    ensures err { IfErr result (λ fault. IsFaultOn F.format (places_of (asked_shown asked.now))
        (called asked.now.options (F.format.text graph.now.packages)) (features (request_shown request.now) word.now) graph.now fault
        (F.Fault.cause fault)) }
{
    let members = all_meant::<F>(alloc, graph, names, request.members.as_slice())?;
    let id = F::find(alloc, graph, names, word)?;
    features_on::<F>(alloc, graph, names, asked, request, members.as_slice(), &id)
}

// Why the feature of the package with the ID is on where Cargo builds the request, of these members. The word means the
// package.
fn why_of<'g, 'q, F: Format>(
    alloc: Global,
    graph: &'g PackageGraph,
    names: &F::Names,
    asked: &'g Asked<'_>,
    request: &'q BuildRequest<'_>,
    members: &'q [PackageId],
    id: &PackageId,
    word: &str,
    name: &str,
) -> Result<Answer<'g>, F::Fault>
    requires names { F.are_names names.now graph.now.packages }
    requires named { AllZip (Means (F.format.meant graph.now.packages)) (request_shown request.now).members members.now }
    requires known { All (IsKnown graph.now.packages) members.now }
    requires package { IsKnown graph.now.packages id.now }
    requires is_meant { Means (F.format.meant graph.now.packages) word.now id.now }
    ensures ok { IfOk result (λ answer. IsWhyFeatureAnswer (places_of (asked_shown asked.now)) graph.now
        (F.format.meant graph.now.packages) (request_shown request.now) word.now name.now (answer_shown answer)) }
    ensures err { IfErr result (λ fault. IsFaultOn F.format (places_of (asked_shown asked.now))
        (called asked.now.options (F.format.text graph.now.packages)) (why_feature (request_shown request.now) word.now name.now) graph.now
        fault (F.Fault.cause fault)) }
{
    let question = question_of(asked, request, members);
    let fault = match why_feature(alloc, graph.records(), &question, id, name) {
        Ok(steps) => return Ok(Answer::Reasons(steps)),
        Err(fault) => fault,
    };
    match fault {
        BuiltFault::LacksFeature => Err(lacks_feature(alloc, word, name)),
        BuiltFault::FeatureOff => Err(feature_off(alloc, word, name)),
        _ => Err(fault_of::<F>(alloc, names, &asked.options, request, fault)),
    }
}

/// Why the feature of the package that the word means is on where Cargo builds the request.
pub(crate) fn why_on<'g, F: Format>(
    alloc: Global,
    graph: &'g PackageGraph,
    names: &F::Names,
    asked: &'g Asked<'_>,
    request: &BuildRequest<'_>,
    word: &str,
    name: &str,
) -> Result<Answer<'g>, F::Fault>
    requires { F.are_names names.now graph.now.packages }
    ensures ok { IfOk result (λ answer. IsWhyFeatureAnswer (places_of (asked_shown asked.now)) graph.now
        (F.format.meant graph.now.packages) (request_shown request.now) word.now name.now (answer_shown answer)) }
    ensures err { IfErr result (λ fault. IsFaultOn F.format (places_of (asked_shown asked.now))
        (called asked.now.options (F.format.text graph.now.packages)) (why_feature (request_shown request.now) word.now name.now) graph.now
        fault (F.Fault.cause fault)) }
{
    let members = all_meant::<F>(alloc, graph, names, request.members.as_slice())?;
    let id = F::find(alloc, graph, names, word)?;
    why_of::<F>(
        alloc,
        graph,
        names,
        asked,
        request,
        members.as_slice(),
        &id,
        word,
        name,
    )
}
