//! Why one package depends on another: a shortest walk of links between them.
ghost use Rattle.std.specs.Prelude.{◌≡◌, ◌⊎◌, ℕ, List, not, map, All, IfOk, IfErr, IfSome, IfNone, IsOkUnless};
ghost use Rattle.guppy_data.specs.DependencyReq.{seen_req};
ghost use Rattle.guppy_data.specs.declared.texts.error.Error.TheVariants.{OutOfMemory};
ghost use Rattle.guppy_graph.specs.DevOnly.{is_absent};
ghost use Rattle.guppy_graph.specs.Ids.{IsKnown};
ghost use Rattle.guppy.specs.Views.{OfLink, link_graph, link_number};
ghost use Rattle.guppy_extras.specs.Walk.{NoWalk, Between};
ghost use Rattle.guppy_program.specs.Answer.{IsWhyAnswer, IsCommandFault};
ghost use Rattle.guppy_command.specs.Command.{why};
ghost use Rattle.guppy_print.specs.Shown.{answer_shown, step_shown};
ghost use Rattle.guppy_program.specs.Steps.{section_kinds, LeadsTo, AreStepsAlong, AreSteps};

use guppy::{Error, PackageGraph, PackageId, PackageLink};
use guppy_command::Kinds;
use guppy_data::DependencyReq;
use guppy_extras::shortest_walk;
use guppy_print::{Answer, Format, Step};
use guppy_process::fault::{no_walk, passed_on};
use std::alloc::{AllocError, Global};

fn is_present(section: DependencyReq<'_>) -> bool
    ensures { result ≡ not (is_absent (seen_req section.entry)) }
{
    section.is_present()
}

const NO_KINDS: Kinds = Kinds {
    normal: false,
    build: false,
    dev: false,
};

/// The kinds of the sections that the link has.
pub(crate) fn section_kinds(link: PackageLink<'_>) -> Kinds
    ensures { OfLink link.entry (λ l. result ≡ section_kinds l.edge) }
{
    Kinds {
        normal: is_present(link.normal()),
        build: is_present(link.build()),
        dev: is_present(link.dev()),
    }
}

// The package that the link leads to.
fn step_over(link: PackageLink<'_>) -> Step<'_>
    ensures { LeadsTo (link_graph link.entry).now (link_number link.entry) (step_shown result) }
{
    Step {
        id: link.to().id(),
        kinds: section_kinds(link),
    }
}

// The package with the ID, which must be known, and those that the links lead to.
fn steps_along<'g>(
    alloc: Global,
    graph: &'g PackageGraph,
    from: &PackageId,
    walk: &[PackageLink<'g>],
) -> Result<Vec<Step<'g>>, Error>
    requires known { IsKnown graph.now.packages from.now }
    requires of_graph { All (λ l. link_graph l ≡ graph) walk.now }
    ensures ok { IfOk result (λ steps. AreStepsAlong graph.now from.now (map link_number walk.now)
        (map step_shown steps.items)) }
    ensures err { IsOkUnless result Error.OutOfMemory }
{
    let start = graph.metadata(from)?;
    let mut steps = Vec::new(alloc);
    steps.push(Step {
        id: start.id(),
        kinds: NO_KINDS,
    })?;
    for link in walk {
        steps.push(step_over(*link))?;
    }
    Ok(steps)
}

// The packages of a shortest walk from the package with the one ID to that with the other, if there is one.
// Each must be known.
fn shortest_steps<'g>(
    alloc: Global,
    graph: &'g PackageGraph,
    from: &PackageId,
    to: &PackageId,
) -> Result<Option<Vec<Step<'g>>>, Error>
    requires from_known { IsKnown graph.now.packages from.now }
    requires to_known { IsKnown graph.now.packages to.now }
    ensures steps { IfOk result (λ found. IfSome found
        (λ steps. AreSteps graph.now from.now to.now (map step_shown steps.items))) }
    ensures none { IfOk result (λ found. IfNone found
        (Between graph.now from.now to.now (NoWalk graph.now.links))) }
    ensures err { IsOkUnless result Error.OutOfMemory }
{
    match shortest_walk(graph, from, to)? {
        Some(walk) => Ok(Some(steps_along(alloc, graph, from, walk.as_slice())?)),
        None => Ok(None),
    }
}

/// A shortest walk of links from the package that the first word means to that of the second.
pub(crate) fn why<'g, F: Format>(
    alloc: Global,
    graph: &'g PackageGraph,
    names: &F::Names,
    from: &str,
    to: &str,
) -> Result<Answer<'g>, F::Fault>
    requires { F.are_names names.now graph.now.packages }
    ensures ok { IfOk result (λ answer. IsWhyAnswer graph.now (F.format.meant graph.now.packages)
        from.now to.now (answer_shown answer)) }
    ensures err { (call : List ℕ → List ℕ) → IfErr result (λ fault. IsCommandFault F.format call
        (why from.now to.now) graph.now fault (F.Fault.cause fault)) }
{
    let start = F::find(alloc, graph, names, from)?;
    let end = F::find(alloc, graph, names, to)?;
    let steps = passed_on::<_, F::Fault>(shortest_steps(alloc, graph, &start, &end))?;
    match steps {
        Some(steps) => Ok(Answer::Steps(steps)),
        None => Err(no_walk(alloc, from, to)),
    }
}
