//! What facts say, by names.
ghost use Rattle.std.specs.Prelude.{◌≡◌, IfOk, map, option_map};
ghost use Rattle.std.specs.List.{filter_map};
ghost use Rattle.std.specs.Option.{option_and_then};
ghost use Rattle.guppy_built.specs.Names.{fact_shown, named, named_step, said_by, said_shown, step_shown};

use guppy_data::{PackageId, PackageRecord};
use guppy_features::{BuildPlatform, Fact, FactKind, Reason};
use guppy_graph::RecordGraph;
use std::alloc::{AllocError, Global};

/// What a fact says of its package.
#[derive(Clone, Copy, Debug)]
pub enum FactName<'a> {
    /// It takes part.
    Part,
    /// Its optional dependency of this name is switched on.
    Dependency(&'a str),
    /// Its feature of this name is on.
    Feature(&'a str),
}

/// A fact, by names.
#[derive(Clone, Copy, Debug)]
pub struct NamedFact<'a> {
    /// The package.
    pub id: &'a PackageId,
    /// The side.
    pub side: BuildPlatform,
    /// What is said of it.
    pub name: FactName<'a>,
}

/// A step of why a fact holds, by names. Where it follows from nothing, it is asked for.
#[derive(Clone, Copy, Debug)]
pub struct NamedReason<'a> {
    /// The fact.
    pub fact: NamedFact<'a>,
    /// A fact that it follows from, if there is one.
    pub first: Option<NamedFact<'a>>,
    /// Another one, if there is one.
    pub second: Option<NamedFact<'a>>,
}

// What the fact says of the package.
fn said_by(package: &PackageRecord, fact: Fact) -> Option<FactName<'_>>
    ensures { option_map said_shown result ≡ said_by «package».now fact.kind fact.place }
{
    match fact.kind {
        FactKind::Part => Some(FactName::Part),
        FactKind::Switched => {
            let name = package.optional_deps.get_index(fact.place)?;
            Some(FactName::Dependency(name.as_str()))
        }
        FactKind::Feature => {
            let (name, _) = package.named_features.get_index(fact.place)?;
            Some(FactName::Feature(name.as_str()))
        }
    }
}

// The fact by names, if there are its package and what it says of it.
fn named(graph: &RecordGraph, fact: Fact) -> Option<NamedFact<'_>>
    ensures { option_map fact_shown result ≡ named graph.now fact }
{
    let package = graph.dep_graph().nodes().get(fact.position)?;
    Some(NamedFact {
        id: &package.id,
        side: fact.side,
        name: said_by(package, fact)?,
    })
}

fn named_if(graph: &RecordGraph, fact: Option<Fact>) -> Option<NamedFact<'_>>
    ensures { option_map fact_shown result ≡ option_and_then (named graph.now) fact }
{
    named(graph, fact?)
}

// The step by names.
fn named_step<'a>(graph: &'a RecordGraph, reason: &Reason) -> Option<NamedReason<'a>>
    ensures { option_map step_shown result ≡ named_step graph.now reason.now }
{
    Some(NamedReason {
        fact: named(graph, reason.fact)?,
        first: named_if(graph, reason.first),
        second: named_if(graph, reason.second),
    })
}

/// The steps by names.
pub(crate) fn named_steps<'a>(
    alloc: Global,
    graph: &'a RecordGraph,
    reasons: &[Reason],
) -> Result<Vec<NamedReason<'a>>, AllocError>
    ensures { IfOk result (λ steps. map step_shown steps.items ≡ filter_map (named_step graph.now) reasons.now) }
{
    let mut steps = Vec::new(alloc);
    for reason in reasons {
        if let Some(step) = named_step(graph, reason) {
            steps.push(step)?;
        }
    }
    Ok(steps)
}
