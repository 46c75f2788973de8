//! What Cargo builds, and why a feature is on, as JSON.
ghost use Rattle.std.specs.Prelude.{◌≡◌, ◌++◌, length, OnOk};
ghost use Rattle.json.specs.Json.{Members};
ghost use Rattle.json.specs.Tree.{json_tokens, members_tokens};
ghost use Rattle.guppy_graph.specs.Ids.{DistinctBelow};
ghost use Rattle.guppy_built.specs.Features.{FeatureData, feature_shown};
ghost use Rattle.guppy_built.specs.Names.{NamedFactData, StepData, fact_shown, said_shown, step_shown};
ghost use Rattle.guppy_built.specs.Rows.{Row, row_of};
ghost use Rattle.guppy_print.specs.Objects.{array_of};
ghost use Rattle.guppy_print.specs.ObjectsOfBuilds.{built_object, fact_members, fact_object, feature_object, reason_object, said_members, side_value};

use crate::print_builds::side_text;
use crate::to_json::{ToJson, push_all, push_member};
use guppy::PackageGraph;
use guppy_built::{BuiltPackage, FactName, FeatureOn, NamedFact, NamedReason};
use guppy_features::BuildPlatform;
use json::Writer;
use std::alloc::{AllocError, Global};

impl ToJson for BuiltPackage<'_> {
    ghost Shown = { Row };

    ghost shown = { λ row. row_of row };

    ghost value = { built_object };

    fn write_to(
        &self,
        alloc: Global,
        writer: &mut Writer,
        graph: &PackageGraph,
    ) -> Result<(), AllocError> {
        writer.begin_object()?;
        push_member(alloc, writer, graph, "package", &self.id)?;
        push_member(alloc, writer, graph, "platform", &self.platform)?;
        push_member(alloc, writer, graph, "features", &self.features)?;
        writer.end_object()
    }
}

impl ToJson for BuildPlatform {
    ghost use Rattle.guppy_features.specs.declared.fact.BuildPlatform.{BuildPlatform};

    ghost Shown = { BuildPlatform };

    ghost shown = { λ side. side };

    ghost value = { λ packages side. side_value side };

    fn write_to(
        &self,
        _alloc: Global,
        writer: &mut Writer,
        _graph: &PackageGraph,
    ) -> Result<(), AllocError> {
        writer.string(side_text(*self))
    }
}

impl ToJson for FeatureOn<'_> {
    ghost Shown = { FeatureData };

    ghost shown = { λ on. feature_shown on };

    ghost value = { feature_object };

    fn write_to(
        &self,
        alloc: Global,
        writer: &mut Writer,
        graph: &PackageGraph,
    ) -> Result<(), AllocError> {
        writer.begin_object()?;
        push_member(alloc, writer, graph, "feature", &self.name)?;
        push_member(alloc, writer, graph, "side", &self.side)?;
        push_member(alloc, writer, graph, "asked_by", &self.askers)?;
        writer.end_object()
    }
}

// Adds what is said of the package.
fn push_said(
    alloc: Global,
    writer: &mut Writer,
    graph: &PackageGraph,
    name: FactName<'_>,
) -> Result<(), AllocError>
    requires { DistinctBelow graph.now.packages (length graph.now.packages) }
    ensures tokens { OnOk result ((more : Members) → writer.new.tokens ++ members_tokens more
        ≡ writer.old.tokens ++ members_tokens (said_members (said_shown name.entry) more)) }
    ensures before { writer.new.before ≡ writer.old.before }
{
    match name {
        FactName::Part => Ok(()),
        FactName::Dependency(name) => push_member(alloc, writer, graph, "dependency", &name),
        FactName::Feature(name) => push_member(alloc, writer, graph, "feature", &name),
    }
}

// Adds the members of the fact.
fn push_fact(
    alloc: Global,
    writer: &mut Writer,
    graph: &PackageGraph,
    fact: &NamedFact<'_>,
) -> Result<(), AllocError>
    requires { DistinctBelow graph.now.packages (length graph.now.packages) }
    ensures tokens { OnOk result ((more : Members) → writer.new.tokens ++ members_tokens more
        ≡ writer.old.tokens ++ members_tokens (fact_members graph.now.packages (fact_shown fact.now) more)) }
    ensures before { writer.new.before ≡ writer.old.before }
{
    push_member(alloc, writer, graph, "package", &fact.id)?;
    push_member(alloc, writer, graph, "side", &fact.side)?;
    push_said(alloc, writer, graph, fact.name)
}

impl ToJson for NamedFact<'_> {
    ghost Shown = { NamedFactData };

    ghost shown = { λ fact. fact_shown fact };

    ghost value = { fact_object };

    fn write_to(
        &self,
        alloc: Global,
        writer: &mut Writer,
        graph: &PackageGraph,
    ) -> Result<(), AllocError> {
        writer.begin_object()?;
        push_fact(alloc, writer, graph, self)?;
        writer.end_object()
    }
}

// Adds the facts that the step's follows from.
fn push_grounds(
    alloc: Global,
    writer: &mut Writer,
    graph: &PackageGraph,
    step: &NamedReason<'_>,
) -> Result<(), AllocError>
    requires { DistinctBelow graph.now.packages (length graph.now.packages) }
    ensures tokens { OnOk result (writer.new.tokens
        ≡ writer.old.tokens ++ json_tokens (array_of (fact_object graph.now.packages) (step_shown step.now).grounds)) }
    ensures before { writer.new.before ≡ writer.old.before }
{
    match (&step.first, &step.second) {
        (Some(first), Some(second)) => push_all(alloc, writer, graph, &[*first, *second]),
        (Some(fact), None) | (None, Some(fact)) => push_all(alloc, writer, graph, &[*fact]),
        (None, None) => push_all::<NamedFact<'_>>(alloc, writer, graph, &[]),
    }
}

impl ToJson for NamedReason<'_> {
    ghost Shown = { StepData };

    ghost shown = { λ step. step_shown step };

    ghost value = { reason_object };

    fn write_to(
        &self,
        alloc: Global,
        writer: &mut Writer,
        graph: &PackageGraph,
    ) -> Result<(), AllocError> {
        writer.begin_object()?;
        push_fact(alloc, writer, graph, &self.fact)?;
        writer.key("for")?;
        push_grounds(alloc, writer, graph, self)?;
        writer.end_object()
    }
}
