//! Packages, links and walks as JSON.
ghost use Rattle.std.specs.Prelude.{◌≡◌, ◌∷◌, ◌++◌, [], ℕ, List, length, map, string_bytes, IfOk, OnOk, if◌then◌else◌};
ghost use Rattle.semver.specs.Identifiers.{version_text};
ghost use Rattle.json.specs.Token.{string};
ghost use Rattle.json.specs.Tree.{json_tokens};
ghost use Rattle.guppy_graph.specs.Ids.{DistinctBelow};
ghost use Rattle.guppy.specs.Views.{OfPackage};
ghost use Rattle.guppy_command.specs.Printed.{line_of};
ghost use Rattle.guppy_print.specs.Objects.{array_of, json_text, kinds_array, link_object, needs_object, object_of, package_object, step_object};
ghost use Rattle.guppy_print.specs.Shown.{link_shown, step_shown};

use crate::answer::{LinkEnds, Step};
use crate::to_json::{ToJson, line_of, push_all, push_member};
use guppy::{PackageGraph, PackageId, PackageMetadata};
use guppy_command::Kinds;
use json::Writer;
use std::alloc::{AllocError, Global};

// The package's version.
fn version_of(alloc: Global, metadata: PackageMetadata<'_>) -> Result<String, AllocError>
    ensures { IfOk result (λ text. OfPackage metadata.entry (λ r. string_bytes text ≡ version_text r.version)) }
{
    let version = metadata.version();
    format!(in alloc; "{version}")
}

// Adds the package.
fn push_known(
    alloc: Global,
    writer: &mut Writer,
    graph: &PackageGraph,
    metadata: PackageMetadata<'_>,
) -> Result<(), AllocError>
    requires { DistinctBelow graph.now.packages (length graph.now.packages) }
    ensures tokens { OnOk result (OfPackage metadata.entry (λ r. writer.new.tokens
        ≡ writer.old.tokens ++ json_tokens (object_of r))) }
    ensures before { writer.new.before ≡ writer.old.before }
{
    let name = metadata.name();
    let version = version_of(alloc, metadata)?;
    let id = metadata.id();
    let manifest = metadata.manifest_path();
    writer.begin_object()?;
    push_member(alloc, writer, graph, "name", &name)?;
    push_member(alloc, writer, graph, "version", &version.as_str())?;
    push_member(alloc, writer, graph, "id", &id.repr())?;
    push_member(alloc, writer, graph, "manifest_path", &manifest.as_str())?;
    writer.end_object()
}

impl ToJson for &PackageId {
    ghost Shown = { List ℕ };

    ghost shown = { λ id. id.now };

    ghost value = { package_object };

    fn write_to(
        &self,
        alloc: Global,
        writer: &mut Writer,
        graph: &PackageGraph,
    ) -> Result<(), AllocError> {
        let Ok(metadata) = graph.metadata(*self) else {
            return writer.null();
        };
        push_known(alloc, writer, graph, metadata)
    }
}

// Adds the name of a kind, if it is one of those that are told.
fn push_kind(writer: &mut Writer, is_told: bool, name: &str) -> Result<(), AllocError>
    ensures tokens { OnOk result (writer.new.tokens
        ≡ writer.old.tokens ++ (if is_told then string name.now ∷ [] else [])) }
    ensures before { writer.new.before ≡ writer.old.before }
{
    if is_told { writer.string(name) } else { Ok(()) }
}

impl ToJson for Kinds {
    ghost use Rattle.guppy_command.specs.declared.options.Kinds.{Kinds};

    ghost Shown = { Kinds };

    ghost shown = { λ kinds. kinds };

    ghost value = { λ packages kinds. kinds_array kinds };

    fn write_to(
        &self,
        _alloc: Global,
        writer: &mut Writer,
        _graph: &PackageGraph,
    ) -> Result<(), AllocError> {
        writer.begin_array()?;
        push_kind(writer, self.normal, "normal")?;
        push_kind(writer, self.build, "build")?;
        push_kind(writer, self.dev, "dev")?;
        writer.end_array()
    }
}

impl ToJson for LinkEnds<'_> {
    ghost use Rattle.guppy_command.specs.declared.options.Kinds.{Kinds};

    ghost Shown = { List ℕ × List ℕ × Kinds };

    ghost shown = { λ link. link_shown link };

    ghost value = { link_object };

    fn write_to(
        &self,
        alloc: Global,
        writer: &mut Writer,
        graph: &PackageGraph,
    ) -> Result<(), AllocError> {
        writer.begin_object()?;
        push_member(alloc, writer, graph, "from", &self.from)?;
        push_member(alloc, writer, graph, "to", &self.to)?;
        push_member(alloc, writer, graph, "sections", &self.kinds)?;
        writer.end_object()
    }
}

impl ToJson for Step<'_> {
    ghost use Rattle.guppy_command.specs.declared.options.Kinds.{Kinds};

    ghost Shown = { List ℕ × Kinds };

    ghost shown = { λ step. step_shown step };

    ghost value = { step_object };

    fn write_to(
        &self,
        alloc: Global,
        writer: &mut Writer,
        graph: &PackageGraph,
    ) -> Result<(), AllocError> {
        writer.begin_object()?;
        push_member(alloc, writer, graph, "package", &self.id)?;
        push_member(alloc, writer, graph, "sections", &self.kinds)?;
        writer.end_object()
    }
}

// Adds the package that is first in the row, and those behind it, which need it.
fn push_needs(
    alloc: Global,
    writer: &mut Writer,
    graph: &PackageGraph,
    row: &[&PackageId],
) -> Result<(), AllocError>
    requires { DistinctBelow graph.now.packages (length graph.now.packages) }
    ensures tokens { OnOk result (writer.new.tokens
        ≡ writer.old.tokens ++ json_tokens (needs_object graph.now.packages (map (λ id. id.now) row.now))) }
    ensures before { writer.new.before ≡ writer.old.before }
{
    let Some((id, needed_by)) = row.split_first() else {
        return writer.null();
    };
    writer.begin_object()?;
    push_member(alloc, writer, graph, "package", id)?;
    writer.key("needed_by")?;
    push_all(alloc, writer, graph, needed_by)?;
    writer.end_object()
}

/// Packages, each with those that need it, as an array on a line with this end. Takes memory for it. Time grows with it,
/// and with its packages times the logarithm of the graph's.
pub(crate) fn line_of_needs(
    alloc: Global,
    graph: &PackageGraph,
    end: &str,
    rows: &[Vec<&PackageId>],
) -> Result<String, AllocError>
    requires { DistinctBelow graph.now.packages (length graph.now.packages) }
    ensures { IfOk result (λ text. string_bytes text ≡ line_of end.now (json_text
        (array_of (needs_object graph.now.packages) (map (λ row. map (λ id. id.now) row.items) rows.now)))) }
{
    let mut writer = Writer::new(Vec::new(alloc));
    writer.begin_array()?;
    for row in rows {
        push_needs(alloc, &mut writer, graph, row.as_slice())?;
    }
    writer.end_array()?;
    line_of(writer, end)
}
