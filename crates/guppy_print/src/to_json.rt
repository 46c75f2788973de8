//! What has a value in JSON, and how it is written.
ghost use Rattle.std.specs.Prelude.{◌≡◌, ◌++◌, [], ℕ, List, length, map, string_bytes, IfOk, OnOk};
ghost use Rattle.json.specs.Json.{Json, Members, member};
ghost use Rattle.json.specs.Print.{print};
ghost use Rattle.json.specs.Tree.{json_tokens, members_tokens};
ghost use Rattle.guppy_graph.specs.Ids.{DistinctBelow};
ghost use Rattle.guppy_command.specs.Printed.{line_of};
ghost use Rattle.guppy_data.specs.declared.records.PackageRecord.{PackageRecord};
ghost use Rattle.guppy_print.specs.Objects.{array_of, json_text};

use guppy::PackageGraph;
use json::Writer;
use std::alloc::{AllocError, Global};

/// What has a value in JSON, where packages are those of a graph.
pub(crate) trait ToJson {
    /// What it is without where it lies in memory.
    ghost Shown: { Type 0 };

    /// It without that.
    ghost shown: { Self → Shown };

    /// The value, where these are the packages.
    ghost value: { List PackageRecord → Shown → Json };

    /// Adds the value.
    fn write_to(
        &self,
        alloc: Global,
        writer: &mut Writer,
        graph: &PackageGraph,
    ) -> Result<(), AllocError>
        requires { DistinctBelow graph.now.packages (length graph.now.packages) }
        ensures tokens { OnOk result (writer.new.tokens
            ≡ writer.old.tokens ++ json_tokens (value graph.now.packages (shown self.now))) }
        ensures before { writer.new.before ≡ writer.old.before };
}

/// Adds an array of these.
pub(crate) fn push_all<T: ToJson>(
    alloc: Global,
    writer: &mut Writer,
    graph: &PackageGraph,
    items: &[T],
) -> Result<(), AllocError>
    requires { DistinctBelow graph.now.packages (length graph.now.packages) }
    ensures tokens { OnOk result (writer.new.tokens
        ≡ writer.old.tokens ++ json_tokens (array_of (T.value graph.now.packages) (map T.shown items.now))) }
    ensures before { writer.new.before ≡ writer.old.before }
{
    writer.begin_array()?;
    for item in items {
        item.write_to(alloc, writer, graph)?;
    }
    writer.end_array()
}

impl<T: ToJson> ToJson for Vec<T> {
    ghost Shown = { List T.Shown };

    ghost shown = { λ items. map T.shown items.items };

    ghost value = { λ packages items. array_of (T.value packages) items };

    fn write_to(
        &self,
        alloc: Global,
        writer: &mut Writer,
        graph: &PackageGraph,
    ) -> Result<(), AllocError> {
        push_all(alloc, writer, graph, self.as_slice())
    }
}

impl ToJson for &str {
    ghost Shown = { List ℕ };

    ghost shown = { λ text. text.now };

    ghost value = { λ packages text. Json.string text };

    fn write_to(
        &self,
        _alloc: Global,
        writer: &mut Writer,
        _graph: &PackageGraph,
    ) -> Result<(), AllocError> {
        writer.string(*self)
    }
}

/// Adds a member of an object.
pub(crate) fn push_member<T: ToJson>(
    alloc: Global,
    writer: &mut Writer,
    graph: &PackageGraph,
    name: &str,
    value: &T,
) -> Result<(), AllocError>
    requires { DistinctBelow graph.now.packages (length graph.now.packages) }
    ensures tokens { OnOk result ((more : Members) → writer.new.tokens ++ members_tokens more
        ≡ writer.old.tokens ++ members_tokens (member name.now (T.value graph.now.packages (T.shown value.now)) more)) }
    ensures before { writer.new.before ≡ writer.old.before }
{
    writer.key(name)?;
    value.write_to(alloc, writer, graph)
}

/// What is written, on a line with this end.
pub(crate) fn line_of(writer: Writer, end: &str) -> Result<String, AllocError>
    requires { writer.before ≡ [] }
    ensures { IfOk result (λ text. string_bytes text ≡ line_of end.now (print writer.tokens)) }
{
    let Ok(mut text) = String::from_utf8(writer.into_inner()) else {
        unreachable!()
    };
    text.push_str(end)?;
    Ok(text)
}

/// These as an array on a line with this end. Takes memory for it. Time grows with it, and with its packages times the
/// logarithm of the graph's.
pub(crate) fn line_of_array<T: ToJson>(
    alloc: Global,
    graph: &PackageGraph,
    end: &str,
    items: &[T],
) -> Result<String, AllocError>
    requires { DistinctBelow graph.now.packages (length graph.now.packages) }
    ensures { IfOk result (λ text. string_bytes text ≡ line_of end.now
        (json_text (array_of (T.value graph.now.packages) (map T.shown items.now)))) }
{
    let mut writer = Writer::new(Vec::new(alloc));
    push_all(alloc, &mut writer, graph, items)?;
    line_of(writer, end)
}
