//! A package or a link on a line of a drawing's text, as Graphviz reads it.
ghost use Rattle.std.specs.Prelude.{◌≡◌, ◌++◌, OnOk, string_bytes};
ghost use Rattle.guppy_dot.specs.Dot.{edge_shown, node_shown};
ghost use Rattle.guppy_dot.specs.DotText.{edge_attributes, edge_line, node_attributes, node_line};

use crate::drawing::{Edge, LinkStyle, Node};
use crate::quoted::push_quoted;
use std::alloc::AllocError;

fn node_attributes(node: Node<'_>) -> &'static str
    ensures { result.now ≡ node_attributes (node_shown node.entry) }
{
    match (node.is_member, node.is_cyclic) {
        (true, true) => " [shape=box, color=red]",
        (true, false) => " [shape=box]",
        (false, true) => " [color=red]",
        (false, false) => "",
    }
}

fn edge_attributes(edge: Edge<'_>) -> &'static str
    ensures { result.now ≡ edge_attributes (edge_shown edge.entry) }
{
    match (edge.style, edge.is_cyclic) {
        (LinkStyle::Solid, true) => " [color=red]",
        (LinkStyle::Dotted, true) => " [style=dotted, color=red]",
        (LinkStyle::Dashed, true) => " [style=dashed, color=red]",
        (LinkStyle::Solid, false) => "",
        (LinkStyle::Dotted, false) => " [style=dotted]",
        (LinkStyle::Dashed, false) => " [style=dashed]",
    }
}

/// Adds the package, which is called so, on a line. Takes memory for the line.
pub fn push_node(text: &mut String, called: &str, node: Node<'_>) -> Result<(), AllocError>
    ensures { OnOk result (string_bytes text.new
        ≡ string_bytes text.old ++ node_line called.now (node_shown node.entry)) }
{
    text.push_str("  ")?;
    push_quoted(text, called)?;
    text.push_str(node_attributes(node))?;
    text.push_str(";\n")
}

/// Adds the link between the packages, which are called so, on a line. Takes memory for the line.
pub fn push_edge(text: &mut String, from: &str, to: &str, edge: Edge<'_>) -> Result<(), AllocError>
    ensures { OnOk result (string_bytes text.new
        ≡ string_bytes text.old ++ edge_line from.now to.now (edge_shown edge.entry)) }
{
    text.push_str("  ")?;
    push_quoted(text, from)?;
    text.push_str(" -> ")?;
    push_quoted(text, to)?;
    text.push_str(edge_attributes(edge))?;
    text.push_str(";\n")
}
