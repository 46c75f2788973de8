//! A drawing's text, as Graphviz reads it.
ghost use Rattle.std.specs.Prelude.{◌≡◌, ◌++◌, List, IfOk, OnOk, string_bytes, map};
ghost use Rattle.std.specs.List.{flat_map};
ghost use Rattle.guppy_data.specs.declared.records.PackageRecord.{PackageRecord};
ghost use Rattle.guppy_dot.specs.Dot.{drawing_shown, edge_shown, node_shown};
ghost use Rattle.guppy_dot.specs.DotText.{dot_text, called_edge, called_node};
ghost use Rattle.guppy_print.specs.Printed.{called};

use crate::format::Format;
use crate::print::text_of;
use guppy_command::Options;
use guppy_dot::{Drawing, Edge, Node, push_edge, push_node};
use std::alloc::{AllocError, Global};

// Adds the lines of the packages.
fn push_nodes<F: Format>(
    text: &mut String,
    options: &Options,
    names: &F::Names,
    nodes: &[Node<'_>],
) -> Result<(), AllocError>
    ensures { (packages : List PackageRecord) → F.are_names names.now packages
        → OnOk result (string_bytes text.new ≡ string_bytes text.old
        ++ flat_map (called_node (called options.now (F.format.text packages)))
        (map node_shown nodes.now)) }
{
    for node in nodes {
        push_node(text, text_of::<F>(options, names, node.id), *node)?;
    }
    Ok(())
}

// Adds the lines of the links.
fn push_edges<F: Format>(
    text: &mut String,
    options: &Options,
    names: &F::Names,
    edges: &[Edge<'_>],
) -> Result<(), AllocError>
    ensures { (packages : List PackageRecord) → F.are_names names.now packages
        → OnOk result (string_bytes text.new ≡ string_bytes text.old
        ++ flat_map (called_edge (called options.now (F.format.text packages)))
        (map edge_shown edges.now)) }
{
    for edge in edges {
        let from = text_of::<F>(options, names, edge.from);
        push_edge(text, from, text_of::<F>(options, names, edge.to), *edge)?;
    }
    Ok(())
}

/// The drawing's text, with each package by its ID where the options have it so, else as the names of the graph's
/// packages tell. Takes memory for the text. Time grows with it.
pub fn dot_text<F: Format>(
    alloc: Global,
    options: &Options,
    names: &F::Names,
    drawing: &Drawing<'_>,
) -> Result<String, AllocError>
    ensures { (packages : List PackageRecord) → F.are_names names.now packages
        → IfOk result (λ text. string_bytes text
        ≡ dot_text (called options.now (F.format.text packages)) (drawing_shown drawing.now)) }
{
    let mut text = String::from_str(alloc, "digraph {\n")?;
    push_nodes::<F>(&mut text, options, names, drawing.nodes.as_slice())?;
    push_edges::<F>(&mut text, options, names, drawing.edges.as_slice())?;
    text.push_str("}\n")?;
    Ok(text)
}
