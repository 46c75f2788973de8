//! How an answer is printed.
ghost use Rattle.std.specs.Prelude.{◌≡◌, ◌↔◌, ◌∷◌, [], ℕ, List, Contains, length, map, string_bytes, IfOk};
ghost use Rattle.guppy_data.specs.declared.records.PackageRecord.{PackageRecord};
ghost use Rattle.guppy_graph.specs.Ids.{DistinctBelow};
ghost use Rattle.guppy_command.specs.Printed.{joined, line_end, lines_of};
ghost use Rattle.guppy_print.specs.Printed.{AreSortedLines, IsAscending, IsPrinted, IsSetIn, called, link_text, list_in, packages_text, walk_text};
ghost use Rattle.guppy_print.specs.Shown.{answer_shown, link_shown, step_shown};

use crate::answer::{Answer, LinkEnds, Step};
use crate::dot_text::dot_text;
use crate::flags::flags_of;
use crate::format::Format;
use crate::objects::line_of_needs;
use crate::print_builds::{lines_of_built, lines_of_features, lines_of_reasons};
use crate::to_json::line_of_array;
use guppy::{PackageGraph, PackageId, SortedSet};
use guppy_command::print::{line_end, lines_of, push_pair, push_step, truth_line};
use guppy_command::{Options, OutputFormat};
use std::alloc::{AllocError, Global};

/// What is printed for the package with this ID.
pub fn text_of<'a, F: Format>(options: &Options, names: &'a F::Names, id: &'a PackageId) -> &'a str
    ensures { (packages : List PackageRecord) → F.are_names names.now packages
        → result.now ≡ called options.now (F.format.text packages) id.now }
{
    if options.by_id {
        id.repr()
    } else {
        F::text_of(names, id)
    }
}

/// What is printed for the packages with these IDs. To sort these texts reads no records, which lie far
/// apart.
pub(crate) fn texts_of<'a, F: Format>(
    alloc: Global,
    options: &Options,
    names: &'a F::Names,
    ids: &[&'a PackageId],
) -> Result<Vec<&'a str>, AllocError>
    ensures { (packages : List PackageRecord) → F.are_names names.now packages
        → IfOk result (λ texts. map (λ text. text.now) texts.items
        ≡ map (called options.now (F.format.text packages)) (map (λ id. id.now) ids.now)) }
{
    let mut texts = Vec::with_capacity(alloc, ids.len())?;
    for id in ids {
        texts.push(text_of::<F>(options, names, id))?;
    }
    Ok(texts)
}

// These texts, each once, in the order of their bytes, one a line with this end.
fn sorted_lines(alloc: Global, end: &str, texts: Vec<&str>) -> Result<String, AllocError>
    ensures { IfOk result (λ lines.
        AreSortedLines end.now (map (λ text. text.now) texts.entry.items) (string_bytes lines)) }
{
    let sorted = SortedSet::new(texts);
    lines_of(alloc, end, sorted.as_slice())
}

// These texts, borrowed.
fn borrowed(alloc: Global, texts: &[String]) -> Result<Vec<&str>, AllocError>
    ensures { IfOk result (λ items. map (λ text. text.now) items.items ≡ map string_bytes texts.now) }
{
    let mut items = Vec::with_capacity(alloc, texts.len())?;
    for text in texts {
        items.push(text.as_str())?;
    }
    Ok(items)
}

// These packages, each once, in the order of their IDs' bytes.
fn sorted_packages<'g>(
    alloc: Global,
    ids: &[&'g PackageId],
) -> Result<SortedSet<&'g PackageId>, AllocError>
    ensures ascending { IfOk result (λ sorted. IsAscending (map (λ id. id.now) sorted)) }
    ensures same { IfOk result (λ sorted. (id : List ℕ) → Contains (map (λ id. id.now) sorted) id
        ↔ Contains (map (λ id. id.now) ids.now) id) }
{
    Ok(SortedSet::new(ids.to_vec(alloc)?))
}

// The packages of a set in the format of the options.
fn text_of_set<F: Format>(
    alloc: Global,
    graph: &PackageGraph,
    options: &Options,
    names: &F::Names,
    ids: &[&PackageId],
) -> Result<String, AllocError>
    requires names { F.are_names names.now graph.now.packages }
    requires distinct { DistinctBelow graph.now.packages (length graph.now.packages) }
    ensures { IfOk result (λ text. IsSetIn F.format options.now graph.now.packages options.now.format
        (map (λ id. id.now) ids.now) (string_bytes text)) }
{
    match options.format {
        OutputFormat::Lines => {
            let texts = texts_of::<F>(alloc, options, names, ids)?;
            sorted_lines(alloc, line_end(options), texts)
        }
        OutputFormat::Flags => {
            let flags = flags_of::<F>(alloc, graph, options, names, ids)?;
            let texts = borrowed(alloc, flags.as_slice())?;
            sorted_lines(alloc, line_end(options), texts)
        }
        OutputFormat::Json => {
            let sorted = sorted_packages(alloc, ids)?;
            line_of_array(alloc, graph, line_end(options), sorted.as_slice())
        }
    }
}

// Packages in their order, in the format of the options.
fn text_of_list<F: Format>(
    alloc: Global,
    graph: &PackageGraph,
    options: &Options,
    names: &F::Names,
    ids: &[&PackageId],
) -> Result<String, AllocError>
    requires names { F.are_names names.now graph.now.packages }
    requires distinct { DistinctBelow graph.now.packages (length graph.now.packages) }
    ensures { IfOk result (λ text. string_bytes text
        ≡ list_in F.format options.now graph.now.packages options.now.format (map (λ id. id.now) ids.now)) }
{
    match options.format {
        OutputFormat::Lines => {
            let texts = texts_of::<F>(alloc, options, names, ids)?;
            lines_of(alloc, line_end(options), texts.as_slice())
        }
        OutputFormat::Flags => {
            let flags = flags_of::<F>(alloc, graph, options, names, ids)?;
            let texts = borrowed(alloc, flags.as_slice())?;
            lines_of(alloc, line_end(options), texts.as_slice())
        }
        OutputFormat::Json => line_of_array(alloc, graph, line_end(options), ids),
    }
}

fn lines_of_links<F: Format>(
    alloc: Global,
    options: &Options,
    names: &F::Names,
    links: &[LinkEnds<'_>],
) -> Result<String, AllocError>
    ensures { (packages : List PackageRecord) → F.are_names names.now packages
        → IfOk result (λ text. string_bytes text
        ≡ lines_of (line_end options.now) (map (link_text (called options.now (F.format.text packages)))
        (map link_shown links.now))) }
{
    let mut text = String::new(alloc);
    for link in links {
        let from = text_of::<F>(options, names, link.from);
        let to = text_of::<F>(options, names, link.to);
        push_pair(&mut text, line_end(options), from, to)?;
    }
    Ok(text)
}

// The texts of these packages, parted by spaces.
fn joined<F: Format>(
    alloc: Global,
    options: &Options,
    names: &F::Names,
    ids: &[&PackageId],
) -> Result<String, AllocError>
    ensures { (packages : List PackageRecord) → F.are_names names.now packages
        → IfOk result (λ text. string_bytes text
        ≡ joined (map (called options.now (F.format.text packages)) (map (λ id. id.now) ids.now))) }
{
    texts_of::<F>(alloc, options, names, ids)?.join(alloc, " ")
}

fn lines_of_rows<F: Format>(
    alloc: Global,
    options: &Options,
    names: &F::Names,
    rows: &[Vec<&PackageId>],
) -> Result<String, AllocError>
    ensures { (packages : List PackageRecord) → F.are_names names.now packages
        → IfOk result (λ text. string_bytes text
        ≡ lines_of (line_end options.now) (map (packages_text (called options.now (F.format.text packages)))
        (map (λ row. map (λ id. id.now) row.items) rows.now))) }
{
    let mut text = String::new(alloc);
    for row in rows {
        let line = joined::<F>(alloc, options, names, row.as_slice())?;
        text.push_str(line.as_str())?;
        text.push_str(line_end(options))?;
    }
    Ok(text)
}

fn lines_of_steps<F: Format>(
    alloc: Global,
    options: &Options,
    names: &F::Names,
    steps: &[Step<'_>],
) -> Result<String, AllocError>
    ensures { (packages : List PackageRecord) → F.are_names names.now packages
        → IfOk result (λ text. string_bytes text
        ≡ lines_of (line_end options.now) (map (walk_text (called options.now (F.format.text packages)))
        (map step_shown steps.now))) }
{
    let mut text = String::new(alloc);
    for step in steps {
        let called = text_of::<F>(options, names, step.id);
        push_step(&mut text, line_end(options), called, step.kinds)?;
    }
    Ok(text)
}

/// The answer's text, with each package by its ID where the options have it so, else as the names of the graph's
/// packages tell, packages that stand alone as flags where the options have that, and what is a list as JSON where they
/// have that. Takes memory for the text, and for a reference a package or its flag. Time grows with the answer, where it
/// is a set with its packages times the logarithm of their number, and for JSON with what it tells times the logarithm
/// of the graph's packages.
pub fn printed<F: Format>(
    alloc: Global,
    graph: &PackageGraph,
    options: &Options,
    names: &F::Names,
    answer: &Answer<'_>,
) -> Result<String, AllocError>
    requires names { F.are_names names.now graph.now.packages }
    requires distinct { DistinctBelow graph.now.packages (length graph.now.packages) }
    ensures { IfOk result (λ text. IsPrinted F.format options.now graph.now.packages (answer_shown answer.now)
        (string_bytes text)) }
{
    match answer {
        Answer::Set(ids) => text_of_set::<F>(alloc, graph, options, names, ids.as_slice()),
        Answer::List(ids) => text_of_list::<F>(alloc, graph, options, names, ids.as_slice()),
        Answer::Links(links) => match options.format {
            OutputFormat::Json => line_of_array(alloc, graph, line_end(options), links.as_slice()),
            OutputFormat::Lines | OutputFormat::Flags => {
                lines_of_links::<F>(alloc, options, names, links.as_slice())
            }
        },
        Answer::Rows(rows) => match options.format {
            OutputFormat::Json => line_of_array(alloc, graph, line_end(options), rows.as_slice()),
            OutputFormat::Lines | OutputFormat::Flags => {
                lines_of_rows::<F>(alloc, options, names, rows.as_slice())
            }
        },
        Answer::Needs(rows) => match options.format {
            OutputFormat::Json => line_of_needs(alloc, graph, line_end(options), rows.as_slice()),
            OutputFormat::Lines | OutputFormat::Flags => {
                lines_of_rows::<F>(alloc, options, names, rows.as_slice())
            }
        },
        Answer::Steps(steps) => match options.format {
            OutputFormat::Json => line_of_array(alloc, graph, line_end(options), steps.as_slice()),
            OutputFormat::Lines | OutputFormat::Flags => {
                lines_of_steps::<F>(alloc, options, names, steps.as_slice())
            }
        },
        Answer::Built(rows) => match options.format {
            OutputFormat::Json => line_of_array(alloc, graph, line_end(options), rows.as_slice()),
            OutputFormat::Lines | OutputFormat::Flags => {
                lines_of_built::<F>(alloc, options, names, rows.as_slice())
            }
        },
        Answer::Features(rows) => match options.format {
            OutputFormat::Json => line_of_array(alloc, graph, line_end(options), rows.as_slice()),
            OutputFormat::Lines | OutputFormat::Flags => {
                lines_of_features::<F>(alloc, options, names, rows.as_slice())
            }
        },
        Answer::Reasons(steps) => match options.format {
            OutputFormat::Json => line_of_array(alloc, graph, line_end(options), steps.as_slice()),
            OutputFormat::Lines | OutputFormat::Flags => {
                lines_of_reasons::<F>(alloc, options, names, steps.as_slice())
            }
        },
        Answer::Truth(holds) => String::from_str(alloc, truth_line(*holds)),
        Answer::Drawing(drawing) => dot_text::<F>(alloc, options, names, drawing),
        Answer::AllWell => String::from_str(alloc, "ok\n"),
    }
}
