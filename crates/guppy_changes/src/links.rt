//! The marks that links give.
ghost use Rattle.std.specs.Prelude.{◌≡◌, OnOk};
ghost use Rattle.guppy_graph.specs.Sections.{section_of};
ghost use Rattle.guppy_changes.specs.Adding.{Adds, OfSome};
ghost use Rattle.guppy_changes.specs.Changes.{edges};
ghost use Rattle.guppy_changes.specs.Shown.{LinkMarks, NamedMarks, PartMarks, SectionMarks, all_shown, kind_of, need_shown};

use crate::adding::{Marks, add_if};
use crate::mark::{Mark, MarkOf, Need, Section};
use guppy_data::{DepRequiredOrOptional, DependencyReqImpl, LinkRecord, PackageId};
use guppy_graph::RecordGraph;
use std::alloc::AllocError;

// Adds the features that the part asks for by their names.
fn add_named<'a>(
    marks: &mut Marks<'a>,
    id: &'a PackageId,
    need: Need<'a>,
    part: &'a DepRequiredOrOptional,
) -> Result<(), AllocError>
    ensures { OnOk result (Adds (NamedMarks id.now (need_shown need.entry) part.now)
        (all_shown marks.old.items) (all_shown marks.new.items)) }
{
    for (name, status) in part.feature_targets.iter() {
        let mark = Mark::AsksFor(need, name.as_str());
        add_if(marks, status, MarkOf { id, mark })?;
    }
    Ok(())
}

// Adds what the part of a section gives.
fn add_part<'a>(
    marks: &mut Marks<'a>,
    id: &'a PackageId,
    need: Need<'a>,
    part: &'a DepRequiredOrOptional,
) -> Result<(), AllocError>
    ensures { OnOk result (Adds (PartMarks id.now (need_shown need.entry) part.now)
        (all_shown marks.old.items) (all_shown marks.new.items)) }
{
    let needs = Mark::Needs(need);
    add_if(marks, &part.build_if, MarkOf { id, mark: needs })?;
    let defaults = Mark::AsksForDefaults(need);
    add_if(
        marks,
        &part.default_features_if,
        MarkOf { id, mark: defaults },
    )?;
    add_named(marks, id, need, part)
}

fn section_of(link: &LinkRecord, section: Section) -> &DependencyReqImpl
    ensures { result.now ≡ section_of (kind_of section) link.now }
{
    match section {
        Section::Normal => &link.normal,
        Section::Build => &link.build,
        Section::Development => &link.dev,
    }
}

// Adds what the section of the link gives.
fn add_section<'a>(
    marks: &mut Marks<'a>,
    link: &'a LinkRecord,
    section: Section,
) -> Result<(), AllocError>
    ensures { OnOk result (Adds (SectionMarks link.now (kind_of section))
        (all_shown marks.old.items) (all_shown marks.new.items)) }
{
    let need = Need {
        section,
        to: &link.to,
        name: link.dep_name.as_str(),
    };
    let req = section_of(link, section);
    add_part(marks, &link.from, need, &req.required)?;
    add_part(marks, &link.from, need, &req.optional)
}

// Adds what the link gives.
fn add_link<'a>(marks: &mut Marks<'a>, link: &'a LinkRecord) -> Result<(), AllocError>
    ensures { OnOk result (Adds (LinkMarks link.now) (all_shown marks.old.items) (all_shown marks.new.items)) }
{
    add_section(marks, link, Section::Normal)?;
    add_section(marks, link, Section::Build)?;
    add_section(marks, link, Section::Development)
}

/// Adds what the graph's links give.
pub(crate) fn add_links<'a>(marks: &mut Marks<'a>, graph: &'a RecordGraph) -> Result<(), AllocError>
    ensures { OnOk result (Adds (OfSome (edges graph.now.links) LinkMarks)
        (all_shown marks.old.items) (all_shown marks.new.items)) }
{
    for number in 0..graph.link_count() {
        add_link(marks, graph.link_at(number).edge)?;
    }
    Ok(())
}
