//! The dependencies of a package.
ghost use Rattle.std.specs.Prelude.{◌≡◌, ℕ, ◌++◌, ◌<◌, IfOk, OnOk, All, map, length};
ghost use Rattle.guppy_search.specs.Links.{seen_link};
ghost use Rattle.guppy_graph.specs.Sections.{section_of};
ghost use Rattle.guppy_features.specs.Dependencies.{AreOf, IsWithin, dependencies_of, seen_dependency, section_dependencies};

use guppy_data::{DepRequiredOrOptional, DependencyKind, DependencyReqImpl, LinkRecord};
use guppy_graph::RecordGraph;
use guppy_search::{DependencyDirection, Link};
use std::alloc::AllocError;

/// A dependency: of one section of a link the required or the optional part.
#[derive(Clone, Copy)]
pub struct Dependency<'a> {
    /// The position of the package that depends.
    pub from: usize,
    /// The position of the one depended on.
    pub to: usize,
    /// The name in the manifest.
    pub name: &'a str,
    /// The section.
    pub section: DependencyKind,
    /// Whether it is the optional part.
    pub is_optional: bool,
    /// The part.
    pub part: &'a DepRequiredOrOptional,
}

/// The dependencies of the package at the position, six for each link that leaves it. Takes memory for them, and fails
/// only where there is none.
pub fn dependencies(graph: &RecordGraph, position: usize) -> Result<Vec<Dependency<'_>>, AllocError>
    requires { position < length graph.now.packages }
    ensures dependencies { IfOk result (λ list. AreOf graph.now position list.items) }
    ensures within { IfOk result (λ list. All (IsWithin (length graph.now.packages)) list.items) }
{
    let mut list = Vec::new(graph.alloc());
    let ix = graph.ix_at(position);
    for number in graph.dep_graph().links_of(ix, DependencyDirection::Forward) {
        add_link(&mut list, &graph.link_at(*number))?;
    }
    Ok(list)
}

// Adds the six dependencies of the link.
fn add_link<'a>(
    list: &mut Vec<Dependency<'a>>,
    link: &Link<&'a LinkRecord>,
) -> Result<(), AllocError>
    ensures added { OnOk result (map seen_dependency list.new.items
        ≡ map seen_dependency list.old.items ++ dependencies_of (seen_link link.now)) }
    ensures within { (n : ℕ) → link.now.from < n → link.now.to < n → All (IsWithin n) list.old.items
        → All (IsWithin n) list.new.items }
{
    add_section(list, link, DependencyKind::Normal)?;
    add_section(list, link, DependencyKind::Build)?;
    add_section(list, link, DependencyKind::Development)
}

// Adds the two dependencies of a section of the link.
fn add_section<'a>(
    list: &mut Vec<Dependency<'a>>,
    link: &Link<&'a LinkRecord>,
    section: DependencyKind,
) -> Result<(), AllocError>
    ensures added { OnOk result (map seen_dependency list.new.items
        ≡ map seen_dependency list.old.items ++ section_dependencies (seen_link link.now) section) }
    ensures within { (n : ℕ) → link.now.from < n → link.now.to < n → All (IsWithin n) list.old.items
        → All (IsWithin n) list.new.items }
{
    let req = section_of(link.edge, section);
    list.push(Dependency {
        from: link.from,
        to: link.to,
        name: link.edge.dep_name.as_str(),
        section,
        is_optional: false,
        part: &req.required,
    })?;
    list.push(Dependency {
        from: link.from,
        to: link.to,
        name: link.edge.dep_name.as_str(),
        section,
        is_optional: true,
        part: &req.optional,
    })?;
    Ok(())
}

fn section_of(link: &LinkRecord, section: DependencyKind) -> &DependencyReqImpl
    ensures { result.now ≡ section_of section link.now }
{
    match section {
        DependencyKind::Normal => &link.normal,
        DependencyKind::Development => &link.dev,
        DependencyKind::Build => &link.build,
    }
}
