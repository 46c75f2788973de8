//! The members of the workspace among the packages of an answer.
ghost use Rattle.std.specs.Prelude.{◌≡◌, ◌&&◌, IfOk, IsOkUnless, map};
ghost use Rattle.std.specs.List.{filter, list_all};
ghost use Rattle.guppy_program.specs.Answer.{AreMembers, is_member, is_of, of_members, shown};
ghost use Rattle.guppy_built.specs.Names.{step_shown as reason_shown};
ghost use Rattle.guppy_built.specs.Rows.{row_of};
ghost use Rattle.guppy_dot.specs.Dot.{edge_shown, node_shown};
ghost use Rattle.guppy_print.specs.Shown.{answer_shown, link_shown, step_shown};

use guppy::{Error, PackageGraph, PackageId, PackageSet};
use guppy_built::{BuiltPackage, NamedReason};
use guppy_command::Options;
use guppy_dot::{Edge, Node};
use guppy_print::{Answer, LinkEnds, Step};

// Whether the package with the ID is one of the members.
fn is_member(members: &PackageSet<'_>, id: &PackageId) -> bool
    requires { AreMembers members.now }
    ensures { result ≡ is_member members.now.graph.packages id.now }
{
    let Ok(among) = members.contains(id) else {
        return false;
    };
    among
}

// Whether each package with one of the IDs is one of the members.
fn are_members(members: &PackageSet<'_>, ids: &[&PackageId]) -> bool
    requires { AreMembers members.now }
    ensures { result
        ≡ list_all (is_member members.now.graph.packages) (map (λ id. id.now) ids.now) }
{
    ids.iter().all(|id| is_member(members, id))
}

// Leaves the others out.
fn keep_members(members: &PackageSet<'_>, ids: &mut Vec<&PackageId>)
    requires { AreMembers members.now }
    ensures { map (λ id. id.now) ids.new.items
        ≡ filter (is_member members.now.graph.packages) (map (λ id. id.now) ids.old.items) }
{
    ids.retain(|id| is_member(members, id));
}

// Leaves the links out of which another package is an end.
fn keep_links(members: &PackageSet<'_>, links: &mut Vec<LinkEnds<'_>>)
    requires { AreMembers members.now }
    ensures { map link_shown links.new.items
        ≡ filter (λ link. is_member members.now.graph.packages link.0
        && is_member members.now.graph.packages link.1) (map link_shown links.old.items) }
{
    links.retain(|link| is_member(members, link.from) && is_member(members, link.to));
}

// Leaves the rows out in which another package stands.
fn keep_rows(members: &PackageSet<'_>, rows: &mut Vec<Vec<&PackageId>>)
    requires { AreMembers members.now }
    ensures { map (λ row. map (λ id. id.now) row.items) rows.new.items
        ≡ filter (list_all (is_member members.now.graph.packages))
        (map (λ row. map (λ id. id.now) row.items) rows.old.items) }
{
    rows.retain(|row| are_members(members, row.as_slice()));
}

// Whether the first package of the row is one of the members.
fn is_of_member(members: &PackageSet<'_>, row: &[&PackageId]) -> bool
    requires { AreMembers members.now }
    ensures { result
        ≡ is_of (is_member members.now.graph.packages) (map (λ id. id.now) row.now) }
{
    match row {
        [id, ..] => is_member(members, id),
        [] => false,
    }
}

// Leaves the rows of other packages out.
fn keep_needs(members: &PackageSet<'_>, rows: &mut Vec<Vec<&PackageId>>)
    requires { AreMembers members.now }
    ensures { map (λ row. map (λ id. id.now) row.items) rows.new.items
        ≡ filter (is_of (is_member members.now.graph.packages))
        (map (λ row. map (λ id. id.now) row.items) rows.old.items) }
{
    rows.retain(|row| is_of_member(members, row.as_slice()));
}

// Leaves the others out.
fn keep_steps(members: &PackageSet<'_>, steps: &mut Vec<Step<'_>>)
    requires { AreMembers members.now }
    ensures { map step_shown steps.new.items
        ≡ filter (λ step. is_member members.now.graph.packages step.0) (map step_shown steps.old.items) }
{
    steps.retain(|step| is_member(members, step.id));
}

// Leaves the other packages out.
fn keep_built(members: &PackageSet<'_>, rows: &mut Vec<BuiltPackage<'_>>)
    requires { AreMembers members.now }
    ensures { map row_of rows.new.items
        ≡ filter (λ row. is_member members.now.graph.packages row.id) (map row_of rows.old.items) }
{
    rows.retain(|row| is_member(members, row.id));
}

// Leaves out what is said of other packages.
fn keep_reasons(members: &PackageSet<'_>, steps: &mut Vec<NamedReason<'_>>)
    requires { AreMembers members.now }
    ensures { map reason_shown steps.new.items
        ≡ filter (λ step. is_member members.now.graph.packages step.fact.id)
        (map reason_shown steps.old.items) }
{
    steps.retain(|step| is_member(members, step.fact.id));
}

// Leaves the other packages out.
fn keep_nodes(members: &PackageSet<'_>, nodes: &mut Vec<Node<'_>>)
    requires { AreMembers members.now }
    ensures { map node_shown nodes.new.items
        ≡ filter (λ node. is_member members.now.graph.packages node.id)
        (map node_shown nodes.old.items) }
{
    nodes.retain(|node| is_member(members, node.id));
}

// Leaves the links out of which another package is an end.
fn keep_edges(members: &PackageSet<'_>, edges: &mut Vec<Edge<'_>>)
    requires { AreMembers members.now }
    ensures { map edge_shown edges.new.items
        ≡ filter (λ edge. is_member members.now.graph.packages edge.from
        && is_member members.now.graph.packages edge.to) (map edge_shown edges.old.items) }
{
    edges.retain(|edge| is_member(members, edge.from) && is_member(members, edge.to));
}

// The answer with these members alone.
fn among<'g>(members: &PackageSet<'_>, answer: Answer<'g>) -> Answer<'g>
    requires { AreMembers members.now }
    ensures { answer_shown result
        ≡ of_members members.now.graph.packages (answer_shown answer.entry) }
{
    match answer {
        Answer::Set(mut ids) => {
            keep_members(members, &mut ids);
            Answer::Set(ids)
        }
        Answer::List(mut ids) => {
            keep_members(members, &mut ids);
            Answer::List(ids)
        }
        Answer::Links(mut links) => {
            keep_links(members, &mut links);
            Answer::Links(links)
        }
        Answer::Rows(mut rows) => {
            keep_rows(members, &mut rows);
            Answer::Rows(rows)
        }
        Answer::Needs(mut rows) => {
            keep_needs(members, &mut rows);
            Answer::Needs(rows)
        }
        Answer::Steps(mut steps) => {
            keep_steps(members, &mut steps);
            Answer::Steps(steps)
        }
        Answer::Built(mut rows) => {
            keep_built(members, &mut rows);
            Answer::Built(rows)
        }
        Answer::Reasons(mut steps) => {
            keep_reasons(members, &mut steps);
            Answer::Reasons(steps)
        }
        Answer::Drawing(mut drawing) => {
            keep_nodes(members, &mut drawing.nodes);
            keep_edges(members, &mut drawing.edges);
            Answer::Drawing(drawing)
        }
        Answer::Features(rows) => Answer::Features(rows),
        Answer::Truth(holds) => Answer::Truth(holds),
        Answer::AllWell => Answer::AllWell,
    }
}

// The answer with members of the workspace alone.
fn of_members<'g>(graph: &PackageGraph, answer: Answer<'g>) -> Result<Answer<'g>, Error>
    ensures ok { IfOk result (λ chosen. answer_shown chosen
        ≡ of_members graph.now.packages (answer_shown answer.entry)) }
    ensures err { IsOkUnless result Error.OutOfMemory }
{
    let members = graph.resolve_workspace()?;
    Ok(among(&members, answer))
}

/// What the options have shown of the answer of this graph: all of it, or with members of the workspace alone.
///
/// Takes memory for a number a member and a bit a package, and fails, with `OutOfMemory`, only where there is
/// none. Time grows with the packages, and with the answer times the logarithm of the packages.
pub fn shown<'g>(
    graph: &PackageGraph,
    options: Options,
    answer: Answer<'g>,
) -> Result<Answer<'g>, Error>
    ensures ok { IfOk result (λ chosen. answer_shown chosen
        ≡ shown options graph.now.packages (answer_shown answer.entry)) }
    ensures err { IsOkUnless result Error.OutOfMemory }
{
    if options.members_alone {
        of_members(graph, answer)
    } else {
        Ok(answer)
    }
}
