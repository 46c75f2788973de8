//! The links of a node, read member by member.
ghost use Rattle.std.specs.Prelude.{◌≡◌, ◌++◌, List, Some, IfSome, OnSome};
ghost use Rattle.std.specs.List.{AllZip};
ghost use Rattle.json.specs.Json.{Json, value};
ghost use Rattle.guppy_data.specs.declared.records.LinkRecord.{LinkRecord};
ghost use Rattle.guppy_metadata.specs.Buffer.{links_in};
ghost use Rattle.guppy_metadata.specs.Links.{AreLinksOf};
ghost use Rattle.guppy_metadata.specs.Node.{TellsNode};
ghost use Rattle.guppy_metadata.specs.Package.{IsSlimPackage, ArePositions};
ghost use Rattle.guppy_metadata.specs.Told.{IsWith};

use crate::link::{Packages, read_links};
use crate::link_buffer::LinkBuffer;
use crate::types::{Node, Package};
use indexmap::IndexMap;
use json::{MAX_DEPTH, Reader, Token, Value};
use std::alloc::Global;

// Reads the member of this name, whose value comes next. The ID is to come before the links, and neither twice.
fn read_member<'a>(
    node: &mut Node<'a>,
    links: &mut LinkBuffer,
    reader: &mut Reader<'a>,
    packages: Packages<'_, '_>,
    name: &str,
) -> Option<()>
    requires { ArePositions packages.packages.now packages.positions.now }
    ensures { OnSome result ((told : Json) × (value 124 reader.old ≡ Some (told, reader.new))
        × ((d e : Json) (front row : List LinkRecord) → IsWith name.now told d e
        → links_in links.old ≡ front ++ row → TellsNode packages.entry.packages.now d node.old row
        → (rows : List LinkRecord) × (links_in links.new ≡ front ++ rows)
        × TellsNode packages.entry.packages.now e node.new rows)) }
{
    if name == "id" {
        if node.has_links {
            return None;
        }
        let Value::String(id) = Value::read(links.allocator(), reader, MAX_DEPTH - 4).ok()? else {
            return None;
        };
        node.from = Some(id);
    } else if name == "deps" {
        if node.has_links {
            return None;
        }
        read_links(links, reader, packages, node.from?)?;
        node.has_links = true;
    } else {
        reader.skip_value(MAX_DEPTH - 4).ok()?;
    }
    Some(())
}

// Reads the node that comes next, and adds its links.
fn read_members<'a>(
    links: &mut LinkBuffer,
    reader: &mut Reader<'a>,
    packages: Packages<'_, '_>,
) -> Option<Node<'a>>
    requires { ArePositions packages.packages.now packages.positions.now }
    ensures { IfSome result (λ node. (told : Json) × (value 125 reader.old ≡ Some (told, reader.new))
        × (row : List LinkRecord) × (links_in links.new ≡ links_in links.old ++ row)
        × TellsNode packages.entry.packages.now told node row) }
{
    let Some(Token::BeginObject) = reader.next() else {
        return None;
    };
    let mut node = Node {
        from: None,
        has_links: false,
    };
    while let Some(name) = reader.next_key().ok()? {
        read_member(&mut node, links, reader, packages, name)?;
    }
    Some(node)
}

// Lets go what the package with this ID declares.
fn let_go(
    alloc: Global,
    packages: &mut [Package<'_>],
    positions: &IndexMap<String, usize>,
    id: &str,
)
    ensures { AllZip IsSlimPackage packages.old packages.new }
{
    let Some(position) = positions.get(id) else {
        return;
    };
    let position = *position;
    if position < packages.len() {
        let package = &mut packages[position];
        package.declared = Vec::new(alloc);
    }
}

/// Adds the links of the node that comes next. Lets go what its package declares.
pub(crate) fn read_node(
    links: &mut LinkBuffer,
    reader: &mut Reader<'_>,
    packages: &mut [Package<'_>],
    positions: &IndexMap<String, usize>,
) -> Option<()>
    requires { ArePositions packages.old positions.now }
    ensures links { OnSome result ((told : Json) × (value 125 reader.old ≡ Some (told, reader.new))
        × (row : List LinkRecord) × (links_in links.new ≡ links_in links.old ++ row)
        × AreLinksOf packages.old told row) }
    ensures left { OnSome result (AllZip IsSlimPackage packages.old packages.new) }
{
    let known = Packages {
        packages: &*packages,
        positions,
    };
    let node = read_members(links, reader, known)?;
    if !node.has_links {
        return None;
    }
    let_go(links.allocator(), packages, positions, node.from?);
    Some(())
}
