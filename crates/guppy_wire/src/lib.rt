//! Records as one text, for callers in other languages: each part tells how long it is, so it is read from its front
//! to its end in one go.
//!
//! - `parts`: fields, options and lists;
//! - `package`, `link`: the text of a package and of a link;
//! - `details`: the details of packages, `links`: the texts of links, written while they are read;
//! - `text`: the text of records, in parts.
#![tactic(auto)]

ghost use Rattle.std.specs.Prelude.{List, IfOk};
ghost use Rattle.guppy_data.specs.declared.records.LinkRecord.{LinkRecord};
ghost use Rattle.guppy_data.specs.declared.records.PackageRecord.{PackageRecord};
ghost use Rattle.guppy_metadata.specs.Sink.{AreRead, AreReadPackages};
ghost use Rattle.guppy_wire.specs.Link.{AreTexts};
ghost use Rattle.guppy_wire.specs.Wire.{AreTold, HasDetails, text_in, workspace_text};

mod details;
mod link;
mod links;
mod package;
mod parts;
mod text;

use crate::links::push_links;
use crate::parts::{Tell, push_field, push_list, push_optional};
pub use details::DetailTexts;
use guppy_data::WorkspaceRecord;
use guppy_metadata::{ReadLinks, ReadPackages, ReadRecords};
pub use links::LinkTexts;
use std::alloc::{AllocError, Global};
pub use text::RecordsText;

impl Tell for WorkspaceRecord {
    ghost told = { workspace_text };

    fn tell(&self, alloc: Global, text: &mut String) -> Result<(), AllocError> {
        self.root.tell(alloc, text)?;
        self.target_directory.tell(alloc, text)?;
        push_optional(alloc, text, &self.build_directory)?;
        push_list(alloc, text, self.default_members.as_slice())
    }
}

// How long the text of so many packages is at most, without details, where IDs and paths are as long as in most
// workspaces.
fn likely_len(packages: usize) -> usize {
    packages.saturating_mul(1 << 10)
}

/// The records as one text: all that they tell of the workspace, its packages and links, as `AreTold` has it. What of a
/// package or link isn't among the first that a reader asks for is one field, which can be read later.
///
/// Takes memory for the text, at first a kilobyte a package, and fails only where there is none. Time grows with the
/// text, and stack with how deep the workspace's table nests.
pub fn records_text(
    alloc: Global,
    records: ReadRecords<DetailTexts, LinkTexts>,
) -> Result<RecordsText, AllocError>
    ensures { IfOk result (λ text. (packages : List PackageRecord) (links : List LinkRecord)
        → AreReadPackages HasDetails records.packages packages → AreRead AreTexts records.links links
        → AreTold packages links records.workspace (text_in text)) }
{
    let ReadRecords {
        packages,
        links,
        workspace,
    } = records;
    let ReadLinks { sink, left } = links;
    let mut links = sink;
    links.push(left.as_slice())?;
    let ReadPackages {
        sink: details,
        left: packages,
    } = packages;
    let mut front = String::with_capacity(alloc, likely_len(packages.len()))?;
    workspace.tell(alloc, &mut front)?;
    let table = workspace.metadata_table.to_string(alloc)?;
    push_field(&mut front, table.as_str())?;
    push_list(alloc, &mut front, packages.as_slice())?;
    let links = push_links(&mut front, links)?;
    Ok(RecordsText {
        front,
        links,
        details: details.into_text(),
    })
}
