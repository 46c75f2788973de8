//! The texts of links, written while they are read, so that not all links need stand in memory.
ghost use Rattle.std.specs.Prelude.{◌≡◌, ◌++◌, List, IfOk, string_bytes};
ghost use Rattle.guppy_data.specs.declared.records.LinkRecord.{LinkRecord};
ghost use Rattle.guppy_wire.specs.Link.{AreTexts, link_text};
ghost use Rattle.guppy_wire.specs.Parts.{listed};

use crate::link::push_link;
use crate::parts::push_count;
use guppy_data::LinkRecord;
use guppy_metadata::{LinkBuffer, LinkSink};
use std::alloc::{AllocError, Global};

// How long the texts are at most where so many dependencies are declared, and IDs and paths are as long as in most
// workspaces. They are most of all that is written, and would else be moved as they grow.
fn likely_len(declared: usize) -> usize {
    declared.saturating_mul(1 << 9)
}

/// The texts of links, one behind the other, and how many they are.
#[derive(Drop)]
pub struct LinkTexts {
    count: usize,
    texts: String,
    // those of the last link
    details: String,
}

impl LinkTexts {
    ghost use Rattle.std.specs.Prelude.{◌++◌, List, OnOk};
    ghost use Rattle.guppy_data.specs.declared.records.LinkRecord.{LinkRecord};
    ghost use Rattle.guppy_wire.specs.Link.{AreTexts};

    /// Adds the texts of these links.
    pub(crate) fn push(&mut self, links: &[LinkRecord]) -> Result<(), AllocError>
        ensures { OnOk result ((before : List LinkRecord) → AreTexts self.old before
            → AreTexts self.new (before ++ links.now)) }
    {
        self.count = self.count.checked_add(links.len()).ok_or(AllocError)?;
        let alloc = *self.texts.allocator();
        for link in links {
            push_link(alloc, &mut self.texts, &mut self.details, link)?;
        }
        Ok(())
    }
}

impl LinkSink for LinkTexts {
    ghost use Rattle.guppy_wire.specs.Link.{AreTexts};

    ghost took = { AreTexts };

    fn new(alloc: Global, declared: usize) -> Result<Self, AllocError> {
        Ok(LinkTexts {
            count: 0,
            texts: String::with_capacity(alloc, likely_len(declared))?,
            details: String::new(alloc),
        })
    }

    fn room(_declared: usize) -> usize {
        0
    }

    fn take(&mut self, links: &mut LinkBuffer) -> Result<(), AllocError> {
        self.push(links.as_slice())?;
        links.clear();
        Ok(())
    }
}

/// Adds the number of the links, and gives their texts, which stand behind it.
pub(crate) fn push_links(text: &mut String, links: LinkTexts) -> Result<String, AllocError>
    ensures { IfOk result (λ texts. (all : List LinkRecord) → AreTexts links all
        → string_bytes text.new ++ string_bytes texts ≡ string_bytes text.old ++ listed link_text all) }
{
    push_count(text, links.count)?;
    Ok(links.texts)
}
