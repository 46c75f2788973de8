//! The details of packages, written while these are read, so that not those of all packages need stand in memory.
ghost use Rattle.guppy_metadata.specs.Sink.{IsShort};

use crate::package::push_details;
use crate::parts::push_field;
use guppy_data::PackageRecord;
use guppy_metadata::PackageSink;
use indexmap::{IndexMap, IndexSet};
use serde_json::Value;
use std::alloc::{AllocError, Global};

/// The details and the free tables of packages, one behind the other.
#[derive(Drop)]
pub struct DetailTexts {
    texts: String,
    // those of the last package
    details: String,
}

// Lets go the details of a package.
fn let_go(alloc: Global, package: &mut PackageRecord)
    ensures { IsShort «package».old «package».new }
{
    package.authors = Vec::new(alloc);
    package.license_file = None;
    package.categories = Vec::new(alloc);
    package.keywords = Vec::new(alloc);
    package.readme = None;
    package.homepage = None;
    package.documentation = None;
    package.metadata_table = Value::Null;
    package.links = None;
    package.default_run = None;
    package.rust_version = None;
    package.named_features = IndexMap::new(alloc);
    package.optional_deps = IndexSet::new(alloc);
    package.build_targets = Vec::new(alloc);
}

impl DetailTexts {
    ghost use Rattle.std.specs.Prelude.{◌≡◌, ◌++◌, ℕ, List, OnOk, string_bytes};
    ghost use Rattle.guppy_wire.specs.Wire.{AreDetails};

    // Adds the details of a package and its free table, a field each.
    fn push(&mut self, package: &PackageRecord) -> Result<(), AllocError>
        ensures { OnOk result ((text : List ℕ) × AreDetails «package».now text
            × (string_bytes self.new.texts ≡ string_bytes self.old.texts ++ text)) }
    {
        let alloc = *self.texts.allocator();
        self.details.clear();
        push_details(alloc, &mut self.details, package)?;
        push_field(&mut self.texts, self.details.as_str())?;
        let table = package.metadata_table.to_string(alloc)?;
        push_field(&mut self.texts, table.as_str())
    }

    /// The texts.
    pub(crate) fn into_text(self) -> String
        ensures { string_bytes result ≡ string_bytes self.texts }
    {
        self.texts
    }
}

impl PackageSink for DetailTexts {
    ghost use Rattle.guppy_wire.specs.Wire.{HasDetails};

    ghost took = { HasDetails };

    fn new(alloc: Global) -> Self {
        DetailTexts {
            texts: String::new(alloc),
            details: String::new(alloc),
        }
    }

    fn take(&mut self, package: &mut PackageRecord) -> Result<(), AllocError> {
        self.push(package)?;
        let_go(*self.texts.allocator(), package);
        Ok(())
    }
}
