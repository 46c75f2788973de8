//! What takes links, and details of packages, while they are read.
ghost use Rattle.std.specs.Prelude.{◌≡◌, ◌++◌, ◌∷◌, [], List, IfOk, OnOk};
ghost use Rattle.guppy_data.specs.declared.records.LinkRecord.{LinkRecord};
ghost use Rattle.guppy_data.specs.declared.records.PackageRecord.{PackageRecord};
ghost use Rattle.guppy_metadata.specs.Buffer.{links_in};
ghost use Rattle.guppy_metadata.specs.Sink.{AreReadPackages, IsShort};

use crate::link_buffer::LinkBuffer;
use guppy_data::{LinkRecord, PackageRecord, Records, WorkspaceRecord};
use std::alloc::{AllocError, Global};

/// What takes links while they are read, in their order, so that not all need stand in memory at once.
pub trait LinkSink: Drop {
    /// Whether it took these links, in their order.
    ghost took: { Self → List LinkRecord → Type 0 };

    /// A sink that took none. Packages declare so many dependencies, so that it can take memory at once.
    fn new(alloc: Global, declared: usize) -> Result<Self, AllocError>
        ensures { IfOk result (λ sink. took sink []) };

    /// How many links are to have room before the first is read, where packages declare so many dependencies.
    fn room(declared: usize) -> usize;

    /// Takes the first of these links, which are those that were read since, or none of them.
    fn take(&mut self, links: &mut LinkBuffer) -> Result<(), AllocError>
        ensures { OnOk result ((before : List LinkRecord) → took self.old before
            → (more : List LinkRecord) × took self.new (before ++ more)
            × (links_in links.old ≡ more ++ links_in links.new)) };
}

/// What takes the details of packages while they are read, in the packages' order, so that not all need stand in memory
/// at once.
pub trait PackageSink: Drop {
    /// Whether it was shown the first of these records, in their order, and left the second of them.
    ghost took: { Self → List PackageRecord → List PackageRecord → Type 0 };

    /// A sink that was shown none.
    fn new(alloc: Global) -> Self
        ensures { took result [] [] };

    /// Takes details of the package, or leaves them.
    fn take(&mut self, package: &mut PackageRecord) -> Result<(), AllocError>
        ensures took { OnOk result ((whole left : List PackageRecord) → took self.old whole left
            → took self.new (whole ++ «package».old ∷ []) (left ++ «package».new ∷ [])) }
        ensures short { OnOk result (IsShort «package».old «package».new) };
}

/// A sink that leaves all links, and all details.
#[derive(Drop)]
pub struct NoSink;

impl LinkSink for NoSink {
    ghost use Rattle.std.specs.Prelude.{◌≡◌, []};

    ghost took = { λ _ links. links ≡ [] };

    fn new(_alloc: Global, _declared: usize) -> Result<Self, AllocError> {
        Ok(NoSink)
    }

    fn room(declared: usize) -> usize {
        declared
    }

    fn take(&mut self, _links: &mut LinkBuffer) -> Result<(), AllocError> {
        Ok(())
    }
}

impl PackageSink for NoSink {
    ghost use Rattle.std.specs.Prelude.{◌≡◌};

    ghost took = { λ _ whole left. whole ≡ left };

    fn new(_alloc: Global) -> Self {
        NoSink
    }

    fn take(&mut self, _package: &mut PackageRecord) -> Result<(), AllocError> {
        Ok(())
    }
}

/// Packages that were read.
#[derive(Drop)]
pub struct ReadPackages<P: PackageSink> {
    /// What took details of them.
    pub sink: P,
    /// What it left.
    pub left: Vec<PackageRecord>,
}

/// Links that were read.
#[derive(Drop)]
pub struct ReadLinks<S: LinkSink> {
    /// What took the first of them.
    pub sink: S,
    /// Those behind, which it left.
    pub left: Vec<LinkRecord>,
}

/// Records that were read.
#[derive(Drop)]
pub struct ReadRecords<P: PackageSink, S: LinkSink> {
    /// The packages.
    pub packages: ReadPackages<P>,
    /// The links.
    pub links: ReadLinks<S>,
    /// The workspace.
    pub workspace: WorkspaceRecord,
}

// These packages, of which a sink is shown each.
fn shown<P: PackageSink>(
    alloc: Global,
    packages: Vec<PackageRecord>,
) -> Result<ReadPackages<P>, AllocError>
    ensures { IfOk result (λ read. AreReadPackages P.took read packages.items) }
{
    let mut sink = P::new(alloc);
    let mut left = Vec::with_capacity(alloc, packages.len())?;
    for package in packages {
        let mut package = package;
        sink.take(&mut package)?;
        left.push(package)?;
    }
    Ok(ReadPackages { sink, left })
}

impl<P: PackageSink, S: LinkSink> ReadRecords<P, S> {
    ghost use Rattle.std.specs.Prelude.{◌≡◌, IfOk};
    ghost use Rattle.guppy_metadata.specs.Sink.{AreRead, AreReadPackages};

    // These records, of which one sink is shown the packages, and the other took no links.
    pub(crate) fn left(alloc: Global, records: Records) -> Result<Self, AllocError>
        ensures packages { IfOk result (λ r. AreReadPackages P.took r.packages records.packages.items) }
        ensures links { IfOk result (λ r. AreRead S.took r.links records.links.items) }
        ensures workspace { IfOk result (λ r. r.workspace ≡ records.workspace) }
    {
        let sink = S::new(alloc, 0)?;
        let Records {
            packages,
            links,
            workspace,
        } = records;
        Ok(ReadRecords {
            packages: shown(alloc, packages)?,
            links: ReadLinks { sink, left: links },
            workspace,
        })
    }
}
