//! Links in memory that is used again.
ghost use Rattle.std.specs.Prelude.{◌≡◌, ◌<◌, ◌≤◌, length, map, take, string_bytes, IfOk, OnOk};
ghost use Rattle.semver.specs.Identifiers.{comparator_view};
ghost use Rattle.guppy_data.specs.Platform.{Never};
ghost use Rattle.guppy_data.specs.Records.{IsAskedFor, IsRequired};
ghost use Rattle.guppy_metadata.specs.Links.{IsBareLink};

use crate::fits::Wanted;
use crate::gathered::add_fitting;
use crate::types::{Declared, Resolved};
use guppy_data::{DepRequiredOrOptional, DependencyReqImpl, LinkRecord, PackageId};
use semver::VersionReq;
use std::alloc::{AllocError, Global};

// A record whose memory is to be used. Takes none.
fn empty_link(alloc: Global) -> LinkRecord {
    LinkRecord::new(
        alloc,
        PackageId::new(String::new(alloc)),
        PackageId::new(String::new(alloc)),
        String::new(alloc),
        String::new(alloc),
        VersionReq::star(alloc),
    )
}

// Has a record stand behind the first of these.
fn make_room(records: &mut Vec<LinkRecord>, alloc: Global, len: usize) -> Result<(), AllocError>
    requires { len ≤ length records.old.items }
    ensures room { OnOk result (len < length records.new.items) }
    ensures longer { length records.old.items ≤ length records.new.items }
    ensures first { take len records.new.items ≡ take len records.old.items }
{
    if len == records.len() {
        records.push(empty_link(alloc))?;
    }
    Ok(())
}

// Writes a text in place of another one.
fn set_text(text: &mut String, wanted: &str) -> Result<(), AllocError>
    ensures { OnOk result (string_bytes text.new ≡ wanted.now) }
{
    text.clear();
    text.push_str(wanted)
}

fn copied_requirement(requirement: &VersionReq) -> Result<VersionReq, AllocError>
    ensures { IfOk result (λ copy. map comparator_view copy.comparators.items
        ≡ map comparator_view requirement.now.comparators.items) }
{
    Ok(requirement.clone()?)
}

// Has a side be one that is asked for nowhere, with no features. Most are.
fn clear_side(side: &mut DepRequiredOrOptional, alloc: Global)
    ensures { IsAskedFor Never side.new }
{
    let is_clear = side.build_if.is_never()
        && side.default_features_if.is_never()
        && side.no_default_features_if.is_never()
        && side.feature_targets.is_empty();
    if !is_clear {
        *side = DepRequiredOrOptional::never(alloc);
    }
}

fn clear_section(section: &mut DependencyReqImpl, alloc: Global)
    ensures { IsRequired Never section.new }
{
    clear_side(&mut section.required, alloc);
    clear_side(&mut section.optional, alloc);
}

// Writes over a record the link from this ID that was resolved so, with this name in the manifest and this requirement,
// which is asked for in no section.
fn set_bare(
    link: &mut LinkRecord,
    alloc: Global,
    from: &str,
    resolved: &Resolved<'_>,
    dep_name: &str,
    requirement: &VersionReq,
) -> Result<(), AllocError>
    ensures { OnOk result (IsBareLink from.now resolved.now dep_name.now requirement.now link.new) }
{
    link.from = PackageId::new(String::from_str(alloc, from)?);
    link.to = PackageId::new(String::from_str(alloc, resolved.id)?);
    set_text(&mut link.dep_name, dep_name)?;
    set_text(&mut link.resolved_name, resolved.name)?;
    link.version_req = copied_requirement(requirement)?;
    link.registry = None;
    link.path = None;
    clear_section(&mut link.normal, alloc);
    clear_section(&mut link.build, alloc);
    clear_section(&mut link.dev, alloc);
    Ok(())
}

/// Links, in their order: the first of its records. The others were let go, and the next links are written over these.
#[derive(Drop)]
pub struct LinkBuffer {
    records: Vec<LinkRecord>,
    len: usize,
    ghost within: { len ≤ length records.items },
}

impl LinkBuffer {
    ghost use Rattle.std.specs.Prelude.{◌≡◌, ◌++◌, ◌∷◌, [], true, filter, slice_get, Some, IfOk, OnOk, IfSome};
    ghost use Rattle.guppy_data.specs.declared.records.LinkRecord.{LinkRecord};
    ghost use Rattle.guppy_metadata.specs.Buffer.{links_in};
    ghost use Rattle.guppy_metadata.specs.Fits.{fits};
    ghost use Rattle.guppy_metadata.specs.Gathered.{IsLinkOf};
    ghost use Rattle.guppy_metadata.specs.Links.{Joins, IsUnasked};

    // No links, with room for so many.
    pub(crate) fn with_capacity(alloc: Global, room: usize) -> Result<Self, AllocError>
        ensures { IfOk result (λ links. links_in links ≡ []) }
    {
        Ok(LinkBuffer {
            records: Vec::with_capacity(alloc, room)?,
            len: 0,
        })
    }

    // What the links are taken from.
    pub(crate) fn allocator(&self) -> Global {
        *self.records.allocator()
    }

    /// The links. Constant time.
    pub fn as_slice(&self) -> &[LinkRecord]
        ensures { result.now ≡ links_in self.now }
    {
        &self.records[..self.len]
    }

    /// Lets the links go, and keeps their memory for the next. Constant time.
    pub fn clear(&mut self)
        ensures { links_in self.new ≡ [] }
    {
        self.len = 0;
    }

    // The links, without the records behind them.
    pub(crate) fn into_vec(self) -> Vec<LinkRecord>
        ensures { result.items ≡ links_in self }
    {
        let LinkBuffer { mut records, len } = self;
        records.truncate(len);
        records.shrink_to_fit();
        records
    }

    // Adds the link that is named as the first of these declared dependencies, and gathered from those that were resolved
    // to the package, as the first one was.
    pub(crate) fn push_asked(
        &mut self,
        first: &Declared<'_>,
        declared: &[Declared<'_>],
        wanted: &Wanted<'_, '_, '_>,
    ) -> Result<(), AllocError>
        requires first { slice_get declared.now 0 ≡ Some first.now }
        requires fitting { IfSome (slice_get declared.now 0)
            (λ first. fits wanted.now.asking.now wanted.now.resolved.now wanted.now.needed.now first ≡ true) }
        ensures { OnOk result ((link : LinkRecord) × (links_in self.new ≡ links_in self.old ++ link ∷ [])
            × Joins wanted.now.from.now wanted.now.resolved.now.id.now wanted.now.resolved.now.name.now link
            × IsLinkOf (filter (fits wanted.now.asking.now wanted.now.resolved.now wanted.now.needed.now) declared.now)
            link) }
    {
        let alloc = self.allocator();
        make_room(&mut self.records, alloc, self.len)?;
        let link = &mut self.records[self.len];
        set_bare(
            link,
            alloc,
            wanted.from,
            wanted.resolved,
            first.dep_name(),
            &first.requirement,
        )?;
        add_fitting(alloc, link, declared, wanted)?;
        self.len += 1;
        Ok(())
    }

    // Adds the link that is asked for in no section.
    pub(crate) fn push_unasked(
        &mut self,
        from: &str,
        resolved: &Resolved<'_>,
    ) -> Result<(), AllocError>
        ensures { OnOk result ((link : LinkRecord) × (links_in self.new ≡ links_in self.old ++ link ∷ [])
            × Joins from.now resolved.now.id.now resolved.now.name.now link × IsUnasked resolved.now.name.now link) }
    {
        let alloc = self.allocator();
        make_room(&mut self.records, alloc, self.len)?;
        let link = &mut self.records[self.len];
        let any = VersionReq::star(alloc);
        set_bare(link, alloc, from, resolved, resolved.name, &any)?;
        self.len += 1;
        Ok(())
    }
}
