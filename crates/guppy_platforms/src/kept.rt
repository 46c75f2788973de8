//! The links that are left on some platforms, each with the sections that count alone.
ghost use Rattle.std.specs.Prelude.{◌≡◌, List, length, OnOk, OnErr};
ghost use Rattle.std.specs.List.{AllZip, filter};
ghost use Rattle.guppy_data.specs.declared.records.LinkRecord.{LinkRecord as LinkData};
ghost use Rattle.guppy_data.specs.declared.records.PackageRecord.{PackageRecord as PackageData};
ghost use Rattle.guppy_data.specs.Platform.{question_of};
ghost use Rattle.guppy_platforms.specs.Counting.{has_section};
ghost use Rattle.guppy_platforms.specs.Kept.{IsLeftOf, IsLinkLeft, IsLeftThere, AreKept, are_named};
ghost use Rattle.guppy_platforms.specs.Host.{IsMark};

use crate::counting::{Counting, has_section};
use crate::host::marks_of;
use guppy_closure::ClosureFault;
use guppy_data::{DependencyReqImpl, LinkRecord, PackageRecord, PlatformSpec};
use guppy_target::Platform;
use std::alloc::Global;

// Leaves of the section what counts: all of it, or nothing.
fn leave(alloc: Global, counts: bool, section: &mut DependencyReqImpl)
    ensures { IsLeftOf counts section.old section.new }
{
    if !counts {
        *section = DependencyReqImpl::never(alloc);
    }
}

// Leaves of the link the sections that count.
fn leave_counting(alloc: Global, counting: Counting, link: &mut LinkRecord)
    ensures { IsLinkLeft counting link.old link.new }
{
    leave(alloc, counting.normal, &mut link.normal);
    leave(alloc, counting.build, &mut link.build);
    leave(alloc, counting.dev, &mut link.dev);
}

// Leaves of each link the sections that count, where the marks say which packages run on the host.
fn leave_all(
    alloc: Global,
    platforms: &PlatformSpec<Platform>,
    host: &PlatformSpec<Platform>,
    marks: &[bool],
    links: &mut [LinkRecord],
)
    requires { length marks.now ≡ length links.old }
    ensures { (packages : List PackageData) (all : List LinkData)
        → AllZip (IsMark packages all) links.old marks.now
        → AllZip (IsLeftThere (question_of platforms.now) (question_of host.now) packages all) links.old links.new }
{
    let mut place = 0;
    for link in links.iter_mut() {
        let runs = marks[place];
        leave_counting(alloc, Counting::of(platforms, host, runs, link), link);
        place += 1;
    }
}

// Leaves out the links without a section.
fn keep_asked_for(links: &mut Vec<LinkRecord>)
    ensures { links.new.items ≡ filter has_section links.old.items }
{
    links.retain(|link| has_section(link));
}

/// Whether platforms are named. Takes constant time, and no memory.
pub fn are_named(platforms: &PlatformSpec<Platform>) -> bool
    ensures { result ≡ are_named (question_of platforms.now) }
{
    match platforms {
        PlatformSpec::Any => false,
        _ => true,
    }
}

/// Leaves out what doesn't count on one of these platforms or, of what runs on the host, there: each section that is off on
/// all of them, and each link of which no section is left. What isn't known counts. Where no platforms are named, all
/// stays; where the host isn't, each section that is judged there does.
///
/// A package runs on the host if it is a procedural macro, if one asks for it to build, or if one that runs there depends
/// on it. Its sections are judged on the host, too, and so is the build section of any package.
///
/// Asks once for each text of a section and platform, and twice for those of build sections and of what runs on the host.
/// Beside this, time grows with the packages and links, times the logarithm of how many there are; takes memory for some
/// numbers each. Fails only where there is none, or where there are 2^30 packages and links or more; then all links are
/// as they were.
pub fn keep_counting(
    alloc: Global,
    platforms: &PlatformSpec<Platform>,
    host: &PlatformSpec<Platform>,
    packages: &[PackageRecord],
    links: &mut Vec<LinkRecord>,
) -> Result<(), ClosureFault>
    ensures kept { OnOk result (AreKept (question_of platforms.now) (question_of host.now) packages.now
        links.old.items links.new.items) }
    ensures unchanged { OnErr result (links.new ≡ links.old) }
{
    if let PlatformSpec::Any = platforms {
        return Ok(());
    }
    let marks = marks_of(alloc, packages, links.as_slice())?;
    leave_all(
        alloc,
        platforms,
        host,
        marks.as_slice(),
        links.as_mut_slice(),
    );
    keep_asked_for(links);
    Ok(())
}
