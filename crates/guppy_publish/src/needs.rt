//! The links by which packages need each other to be published.
ghost use Rattle.std.specs.Prelude.{◌≡◌, ◌↔◌, ◌<◌, ◌≤◌, IfOk, IfSome, OnOk, IsTrue, is_some, Contains, length, map};
ghost use Rattle.std.specs.List.{AllZip};
ghost use Rattle.guppy_publish.specs.Needs.{pair_texts, ends, IsLinked, IsMadeFirm, IsNeedOf, IsNeed, IsLinkedFor, AreAdded, AreNeeds};

use guppy::{PackageId, VersionReq};
use guppy_data::{DependencyReqImpl, LinkRecord};
use guppy_graph::is_dev_only;
use std::alloc::{AllocError, Global};

// Whether the pair is that of the two packages.
fn is_pair(pair: &(String, String), from: &str, to: &str) -> bool
    ensures { IsTrue result ↔ (pair_texts pair.now ≡ (from.now, to.now)) }
{
    pair.0.as_str() == from && pair.1.as_str() == to
}

// Whether the one package is declared to depend on the other.
fn is_declared(declared: &[(String, String)], from: &str, to: &str) -> bool
    ensures { IsTrue result ↔ Contains (map pair_texts declared.now) (from.now, to.now) }
{
    for pair in declared {
        if is_pair(pair, from, to) {
            return true;
        }
    }
    false
}

// Whether the link goes from the one package to the other.
fn leads(link: &LinkRecord, from: &str, to: &str) -> bool
    ensures { IsTrue result ↔ (ends link.now ≡ (from.now, to.now)) }
{
    link.from.repr() == from && link.to.repr() == to
}

// The place of the first of the links that goes from the one package to the other, where one does.
fn place_of(links: &[LinkRecord], from: &str, to: &str) -> Option<usize>
    ensures linked { IsTrue (is_some result) ↔ IsLinked links.now (from.now, to.now) }
    ensures within { IfSome result (λ place. place < length links.now) }
{
    for place in 0..links.len() {
        if leads(&links[place], from, to) {
            return Some(place);
        }
    }
    None
}

// The place of a link that goes from the one package to the other, where one does: the first of those from `start` on, or
// else the first.
fn place_near(links: &[LinkRecord], start: usize, from: &str, to: &str) -> Option<usize>
    requires { start ≤ length links.now }
    ensures linked { IsTrue (is_some result) ↔ IsLinked links.now (from.now, to.now) }
    ensures within { IfSome result (λ place. place < length links.now) }
{
    match place_of(&links[start..], from, to) {
        Some(steps) => Some(start + steps),
        None => place_of(links, from, to),
    }
}

// Makes the link a required one, if it is dev-only and declared otherwise, too.
fn make_firm(alloc: Global, declared: &[(String, String)], link: &mut LinkRecord)
    ensures { IsNeedOf (map pair_texts declared.now) link.old link.new }
{
    if is_dev_only(link) && is_declared(declared, link.from.repr(), link.to.repr()) {
        link.normal = DependencyReqImpl::required(alloc);
    }
}

// Makes required ones of the links that are dev-only and declared otherwise, too.
fn make_all_firm(alloc: Global, declared: &[(String, String)], links: &mut [LinkRecord])
    ensures { AllZip (IsNeedOf (map pair_texts declared.now)) links.old links.new }
{
    for link in links.iter_mut() {
        make_firm(alloc, declared, link);
    }
}

// The link from the one package to the other.
fn need_of(alloc: Global, from: &str, to: &str) -> Result<LinkRecord, AllocError>
    ensures { IfOk result (λ r. (ends r ≡ (from.now, to.now)) × IsNeed r) }
{
    let dep_name = String::from_str(alloc, to)?;
    let resolved_name = String::from_str(alloc, to)?;
    let from = PackageId::new(String::from_str(alloc, from)?);
    let to = PackageId::new(String::from_str(alloc, to)?);
    let any = VersionReq::star(alloc);
    let mut link = LinkRecord::new(alloc, from, to, dep_name, resolved_name, any);
    link.normal = DependencyReqImpl::required(alloc);
    Ok(link)
}

// Adds a link from the one package to the other, unless there is one, and returns from where on to look for the next.
fn add_need(
    alloc: Global,
    links: &mut Vec<LinkRecord>,
    start: usize,
    from: &str,
    to: &str,
) -> Result<usize, AllocError>
    requires { start ≤ length links.old.items }
    ensures linked { OnOk result (IsLinkedFor (from.now, to.now) links.old.items links.new.items) }
    ensures within { IfOk result (λ place. place ≤ length links.new.items) }
{
    if let Some(place) = place_near(links.as_slice(), start, from, to) {
        return Ok(place);
    }
    links.push(need_of(alloc, from, to)?)?;
    Ok(start)
}

// Adds a link for each declared pair that has none. Pairs and links mostly come in the same order of packages, so the
// link of a pair is looked for from the one before it on.
fn add_needs(
    alloc: Global,
    links: &mut Vec<LinkRecord>,
    declared: &[(String, String)],
) -> Result<(), AllocError>
    ensures { OnOk result (AreAdded (map pair_texts declared.now) links.old.items links.new.items) }
{
    let mut start = 0;
    for pair in declared {
        start = add_need(alloc, &mut *links, start, pair.0.as_str(), pair.1.as_str())?;
    }
    Ok(())
}

/// Makes of the links those by which packages need each other to be published, where the one of each pair of IDs
/// declares the other: a link of a pair that is dev-only gets a normal section, too, required on all platforms, and behind
/// the links comes one for each pair that has none, required in its normal section and accepting each version. So the
/// [`publish_order`](crate::publish_order) of their graph counts what is declared. All other links stay as they are.
///
/// Takes memory for the links that are added. Time grows with the pairs and links where both come in the same order of
/// packages, as Cargo prints them, and at worst with the pairs times the links.
pub fn add_declared(
    alloc: Global,
    links: &mut Vec<LinkRecord>,
    declared: &[(String, String)],
) -> Result<(), AllocError>
    ensures { OnOk result (AreNeeds (map pair_texts declared.now) links.old.items links.new.items) }
{
    make_all_firm(alloc, declared, links.as_mut_slice());
    add_needs(alloc, links, declared)
}
