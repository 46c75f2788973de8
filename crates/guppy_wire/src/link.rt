//! The text of a link.
ghost use Rattle.std.specs.Prelude.{◌≡◌, ◌++◌, IsTrue, OnOk, string_bytes, codes};
ghost use Rattle.semver.specs.Identifiers.{pre_text};
ghost use Rattle.guppy_wire.specs.Parts.{listed};
ghost use Rattle.guppy_wire.specs.Link.{comparator_text, feature_status_text, features_text, link_details, link_text, numbers_text, op_text, open_text, requirement_text, section_details_text, section_text, status_text};

use crate::parts::{Tell, push_count, push_field, push_list, push_number, push_optional};
use guppy_data::{DepRequiredOrOptional, DependencyReqImpl, LinkRecord, PlatformStatusImpl};
use semver::{Comparator, Op};
use std::alloc::{AllocError, Global};
use std::collections::BTreeMap;

impl Tell for PlatformStatusImpl {
    ghost told = { status_text };

    fn tell(&self, alloc: Global, text: &mut String) -> Result<(), AllocError> {
        match self {
            PlatformStatusImpl::Always => text.push('*'),
            PlatformStatusImpl::Specs(specs) => push_list(alloc, text, specs),
        }
    }
}

// Adds where a dependency of one kind is required, and where it is optional.
fn push_section(
    alloc: Global,
    text: &mut String,
    section: &DependencyReqImpl,
) -> Result<(), AllocError>
    ensures { OnOk result (string_bytes text.new
        ≡ string_bytes text.old ++ section_text section.now) }
{
    section.required.build_if.tell(alloc, text)?;
    section.optional.build_if.tell(alloc, text)
}

// Adds the named features, and where each is on.
fn push_feature_statuses(
    alloc: Global,
    text: &mut String,
    features: &BTreeMap<String, PlatformStatusImpl>,
) -> Result<(), AllocError>
    ensures { OnOk result (string_bytes text.new
        ≡ string_bytes text.old ++ listed feature_status_text features.now.entries) }
{
    push_count(text, features.len())?;
    for (feature, status) in features.iter() {
        feature.tell(alloc, text)?;
        status.tell(alloc, text)?;
    }
    Ok(())
}

// Whether no features are asked for anywhere.
#[tactic(auto, using(crate::proofs::NoFeatures::no_features))]
fn asks_for_nothing(side: &DepRequiredOrOptional) -> bool
    ensures { IsTrue result → features_text side.now ≡ codes "0;0;0;" }
{
    side.default_features_if.is_never()
        && side.no_default_features_if.is_never()
        && side.feature_targets.is_empty()
}

impl Tell for DepRequiredOrOptional {
    ghost told = { features_text };

    fn tell(&self, alloc: Global, text: &mut String) -> Result<(), AllocError> {
        // A link is asked for in one section, mostly, and there either required or optional.
        if asks_for_nothing(self) {
            return text.push_str("0;0;0;");
        }
        self.default_features_if.tell(alloc, text)?;
        self.no_default_features_if.tell(alloc, text)?;
        push_feature_statuses(alloc, text, &self.feature_targets)
    }
}

// Adds with which features a dependency of one kind is required, and with which it is optional.
fn push_section_details(
    alloc: Global,
    text: &mut String,
    section: &DependencyReqImpl,
) -> Result<(), AllocError>
    ensures { OnOk result (string_bytes text.new
        ≡ string_bytes text.old ++ section_details_text section.now) }
{
    section.required.tell(alloc, text)?;
    section.optional.tell(alloc, text)
}

fn mark_of(op: Op) -> &'static str
    ensures { result.now ≡ op_text op }
{
    match op {
        Op::Exact => "=",
        Op::Greater => ">",
        Op::GreaterEq => ">=",
        Op::Less => "<",
        Op::LessEq => "<=",
        Op::Tilde => "~",
        Op::Caret => "^",
        Op::Wildcard => "",
    }
}

fn open_of(op: Op) -> &'static str
    ensures { result.now ≡ open_text op }
{
    match op {
        Op::Wildcard => ".*",
        _ => "",
    }
}

// Adds the numbers of a comparator behind its first, and its pre-release.
fn push_numbers(text: &mut String, comparator: &Comparator) -> Result<(), AllocError>
    ensures { OnOk result (string_bytes text.new ≡ string_bytes text.old
        ++ numbers_text comparator.now.op comparator.now.minor comparator.now.patch
        (pre_text comparator.now.pre)) }
{
    let Some(minor) = comparator.minor else {
        return text.push_str(open_of(comparator.op));
    };
    text.push('.')?;
    push_number(text, minor as usize)?;
    let Some(patch) = comparator.patch else {
        return text.push_str(open_of(comparator.op));
    };
    text.push('.')?;
    push_number(text, patch as usize)?;
    let pre = comparator.pre.as_str();
    if !pre.is_empty() {
        text.push('-')?;
    }
    text.push_str(pre)
}

impl Tell for Comparator {
    ghost told = { comparator_text };

    fn tell(&self, _alloc: Global, text: &mut String) -> Result<(), AllocError> {
        text.push_str(mark_of(self.op))?;
        push_number(text, self.major as usize)?;
        push_numbers(text, self)
    }
}

// Adds the versions that are asked for.
fn push_requirement(
    alloc: Global,
    text: &mut String,
    comparators: &[Comparator],
) -> Result<(), AllocError>
    ensures { OnOk result (string_bytes text.new
        ≡ string_bytes text.old ++ requirement_text comparators.now) }
{
    let [first, others @ ..] = comparators else {
        return text.push('*');
    };
    first.tell(alloc, text)?;
    for other in others {
        text.push_str(", ")?;
        other.tell(alloc, text)?;
    }
    Ok(())
}

fn push_details(alloc: Global, text: &mut String, link: &LinkRecord) -> Result<(), AllocError>
    ensures { OnOk result (string_bytes text.new
        ≡ string_bytes text.old ++ link_details link.now) }
{
    push_optional(alloc, text, &link.registry)?;
    push_optional(alloc, text, &link.path)?;
    push_section_details(alloc, text, &link.normal)?;
    push_section_details(alloc, text, &link.build)?;
    push_section_details(alloc, text, &link.dev)?;
    push_requirement(alloc, text, link.version_req.comparators.as_slice())
}

/// Adds the text of a link. Its details are put together in memory that is used again.
pub(crate) fn push_link(
    alloc: Global,
    text: &mut String,
    details: &mut String,
    link: &LinkRecord,
) -> Result<(), AllocError>
    ensures { OnOk result (string_bytes text.new ≡ string_bytes text.old ++ link_text link.now) }
{
    details.clear();
    push_details(alloc, details, link)?;
    link.from.tell(alloc, text)?;
    link.to.tell(alloc, text)?;
    link.dep_name.tell(alloc, text)?;
    link.resolved_name.tell(alloc, text)?;
    push_section(alloc, text, &link.normal)?;
    push_section(alloc, text, &link.build)?;
    push_section(alloc, text, &link.dev)?;
    push_field(text, details.as_str())
}
