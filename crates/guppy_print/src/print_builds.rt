//! How it is printed what Cargo builds, and why a feature is on.
ghost use Rattle.std.specs.Prelude.{◌≡◌, ◌++◌, List, codes, map, string_bytes, IfOk, OnOk, if◌then◌else◌};
ghost use Rattle.std.specs.List.{flat_map};
ghost use Rattle.guppy_built.specs.Features.{feature_shown};
ghost use Rattle.guppy_built.specs.Names.{fact_shown, said_shown, step_shown};
ghost use Rattle.guppy_built.specs.Rows.{row_of};
ghost use Rattle.guppy_command.specs.Printed.{line_end, line_of, lines_of};
ghost use Rattle.guppy_data.specs.declared.records.PackageRecord.{PackageRecord};
ghost use Rattle.guppy_print.specs.BuildLines.{fact_text, feature_text, grounds_text, row_text, said_text, side_text, step_text};
ghost use Rattle.guppy_print.specs.Printed.{called};

use crate::format::Format;
use crate::print::{text_of, texts_of};
use guppy_built::{BuiltPackage, FactName, FeatureOn, NamedFact, NamedReason};
use guppy_command::Options;
use guppy_command::print::line_end;
use guppy_features::BuildPlatform;
use std::alloc::{AllocError, Global};

// Adds these words, each behind a space.
fn push_words(text: &mut String, words: &[&str]) -> Result<(), AllocError>
    ensures { OnOk result (string_bytes text.new ≡ string_bytes text.old
        ++ flat_map (λ word. codes " " ++ word.now) words.now) }
{
    for word in words {
        text.push(' ')?;
        text.push_str(word)?;
    }
    Ok(())
}

/// What is built, a package on a platform a line: what the package is called, the platform, and the features.
pub(crate) fn lines_of_built<F: Format>(
    alloc: Global,
    options: &Options,
    names: &F::Names,
    rows: &[BuiltPackage<'_>],
) -> Result<String, AllocError>
    ensures { (packages : List PackageRecord) → F.are_names names.now packages
        → IfOk result (λ text. string_bytes text
        ≡ lines_of (line_end options.now) (map (row_text (called options.now (F.format.text packages))) (map row_of rows.now))) }
{
    let mut text = String::new(alloc);
    for row in rows {
        text.push_str(text_of::<F>(options, names, row.id))?;
        text.push(' ')?;
        text.push_str(row.platform)?;
        push_words(&mut text, row.features.as_slice())?;
        text.push_str(line_end(options))?;
    }
    Ok(text)
}

pub(crate) fn side_text(side: BuildPlatform) -> &'static str
    ensures { result.now ≡ side_text side }
{
    match side {
        BuildPlatform::Target => "target",
        BuildPlatform::Host => "host",
    }
}

/// Features that are on, one a line: its name, the side, and what the packages are called that ask for it.
pub(crate) fn lines_of_features<F: Format>(
    alloc: Global,
    options: &Options,
    names: &F::Names,
    rows: &[FeatureOn<'_>],
) -> Result<String, AllocError>
    ensures { (packages : List PackageRecord) → F.are_names names.now packages
        → IfOk result (λ text. string_bytes text
        ≡ lines_of (line_end options.now) (map (feature_text (called options.now (F.format.text packages))) (map feature_shown rows.now))) }
{
    let mut text = String::new(alloc);
    for row in rows {
        text.push_str(row.name)?;
        text.push(' ')?;
        text.push_str(side_text(row.side))?;
        let askers = texts_of::<F>(alloc, options, names, row.askers.as_slice())?;
        push_words(&mut text, askers.as_slice())?;
        text.push_str(line_end(options))?;
    }
    Ok(text)
}

// Adds what is said of the package.
fn push_said(text: &mut String, name: FactName<'_>) -> Result<(), AllocError>
    ensures { OnOk result (string_bytes text.new ≡ string_bytes text.old ++ said_text (said_shown name.entry)) }
{
    match name {
        FactName::Part => Ok(()),
        FactName::Dependency(name) => {
            text.push_str(" dep:")?;
            text.push_str(name)
        }
        FactName::Feature(name) => {
            text.push(' ')?;
            text.push_str(name)
        }
    }
}

// Adds the fact.
fn push_fact<F: Format>(
    text: &mut String,
    options: &Options,
    names: &F::Names,
    fact: &NamedFact<'_>,
) -> Result<(), AllocError>
    ensures { (packages : List PackageRecord) → F.are_names names.now packages
        → OnOk result (string_bytes text.new ≡ string_bytes text.old
        ++ fact_text (called options.now (F.format.text packages)) (fact_shown fact.now)) }
{
    text.push_str(text_of::<F>(options, names, fact.id))?;
    text.push(' ')?;
    text.push_str(side_text(fact.side))?;
    push_said(text, fact.name)
}

// Adds the facts that the step's follows from.
fn push_grounds<F: Format>(
    text: &mut String,
    options: &Options,
    names: &F::Names,
    step: &NamedReason<'_>,
) -> Result<(), AllocError>
    ensures { (packages : List PackageRecord) → F.are_names names.now packages
        → OnOk result (string_bytes text.new ≡ string_bytes text.old
        ++ grounds_text (called options.now (F.format.text packages)) (step_shown step.now).grounds) }
{
    let mut word = " for ";
    if let Some(fact) = &step.first {
        text.push_str(word)?;
        push_fact::<F>(text, options, names, fact)?;
        word = " and ";
    }
    if let Some(fact) = &step.second {
        text.push_str(word)?;
        push_fact::<F>(text, options, names, fact)?;
    }
    Ok(())
}

/// Why a feature is on, a step a line: a fact, and for which others it holds.
pub(crate) fn lines_of_reasons<F: Format>(
    alloc: Global,
    options: &Options,
    names: &F::Names,
    steps: &[NamedReason<'_>],
) -> Result<String, AllocError>
    ensures { (packages : List PackageRecord) → F.are_names names.now packages
        → IfOk result (λ text. string_bytes text
        ≡ lines_of (line_end options.now) (map (step_text (called options.now (F.format.text packages))) (map step_shown steps.now))) }
{
    let mut text = String::new(alloc);
    for step in steps {
        push_fact::<F>(&mut text, options, names, &step.fact)?;
        push_grounds::<F>(&mut text, options, names, step)?;
        text.push_str(line_end(options))?;
    }
    Ok(text)
}
