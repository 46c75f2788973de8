//! What a choice means to Cargo.
ghost use Rattle.std.specs.Prelude.{◌<◌, All, IfErr, IfOk, length, map};
ghost use Rattle.std.specs.List.{AllZip};
ghost use Rattle.guppy_data.specs.NamedFeature.{IsFeature};
ghost use Rattle.guppy_built.specs.Asked.{AreChosen, IsAsked, IsChoiceFault, choice_of};

use crate::fault::BuiltFault;
use crate::question::BuildQuestion;
use guppy_data::NamedFeatureDep;
use guppy_features::{CargoOptions, initials_for};
use guppy_graph::RecordGraph;
use std::alloc::{AllocError, Global};

// What the texts of features name.
fn values_of(alloc: Global, texts: &[&str]) -> Result<Vec<NamedFeatureDep>, AllocError>
    ensures { IfOk result (λ values. AllZip IsFeature (map (λ text. text.now) texts.now) values.items) }
{
    let mut values = Vec::with_capacity(alloc, texts.len())?;
    for text in texts {
        values.push(NamedFeatureDep::from_text(alloc, text)?)?;
    }
    Ok(values)
}

/// What Cargo is asked, of the chosen members at these positions.
pub(crate) fn options_of<'p>(
    alloc: Global,
    graph: &RecordGraph,
    question: &BuildQuestion<'_, 'p>,
    members: &[usize],
) -> Result<CargoOptions<'p>, BuiltFault<'p>>
    requires members { AreChosen graph.now question.now.members.now members.now }
    requires within { All (λ p. p < length graph.now.packages) members.now }
    ensures ok { IfOk result (λ options. IsAsked graph.now (choice_of question.now) options members.now) }
    ensures within { IfOk result
        (λ options. All (λ i. i.position < length graph.now.packages) options.initials.items) }
    ensures err { IfErr result (IsChoiceFault graph.now (choice_of question.now)) }
{
    let values = values_of(alloc, question.features)?;
    let initials = initials_for(
        graph,
        members,
        values.as_slice(),
        question.standard,
        question.resolver,
    )?;
    Ok(CargoOptions {
        initials,
        tests: question.tests,
        target_platform: question.target_platform,
        host_platform: question.host_platform,
        resolver: question.resolver,
    })
}
