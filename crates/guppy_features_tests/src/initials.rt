//! Which members are chosen, and what each package is asked for.
ghost use Rattle.std.specs.Prelude.{◌<◌, length, All, IfOk};

use crate::words::Words;
use anyhow::bail;
use guppy_features::{ChosenFault, Initial, initials_for};
use guppy_graph::RecordGraph;

/// What each package is asked for.
pub fn initials_of(graph: &RecordGraph, words: &Words) -> anyhow::Result<Vec<Initial>>
    ensures { IfOk result
        (λ initials. All (λ i. i.position < length graph.now.packages) initials.items) }
{
    let members = members_of(graph, words)?;
    let features = words.features.as_slice();
    let asked = initials_for(
        graph,
        members.as_slice(),
        features,
        words.standard,
        words.resolver,
    );
    match asked {
        Ok(initials) => Ok(initials),
        Err(ChosenFault::UnknownFeature(place)) => bail!("no package has feature {place}"),
        Err(ChosenFault::OutOfMemory) => bail!("there is no memory"),
    }
}

/// The positions of the chosen members.
pub fn members_of(graph: &RecordGraph, words: &Words) -> anyhow::Result<Vec<usize>>
    ensures { IfOk result (λ members. All (λ p. p < length graph.now.packages) members.items) }
{
    let mut members = Vec::new(graph.alloc());
    for name in &words.members {
        members.push(member_of(graph, name.as_str())?)?;
    }
    Ok(members)
}

// The position of the member of this name.
fn member_of(graph: &RecordGraph, name: &str) -> anyhow::Result<usize>
    ensures { IfOk result (λ position. position < length graph.now.packages) }
{
    let Some(position) = graph.position_of_name(name) else {
        bail!("no member is called so");
    };
    Ok(position)
}
