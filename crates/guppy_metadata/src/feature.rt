//! Named features.
ghost use Rattle.std.specs.Prelude.{◌≡◌, ℕ, List, MatchResult};
ghost use Rattle.std.specs.List.{AllZip};
ghost use Rattle.json.specs.Value.{value_view};
ghost use Rattle.guppy_data.specs.NamedFeature.{IsFeature};
ghost use Rattle.guppy_metadata.specs.Fault.{NoneIs};
ghost use Rattle.guppy_metadata.specs.Feature.{AreFeatures};
ghost use Rattle.guppy_metadata.specs.Members.{list_of};

use crate::fault::{Kind, Misfit};
use crate::object::item_text;
use guppy_data::NamedFeatureDep;
use indexmap::IndexMap;
use json::Value;
use std::alloc::Global;

// What the texts of the list in the member of this name switch on.
fn switched_on(alloc: Global, name: &str, value: &Value<'_>) -> Result<Vec<NamedFeatureDep>, Misfit>
    ensures { MatchResult result
        (λ features. (texts : List (List ℕ)) × (value_view value.now ≡ list_of texts)
        × AllZip IsFeature texts features.items)
        (NoneIs (λ texts. value_view value.now ≡ list_of texts)) }
{
    let Value::Array(items) = value else {
        return Err(Misfit::wrong_kind(alloc, name, Kind::List));
    };
    let mut features = Vec::with_capacity(alloc, items.len())?;
    for (index, item) in items.iter().enumerate() {
        let text = item_text(alloc, name, index, item)?;
        features.push(NamedFeatureDep::from_text(alloc, text)?)?;
    }
    Ok(features)
}

/// The named features that the members of the object `features` are.
pub(crate) fn named_features(
    alloc: Global,
    value: &Value<'_>,
) -> Result<IndexMap<String, Vec<NamedFeatureDep>>, Misfit>
    ensures { MatchResult result (λ named. AreFeatures (value_view value.now) named.entries)
        (NoneIs (AreFeatures (value_view value.now))) }
{
    let Value::Object(members) = value else {
        return Err(Misfit::wrong_kind(alloc, "", Kind::Object));
    };
    let mut named = IndexMap::with_capacity(alloc, members.len())?;
    for member in members {
        let (name, value) = member;
        let features = switched_on(alloc, name, value)?;
        named.insert(String::from_str(alloc, name)?, features)?;
    }
    Ok(named)
}
