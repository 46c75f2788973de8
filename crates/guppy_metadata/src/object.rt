//! The members of a JSON object. A fault's place is the one that it has from the object.
ghost use Rattle.std.specs.Prelude.{◌≡◌, ◌≢◌, ℕ, List, IfOk, MatchResult, Ok, map, option_map, slice_get, string_bytes};
ghost use Rattle.std.specs.Option.{option_copied};
ghost use Rattle.semver.specs.Identifiers.{parts_of, comparator_view};
ghost use Rattle.semver.specs.Parse.{memory_error, version_parts, req_of};
ghost use Rattle.json.specs.Json.{string};
ghost use Rattle.json.specs.Value.{value_view};
ghost use Rattle.guppy_metadata.specs.Fault.{LacksMemory, NoneIs, IsRead};
ghost use Rattle.guppy_metadata.specs.Members.{data_of, list_of};

use crate::fault::{Kind, Misfit, TextFault};
use crate::table::{TableFault, table_of};
use json::Value;
use semver::{Version, VersionReq};
use std::alloc::{AllocError, Global};

/// A JSON object, and the allocator that what is read of it is taken from.
#[derive(Clone, Copy)]
pub(crate) struct Object<'v, 'a> {
    pub(crate) alloc: Global,
    pub(crate) value: &'v Value<'a>,
}

// The text that the member of this name has.
fn text_of<'a>(alloc: Global, name: &str, value: &Value<'a>) -> Result<&'a str, Misfit>
    ensures { MatchResult result (λ text. value_view value.now ≡ string text.now)
        (NoneIs (λ text. value_view value.now ≡ string text)) }
{
    match value {
        Value::String(text) => Ok(*text),
        _ => Err(Misfit::wrong_kind(alloc, name, Kind::Text)),
    }
}

/// The text that an item of the list in the member of this name is.
pub(crate) fn item_text<'a>(
    alloc: Global,
    name: &str,
    index: usize,
    item: &Value<'a>,
) -> Result<&'a str, Misfit>
    ensures { MatchResult result (λ text. value_view item.now ≡ string text.now)
        (NoneIs (λ text. value_view item.now ≡ string text)) }
{
    match item {
        Value::String(text) => Ok(*text),
        _ => {
            let fault = Misfit::wrong_kind(alloc, "", Kind::Text);
            Err(fault.within_item(alloc, name, index))
        }
    }
}

/// The texts of the list that the member of this name has.
pub(crate) fn texts_of<'a>(
    alloc: Global,
    name: &str,
    value: &Value<'a>,
) -> Result<Vec<&'a str>, Misfit>
    ensures { MatchResult result
        (λ texts. value_view value.now ≡ list_of (map (λ text. text.now) texts.items))
        (NoneIs (λ texts. value_view value.now ≡ list_of texts)) }
{
    let Value::Array(items) = value else {
        return Err(Misfit::wrong_kind(alloc, name, Kind::List));
    };
    let mut texts = Vec::with_capacity(alloc, items.len())?;
    for (index, item) in items.iter().enumerate() {
        let text = item_text(alloc, name, index, item)?;
        texts.push(text)?;
    }
    Ok(texts)
}

// Copies of the texts of the list that the member of this name has.
fn copied_texts_of(alloc: Global, name: &str, value: &Value<'_>) -> Result<Vec<String>, Misfit>
    ensures { MatchResult result
        (λ copies. value_view value.now ≡ list_of (map string_bytes copies.items))
        (NoneIs (λ texts. value_view value.now ≡ list_of texts)) }
{
    let Value::Array(items) = value else {
        return Err(Misfit::wrong_kind(alloc, name, Kind::List));
    };
    let mut copies = Vec::with_capacity(alloc, items.len())?;
    for (index, item) in items.iter().enumerate() {
        let text = item_text(alloc, name, index, item)?;
        copies.push(String::from_str(alloc, text)?)?;
    }
    Ok(copies)
}

// The first text of the list that the member of this name has, where it has any.
fn first_text_of<'a>(
    alloc: Global,
    name: &str,
    value: &Value<'a>,
) -> Result<Option<&'a str>, Misfit>
    ensures { MatchResult result
        (λ first. (texts : List (List ℕ)) × (value_view value.now ≡ list_of texts)
        × (slice_get texts 0 ≡ option_copied first))
        (NoneIs (λ texts. value_view value.now ≡ list_of texts)) }
{
    let Value::Array(items) = value else {
        return Err(Misfit::wrong_kind(alloc, name, Kind::List));
    };
    let mut first = None;
    for (index, item) in items.iter().enumerate() {
        let text = item_text(alloc, name, index, item)?;
        first = first.or(Some(text));
    }
    Ok(first)
}

/// A copy of a text, where there is one.
pub(crate) fn optional_copy(alloc: Global, text: Option<&str>) -> Result<Option<String>, AllocError>
    ensures { IfOk result (λ copy. option_map string_bytes copy ≡ option_copied text.entry) }
{
    match text {
        Some(text) => Ok(Some(String::from_str(alloc, text)?)),
        None => Ok(None),
    }
}

// Why semver refuses a text.
fn reason_of(alloc: Global, error: semver::Error) -> Result<String, Misfit>
    ensures { MatchResult result (λ _. error ≢ memory_error) LacksMemory }
{
    if error == semver::Error::from(AllocError) {
        return Err(Misfit::OutOfMemory);
    }
    error.to_string(alloc).map_err(|_| Misfit::OutOfMemory)
}

/// The version that the text in the member of this name is.
pub(crate) fn version_of(alloc: Global, name: &str, text: &str) -> Result<Version, Misfit>
    ensures { IsRead (λ version. version_parts text.now ≡ Ok (parts_of version)) result }
{
    match Version::parse(alloc, text) {
        Ok(version) => Ok(version),
        Err(error) => {
            let why = TextFault::NoVersion(reason_of(alloc, error)?);
            Err(Misfit::bad_text(alloc, name, why))
        }
    }
}

/// The requirement that the text in the member of this name is.
pub(crate) fn requirement_of(alloc: Global, name: &str, text: &str) -> Result<VersionReq, Misfit>
    ensures { IsRead (λ req. req_of text.now ≡ Ok (map comparator_view req.comparators.items)) result }
{
    match VersionReq::parse(alloc, text) {
        Ok(mut requirement) => {
            requirement.comparators.shrink_to_fit();
            Ok(requirement)
        }
        Err(error) => {
            let why = TextFault::NoRequirement(reason_of(alloc, error)?);
            Err(Misfit::bad_text(alloc, name, why))
        }
    }
}

impl<'v, 'a> Object<'v, 'a> {
    ghost use Rattle.std.specs.Prelude.{◌≡◌, ℕ, List, MatchResult, Some, None, map, option_map, slice_get, unwrap_or, string_bytes};
    ghost use Rattle.std.specs.Option.{option_copied};
    ghost use Rattle.json.specs.Json.{Json, null, string, array};
    ghost use Rattle.json.specs.Find.{get};
    ghost use Rattle.json.specs.Value.{value_view, items_of};
    ghost use Rattle.serde_json.specs.View.{view};
    ghost use Rattle.guppy_metadata.specs.Fault.{NoneIs, IsRead};
    ghost use Rattle.guppy_metadata.specs.Table.{IsTable};
    ghost use Rattle.guppy_metadata.specs.Members.{data_of, present, IsObject, HasNoMembers, IsText, IsTruth, AreTexts};

    /// The object that a value is.
    pub(crate) fn new(alloc: Global, value: &'v Value<'a>) -> Result<Self, Misfit>
        ensures told { MatchResult result (λ object. data_of object ≡ value_view value.now)
            (λ _. HasNoMembers (value_view value.now)) }
        ensures object { MatchResult result (λ _. IsObject (value_view value.now))
            (λ _. ¬ IsObject (value_view value.now)) }
    {
        match value {
            Value::Object(_) => Ok(Object { alloc, value }),
            _ => Err(Misfit::wrong_kind(alloc, "", Kind::Object)),
        }
    }

    /// The object that this item of the list in the member of this name is.
    pub(crate) fn of_item(
        alloc: Global,
        name: &str,
        index: usize,
        item: &'v Value<'a>,
    ) -> Result<Self, Misfit>
        ensures { MatchResult result (λ object. data_of object ≡ value_view item.now)
            (λ _. HasNoMembers (value_view item.now)) }
    {
        match Object::new(alloc, item) {
            Ok(object) => Ok(object),
            Err(fault) => Err(fault.within_item(alloc, name, index)),
        }
    }

    /// The member of this name, where there is one that isn't null.
    pub(crate) fn optional(self, name: &str) -> Option<&'v Value<'a>>
        ensures { option_map (λ value. value_view value.now) result ≡ present name.now (data_of self.entry) }
    {
        match self.value.get(name) {
            None | Some(Value::Null) => None,
            Some(value) => Some(value),
        }
    }

    /// The member of this name.
    pub(crate) fn required(self, name: &str) -> Result<&'v Value<'a>, Misfit>
        ensures { MatchResult result
            (λ value. get name.now (data_of self.entry) ≡ Some (value_view value.now))
            (λ _. get name.now (data_of self.entry) ≡ None) }
    {
        match self.value.get(name) {
            None => Err(Misfit::missing(self.alloc, name)),
            Some(value) => Ok(value),
        }
    }

    /// The text in the member of this name.
    pub(crate) fn text(self, name: &str) -> Result<&'a str, Misfit>
        ensures { MatchResult result
            (λ text. get name.now (data_of self.entry) ≡ Some (string text.now))
            (NoneIs (λ text. get name.now (data_of self.entry) ≡ Some (string text))) }
    {
        let value = self.required(name)?;
        text_of(self.alloc, name, value)
    }

    /// A copy of the text in the member of this name.
    pub(crate) fn copied_text(self, name: &str) -> Result<String, Misfit>
        ensures { MatchResult result
            (λ text. get name.now (data_of self.entry) ≡ Some (string (string_bytes text)))
            (NoneIs (λ text. get name.now (data_of self.entry) ≡ Some (string text))) }
    {
        let text = self.text(name)?;
        Ok(String::from_str(self.alloc, text)?)
    }

    /// The text in the member of this name, where there is one that isn't null.
    pub(crate) fn optional_text(self, name: &str) -> Result<Option<&'a str>, Misfit>
        ensures { MatchResult result
            (λ text. IsText name.now (data_of self.entry) (option_copied text))
            (NoneIs (IsText name.now (data_of self.entry))) }
    {
        match self.optional(name) {
            Some(value) => Ok(Some(text_of(self.alloc, name, value)?)),
            None => Ok(None),
        }
    }

    /// A copy of the text in the member of this name, where there is one that isn't null.
    pub(crate) fn optional_copied_text(self, name: &str) -> Result<Option<String>, Misfit>
        ensures { MatchResult result
            (λ text. IsText name.now (data_of self.entry) (option_map string_bytes text))
            (NoneIs (IsText name.now (data_of self.entry))) }
    {
        let text = self.optional_text(name)?;
        Ok(optional_copy(self.alloc, text)?)
    }

    /// The items of the list in the member of this name.
    pub(crate) fn list(self, name: &str) -> Result<&'v Vec<Value<'a>>, Misfit>
        ensures { MatchResult result
            (λ items. get name.now (data_of self.entry) ≡ Some (array (items_of (map value_view items.now.items))))
            (NoneIs (λ items. get name.now (data_of self.entry) ≡ Some (array items))) }
    {
        match self.required(name)? {
            Value::Array(items) => Ok(items),
            _ => Err(Misfit::wrong_kind(self.alloc, name, Kind::List)),
        }
    }

    /// The texts of the list in the member of this name; none where there is no list.
    pub(crate) fn texts(self, name: &str) -> Result<Vec<&'a str>, Misfit>
        ensures { MatchResult result
            (λ texts. AreTexts name.now (data_of self.entry) (map (λ text. text.now) texts.items))
            (NoneIs (AreTexts name.now (data_of self.entry))) }
    {
        match self.optional(name) {
            Some(value) => texts_of(self.alloc, name, value),
            None => Ok(Vec::new(self.alloc)),
        }
    }

    /// The first text of the list in the member of this name; none where there is no list, or it has none.
    pub(crate) fn first_text(self, name: &str) -> Result<Option<&'a str>, Misfit>
        ensures { MatchResult result
            (λ first. (texts : List (List ℕ)) × AreTexts name.now (data_of self.entry) texts
            × (slice_get texts 0 ≡ option_copied first))
            (NoneIs (AreTexts name.now (data_of self.entry))) }
    {
        match self.optional(name) {
            Some(value) => first_text_of(self.alloc, name, value),
            None => Ok(None),
        }
    }

    /// Copies of the texts of the list in the member of this name; none where there is no list.
    pub(crate) fn copied_texts(self, name: &str) -> Result<Vec<String>, Misfit>
        ensures { MatchResult result
            (λ texts. AreTexts name.now (data_of self.entry) (map string_bytes texts.items))
            (NoneIs (AreTexts name.now (data_of self.entry))) }
    {
        match self.optional(name) {
            Some(value) => copied_texts_of(self.alloc, name, value),
            None => Ok(Vec::new(self.alloc)),
        }
    }

    /// The object in the member of this name.
    pub(crate) fn object(self, name: &str) -> Result<Object<'v, 'a>, Misfit>
        ensures { MatchResult result
            (λ object. get name.now (data_of self.entry) ≡ Some (data_of object))
            (λ _. (told : Json) → get name.now (data_of self.entry) ≡ Some told → HasNoMembers told) }
    {
        let value = self.required(name)?;
        match Object::new(self.alloc, value) {
            Ok(object) => Ok(object),
            Err(fault) => Err(fault.within(self.alloc, name)),
        }
    }

    /// The truth value in the member of this name, or `default` where there is none.
    pub(crate) fn boolean(self, name: &str, default: bool) -> Result<bool, Misfit>
        ensures { IsRead (IsTruth name.now (data_of self.entry) default) result }
    {
        let Some(value) = self.optional(name) else {
            return Ok(default);
        };
        match value.as_bool() {
            Some(truth) => Ok(truth),
            None => Err(Misfit::wrong_kind(self.alloc, name, Kind::Boolean)),
        }
    }

    /// A copy of the value in the member of this name that owns its texts, or null where there is none.
    pub(crate) fn table(self, name: &str) -> Result<serde_json::Value, Misfit>
        ensures { MatchResult result
            (λ table. IsTable (unwrap_or (get name.now (data_of self.entry)) null) (view table))
            (NoneIs (IsTable (unwrap_or (get name.now (data_of self.entry)) null))) }
    {
        let Some(value) = self.value.get(name) else {
            return Ok(serde_json::Value::Null);
        };
        match table_of(self.alloc, value) {
            Ok(table) => Ok(table),
            Err(TableFault::OutOfMemory) => Err(Misfit::OutOfMemory),
            Err(TableFault::NumberOutOfRange) => {
                let why = TextFault::NumberOutOfRange;
                Err(Misfit::bad_text(self.alloc, name, why))
            }
        }
    }
}
