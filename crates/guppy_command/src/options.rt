//! What is asked of every command: which links count, and how an answer is shown.
ghost use Rattle.std.specs.Prelude.{◌≡◌};
ghost use Rattle.std.specs.List.{filter};
ghost use Rattle.guppy_command.specs.Text.{section_of};
ghost use Rattle.guppy_command.specs.Options.{format_of, is_kind, names_kind, kinds_of, is_of, kept_links};

use guppy_data::{DependencyKind, LinkRecord};
use guppy_platforms::is_asked_for;

/// Kinds of links.
#[derive(Clone, Copy, Debug, PartialEq, Eq)]
pub struct Kinds {
    /// Links with a normal section.
    pub normal: bool,
    /// Links with a build section.
    pub build: bool,
    /// Links with a dev section.
    pub dev: bool,
}

/// How an answer is written.
#[derive(Clone, Copy, Debug, PartialEq, Eq)]
pub enum OutputFormat {
    /// What packages are called, on lines.
    Lines,
    /// Packages as flags that cargo takes, one a line.
    Flags,
    /// Packages or links as objects of a JSON array.
    Json,
}

/// What is asked of every command.
#[derive(Clone, Copy, Debug, PartialEq, Eq)]
pub struct Options {
    /// Which links the graph has: those of these kinds, or all.
    pub kinds: Option<Kinds>,
    /// Whether members of the workspace are shown alone.
    pub members_alone: bool,
    /// Whether packages are called by their IDs.
    pub by_id: bool,
    /// Whether each line of an answer that is a list ends with a NUL, in place of a newline.
    pub nul_ended: bool,
    /// How an answer is written.
    pub format: OutputFormat,
}

/// The kind that the word names. Takes constant time, and no memory.
pub fn section_of(word: &str) -> Option<DependencyKind>
    ensures { result ≡ section_of word.now }
{
    if word == "normal" {
        Some(DependencyKind::Normal)
    } else if word == "build" {
        Some(DependencyKind::Build)
    } else if word == "dev" {
        Some(DependencyKind::Development)
    } else {
        None
    }
}

fn is_kind(word: &str) -> bool
    ensures { result ≡ is_kind word.now }
{
    section_of(word).is_some()
}

// Whether the kind is one of those that the word names, separated by commas.
fn names_kind(word: &str, kind: &str) -> bool
    ensures { result ≡ names_kind word.now kind.now }
{
    word.split(',').any(|name| name == kind)
}

/// The kinds that the word names, separated by commas, where it names nothing else. Takes time linear in the word, and no
/// memory.
pub fn kinds_of(word: &str) -> Option<Kinds>
    ensures { result ≡ kinds_of word.now }
{
    if !word.split(',').all(is_kind) {
        return None;
    }
    Some(Kinds {
        normal: names_kind(word, "normal"),
        build: names_kind(word, "build"),
        dev: names_kind(word, "dev"),
    })
}

/// The format that the word names. Takes constant time, and no memory.
pub fn format_of(word: &str) -> Option<OutputFormat>
    ensures { result ≡ format_of word.now }
{
    if word == "lines" {
        Some(OutputFormat::Lines)
    } else if word == "flags" {
        Some(OutputFormat::Flags)
    } else if word == "json" {
        Some(OutputFormat::Json)
    } else {
        None
    }
}

impl Kinds {
    /// Whether the link has a section of one of these kinds: whether it is asked for in it, required or optional, on some
    /// platform. Takes constant time, and no memory.
    pub fn has(self, link: &LinkRecord) -> bool
        ensures { result ≡ is_of self link.now }
    {
        (self.normal && is_asked_for(&link.normal))
            || (self.build && is_asked_for(&link.build))
            || (self.dev && is_asked_for(&link.dev))
    }
}

// Leaves out the links without a section of these kinds.
fn keep_of(kinds: Kinds, links: &mut Vec<LinkRecord>)
    ensures { links.new.items ≡ filter (is_of kinds) links.old.items }
{
    links.retain(|link| kinds.has(link));
}

/// Leaves out the links without a section of these kinds. Where none are named, all links stay. Takes no memory.
pub fn keep_links(kinds: Option<Kinds>, links: &mut Vec<LinkRecord>)
    ensures { links.new.items ≡ kept_links kinds links.old.items }
{
    if let Some(kinds) = kinds {
        keep_of(kinds, links);
    }
}
