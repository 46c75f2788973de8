//! The commands.
ghost use Rattle.std.specs.Prelude.{◌≡◌, option_map, IfOk};
ghost use Rattle.guppy_command.specs.Command.{roots, links, build_command_of, built_of, command_of, direction_of, lone_direction_of, reach_of, depends_of, features_of, why_of, why_feature_of, plain_command_of, publish_of, from_root};
ghost use Rattle.guppy_command.specs.Shown.{command_shown, request_shown, texts};

use crate::table::PUBLISHABLE;
use guppy_features::{CargoResolverVersion, StandardFeatures};
use guppy_search::DependencyDirection;
use std::alloc::{AllocError, Global};

/// What Cargo is asked to build.
#[derive(Debug, Drop)]
pub struct BuildRequest<'a> {
    /// The chosen members; where none is, those that Cargo takes by default.
    pub members: Vec<&'a str>,
    /// What `--features` names.
    pub features: Vec<&'a str>,
    /// Which features of the members beside these.
    pub standard: StandardFeatures,
    /// Whether tests are built, too.
    pub tests: bool,
    /// The resolver of features.
    pub resolver: CargoResolverVersion,
}

/// What is asked of a graph.
#[derive(Debug, Drop)]
pub enum Command<'a> {
    /// The packages that these reach in the direction, in the order of their IDs.
    Reach(DependencyDirection, Vec<&'a str>),
    /// Whether the first package depends on the second.
    Depends(&'a str, &'a str),
    /// A shortest walk of links from the first package to the second.
    Why(&'a str, &'a str),
    /// All packages in their order, dependents first.
    Order,
    /// The roots of all packages in the direction, by position.
    Roots(DependencyDirection),
    /// The links that are walked from these roots in the direction.
    Links(DependencyDirection),
    /// The cycles in the order of the packages.
    Cycles,
    /// The packages whose name another one has, too, each with those that need it.
    Duplicates,
    /// The packages that Cargo builds, each with its features that are on.
    Built(BuildRequest<'a>),
    /// The features of the package that are on, each with what asks for it.
    Features(BuildRequest<'a>, &'a str),
    /// Why the feature of the package, the second word, is on.
    WhyFeature(BuildRequest<'a>, &'a str, &'a str),
    /// Whether the graph is a verified graph.
    Verify,
    /// The members of the workspace, each after those that it needs.
    PublishOrder {
        /// Whether those that can be published are wanted alone.
        publishable: bool,
    },
    /// What these packages reach, or all where none is given, as it is drawn.
    Dot(Vec<&'a str>),
    /// The members to test when the files at these paths changed.
    Affected {
        /// The folders whose paths count for nothing.
        ignored: Vec<String>,
        /// The folders that belong to packages beside their own, each with the word for its package.
        also: Vec<(&'a str, &'a str)>,
        /// The paths, from the workspace's root.
        paths: Vec<String>,
    },
}

fn direction_of(word: &str) -> Option<DependencyDirection>
    ensures { result ≡ direction_of word.now }
{
    if word == "forward" {
        Some(DependencyDirection::Forward)
    } else if word == "reverse" {
        Some(DependencyDirection::Reverse)
    } else {
        None
    }
}

// The direction, where it is the only word.
fn lone_direction_of(words: &[&str]) -> Option<DependencyDirection>
    ensures { result ≡ lone_direction_of (texts words.now) }
{
    let [word] = words else {
        return None;
    };
    direction_of(word)
}

fn reach_of<'a>(alloc: Global, words: &[&'a str]) -> Result<Option<Command<'a>>, AllocError>
    ensures { IfOk result (λ command. option_map command_shown command ≡ reach_of (texts words.now)) }
{
    let [word, ids @ ..] = words else {
        return Ok(None);
    };
    if ids.is_empty() {
        return Ok(None);
    }
    match direction_of(word) {
        Some(direction) => Ok(Some(Command::Reach(direction, ids.to_vec(alloc)?))),
        None => Ok(None),
    }
}

fn depends_of<'a>(words: &[&'a str]) -> Option<Command<'a>>
    ensures { option_map command_shown result ≡ depends_of (texts words.now) }
{
    let [from, to] = words else {
        return None;
    };
    Some(Command::Depends(from, to))
}

fn why_of<'a>(words: &[&'a str]) -> Option<Command<'a>>
    ensures { option_map command_shown result ≡ why_of (texts words.now) }
{
    let [from, to] = words else {
        return None;
    };
    Some(Command::Why(from, to))
}

fn roots_of<'a>(words: &[&str]) -> Option<Command<'a>>
    ensures { option_map command_shown result ≡ option_map roots (lone_direction_of (texts words.now)) }
{
    Some(Command::Roots(lone_direction_of(words)?))
}

fn links_of<'a>(words: &[&str]) -> Option<Command<'a>>
    ensures { option_map command_shown result ≡ option_map links (lone_direction_of (texts words.now)) }
{
    Some(Command::Links(lone_direction_of(words)?))
}

// The command of this one word, where no words are behind it.
fn plain_command_of<'a>(word: &str, words: &[&str]) -> Option<Command<'a>>
    ensures { option_map command_shown result ≡ plain_command_of word.now (texts words.now) }
{
    let [] = words else {
        return None;
    };
    if word == "order" {
        Some(Command::Order)
    } else if word == "cycles" {
        Some(Command::Cycles)
    } else if word == "duplicates" {
        Some(Command::Duplicates)
    } else if word == "verify" {
        Some(Command::Verify)
    } else {
        None
    }
}

// The members in an order to publish them: all, or those alone that can be published.
fn publish_of<'a>(publishable: bool, words: &[&str]) -> Option<Command<'a>>
    ensures { option_map command_shown result ≡ publish_of publishable (texts words.now) }
{
    match words {
        [] => Some(Command::PublishOrder { publishable }),
        [word] if *word == PUBLISHABLE => Some(Command::PublishOrder { publishable: true }),
        _ => None,
    }
}

/// The command that is called so with these words behind it, if it takes them; of `publish-order`, those alone that
/// can be published may be wanted. Takes time linear in the words' lengths, and memory for a reference a word.
pub fn command_of<'a>(
    alloc: Global,
    publishable: bool,
    word: &str,
    words: &[&'a str],
) -> Result<Option<Command<'a>>, AllocError>
    ensures { IfOk result (λ command. option_map command_shown command
        ≡ command_of publishable word.now (texts words.now)) }
{
    Ok(if word == "reach" {
        reach_of(alloc, words)?
    } else if word == "depends" {
        depends_of(words)
    } else if word == "why" {
        why_of(words)
    } else if word == "roots" {
        roots_of(words)
    } else if word == "links" {
        links_of(words)
    } else if word == "publish-order" {
        publish_of(publishable, words)
    } else if word == "dot" {
        Some(Command::Dot(words.to_vec(alloc)?))
    } else {
        plain_command_of(word, words)
    })
}

fn built_of<'a>(request: BuildRequest<'a>, words: &[&'a str]) -> Option<Command<'a>>
    ensures { option_map command_shown result ≡ built_of (request_shown request.entry) (texts words.now) }
{
    let [] = words else {
        return None;
    };
    Some(Command::Built(request))
}

fn features_of<'a>(request: BuildRequest<'a>, words: &[&'a str]) -> Option<Command<'a>>
    ensures { option_map command_shown result ≡ features_of (request_shown request.entry) (texts words.now) }
{
    let [package] = words else {
        return None;
    };
    Some(Command::Features(request, package))
}

fn why_feature_of<'a>(request: BuildRequest<'a>, words: &[&'a str]) -> Option<Command<'a>>
    ensures { option_map command_shown result
        ≡ why_feature_of (request_shown request.entry) (texts words.now) }
{
    let [package, feature] = words else {
        return None;
    };
    Some(Command::WhyFeature(request, package, feature))
}

/// The command that is called so with these words behind it, if it asks what Cargo builds and takes them. Takes time
/// linear in the word's length, and no memory.
pub fn build_command_of<'a>(
    request: BuildRequest<'a>,
    word: &str,
    words: &[&'a str],
) -> Option<Command<'a>>
    ensures { option_map command_shown result
        ≡ build_command_of (request_shown request.entry) word.now (texts words.now) }
{
    if word == "built" {
        built_of(request, words)
    } else if word == "features" {
        features_of(request, words)
    } else if word == "why-feature" {
        why_feature_of(request, words)
    } else {
        None
    }
}

/// The path without a `./` at its front. Takes constant time, and no memory.
pub fn from_root(path: &str) -> &str
    ensures { result.now ≡ from_root path.now }
{
    match path.strip_prefix("./") {
        Some(rest) => rest,
        None => path,
    }
}
