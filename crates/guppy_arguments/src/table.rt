//! The options and commands of `guppy-cargo`.
ghost use Rattle.std.specs.Prelude.{◌≡◌};
ghost use Rattle.guppy_command.specs.Shown.{program_shown};
ghost use Rattle.guppy_arguments.specs.Table.{cargo_program, usage_of};

use guppy_command::grammar::{OptionRow, Program};
use guppy_command::table::{
    ALL_FEATURES, ALSO, BEFORE, CFGS, FEATURES, FORMAT, HOST, HOST_CFGS, IDS, IGNORE, KINDS,
    MEMBER, NO_DEFAULT_FEATURES, NULL, PATHS_FROM, PLATFORM, PUBLISHABLE, RESOLVER, TESTS,
    WORKSPACE,
};

// The commands that ask about links.
const OF_LINKS: &[&str] = &[
    "affected",
    "publish-order",
    "depends",
    "why",
    "reach",
    "order",
    "roots",
    "links",
    "cycles",
    "duplicates",
    "dot",
    "verify",
];

// The commands whose answer is a list, an item a line.
const OF_LISTS: &[&str] = &[
    "affected",
    "publish-order",
    "why",
    "reach",
    "order",
    "roots",
    "links",
    "cycles",
    "duplicates",
    "built",
    "features",
    "why-feature",
];

// The commands that ask what Cargo builds.
const OF_BUILDS: &[&str] = &["built", "features", "why-feature"];

// The commands that look at what Cargo builds.
const WITH_RESOLVER: &[&str] = &["affected", "built", "features", "why-feature"];

/// The options, each with its value, whether it may come again, the commands that take it, where not all do, and its
/// help.
pub const OPTIONS: &[OptionRow] = &[
    (
        KINDS,
        Some("KINDS"),
        false,
        Some(OF_LINKS),
        "of links with a section of these kinds alone: some of normal,build,dev,\n      separated by commas",
    ),
    (
        PLATFORM,
        Some("TRIPLE"),
        true,
        None,
        "of links that are on on this platform, or one of several, each with its --cfgs",
    ),
    (
        CFGS,
        Some("FILE"),
        true,
        None,
        "what rustc --print cfg prints for the platform; the scripts ask rustc where none\n      is given",
    ),
    (
        HOST,
        Some("TRIPLE"),
        false,
        None,
        "the platform that builds, on which what runs there counts, with its --host-cfgs; the\n      \
         scripts ask rustc where none is given",
    ),
    (
        HOST_CFGS,
        Some("FILE"),
        false,
        None,
        "what rustc --print cfg prints for the host",
    ),
    (
        WORKSPACE,
        None,
        false,
        None,
        "prints members of the workspace alone",
    ),
    (IDS, None, false, None, "prints packages by their IDs"),
    (
        NULL,
        None,
        false,
        Some(OF_LISTS),
        "ends each line with a NUL, as xargs -0 takes them",
    ),
    (
        FORMAT,
        Some("FORMAT"),
        false,
        Some(OF_LISTS),
        "lines, as without it, or json: an array; where packages are listed alone, also\n      \
         flags: --package=NAME@VERSION, as cargo takes them",
    ),
    (
        PUBLISHABLE,
        None,
        false,
        Some(&["publish-order"]),
        "prints those alone that can be published",
    ),
    (
        IGNORE,
        Some("FOLDER"),
        true,
        Some(&["affected"]),
        "leaves out what lies in this folder",
    ),
    (
        ALSO,
        Some("FOLDER=PACKAGE"),
        true,
        Some(&["affected"]),
        "what changed in this folder changes this package, too, as one whose build script\n      \
         reads there",
    ),
    (
        PATHS_FROM,
        Some("FILE"),
        true,
        Some(&["affected"]),
        "adds the paths in this file, each ended by a NUL, as git writes them with -z;\n      to the scripts - is standard input",
    ),
    (
        BEFORE,
        Some("FILE"),
        false,
        Some(&["affected"]),
        "what cargo metadata printed before the changes: adds what cargo builds in another way\n      \
         since, and a changed Cargo.lock counts for that alone",
    ),
    (
        MEMBER,
        Some("MEMBER"),
        true,
        Some(OF_BUILDS),
        "where this member is built, or several are; else those that cargo builds by itself",
    ),
    (
        FEATURES,
        Some("LIST"),
        true,
        Some(OF_BUILDS),
        "with these features, separated by commas or spaces",
    ),
    (
        ALL_FEATURES,
        None,
        false,
        Some(OF_BUILDS),
        "with all features of these members",
    ),
    (
        NO_DEFAULT_FEATURES,
        None,
        false,
        Some(OF_BUILDS),
        "without their default features",
    ),
    (
        TESTS,
        None,
        false,
        Some(OF_BUILDS),
        "with their tests, as cargo test builds them",
    ),
    (
        RESOLVER,
        Some("N"),
        false,
        Some(WITH_RESOLVER),
        "by this resolver, 1, 2 or 3: 2 where none is given; the scripts read it from the\n      \
         Cargo.toml of the workspace",
    ),
];

/// What the commands are called.
pub const COMMANDS: &[&str] = &[
    "affected",
    "publish-order",
    "depends",
    "why",
    "reach",
    "order",
    "roots",
    "links",
    "cycles",
    "duplicates",
    "built",
    "features",
    "why-feature",
    "dot",
    "verify",
];

/// The commands, each with what to give, and its help.
pub const USAGES: &[(&str, &str, &str)] = &[
    (
        "affected",
        "affected PATH..",
        "the members to test when these files changed, what they depend on first; a PATH\n      \
         is relative to the workspace's root, ./-x is one, -x is not; to the scripts\n      \
         --since REVISION adds what git says changed since then, and test in the place of\n      \
         affected runs their tests",
    ),
    (
        "publish-order",
        "publish-order",
        "the members, each after those that it needs",
    ),
    (
        "depends",
        "depends PACKAGE PACKAGE",
        "whether the first depends on the second",
    ),
    (
        "why",
        "why PACKAGE PACKAGE",
        "a shortest walk of links from the first to the second",
    ),
    (
        "reach",
        "reach forward|reverse PACKAGE..",
        "these packages and what they need, or what needs them",
    ),
    ("order", "order", "all packages, dependents first"),
    (
        "roots",
        "roots forward|reverse",
        "the packages that no other one needs, or that need none",
    ),
    (
        "links",
        "links forward|reverse",
        "the links from these roots on, the ends of each on a line",
    ),
    (
        "cycles",
        "cycles",
        "the packages that need each other, a cycle a line",
    ),
    (
        "duplicates",
        "duplicates",
        "packages whose name another one has, too, each with those that need it, on a\n      line",
    ),
    (
        "built",
        "built",
        "the packages that cargo builds, each with where it runs and its features that are on",
    ),
    (
        "features",
        "features PACKAGE",
        "its features that are on there, each with where it runs and what asks for it",
    ),
    (
        "why-feature",
        "why-feature PACKAGE FEATURE",
        "why this feature of the package is on there, step by step",
    ),
    (
        "dot",
        "dot PACKAGE..",
        "what these packages need, or all where none is given, as Graphviz draws it",
    ),
    (
        "verify",
        "verify",
        "ok, where no cycle is over links that aren't dev-only",
    ),
];

// What `guppy-cargo` takes: its options may stand anywhere.
pub(crate) fn program() -> Program
    ensures { program_shown result ≡ cargo_program }
{
    Program {
        options: OPTIONS,
        anywhere: true,
        commands: COMMANDS,
    }
}

// What to give of the command.
pub(crate) fn usage_of(command: &str) -> &'static str
    ensures { result.now ≡ usage_of command.now }
{
    match USAGES.iter().find(|row| row.0 == command) {
        Some(row) => row.1,
        None => "",
    }
}
