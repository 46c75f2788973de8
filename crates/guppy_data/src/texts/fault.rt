ghost use Rattle.std.specs.Prelude.{Some};
ghost use Rattle.std.specs.Fmt.{DisplaysOnOk};
ghost use Rattle.guppy_data.specs.Texts.{round_text};

use crate::texts::package_id::PackageId;
use std::fmt;

/// The first rule that records break, so that they make no package graph.
///
/// Packages, targets, default members and links are told by their places in the records, from 0.
#[derive(Clone, Copy, Debug, PartialEq, Eq)]
pub enum ConstructFault {
    /// There are more than 4,294,967,295 packages.
    TooManyPackages,
    /// The package has the ID of an earlier one.
    RepeatedPackageId { package: usize },
    /// The build target has the ID of an earlier one of its package.
    RepeatedBuildTarget { package: usize, target: usize },
    /// The build target is a library or a build script, and has no name.
    UnnamedBuildTarget { package: usize, target: usize },
    /// The workspace member has the path of an earlier one.
    RepeatedWorkspacePath { package: usize },
    /// The workspace member has the name of an earlier one.
    RepeatedWorkspaceName { package: usize },
    /// The default member is no package.
    UnknownDefaultMember { index: usize },
    /// There are more than 4,294,967,295 links.
    TooManyLinks,
    /// An end of the link is no package.
    UnknownLinkEnd { link: usize },
    /// An earlier link has the same two ends.
    RepeatedLink { link: usize },
}

impl fmt::Display for ConstructFault {
    ghost use Rattle.guppy_data.specs.Texts.{construct_fault_text};
    ghost use Rattle.std.specs.Prelude.{Some};

    ghost output = { λ f. Some (construct_fault_text f) };

    fn fmt<W: fmt::Write>(&self, f: &mut fmt::Formatter<W>) -> fmt::Result {
        match self {
            ConstructFault::TooManyPackages => write!(f, "too many packages"),
            ConstructFault::RepeatedPackageId { package } => {
                write!(f, "repeated package ID at package {package}")
            }
            ConstructFault::RepeatedBuildTarget { package, target } => {
                write!(f, "repeated build target {target} in package {package}")
            }
            ConstructFault::UnnamedBuildTarget { package, target } => {
                write!(f, "build target {target} in package {package} has no name")
            }
            ConstructFault::RepeatedWorkspacePath { package } => {
                write!(f, "repeated workspace path at package {package}")
            }
            ConstructFault::RepeatedWorkspaceName { package } => {
                write!(f, "repeated workspace name at package {package}")
            }
            ConstructFault::UnknownDefaultMember { index } => {
                write!(f, "unknown default member {index}")
            }
            ConstructFault::TooManyLinks => write!(f, "too many links"),
            ConstructFault::UnknownLinkEnd { link } => write!(f, "unknown package at link {link}"),
            ConstructFault::RepeatedLink { link } => write!(f, "repeated link {link}"),
        }
    }
}

/// The first rule of a verified graph that a package graph breaks.
#[derive(Debug, Drop)]
pub enum VerifyFault {
    /// The build target, by its place in the package's targets in ascending order of their IDs, is of
    /// a kind that its ID doesn't allow.
    TargetKind { package: usize, target: usize },
    /// The version of the link's target doesn't match what the link asks for.
    Version { link: usize },
    /// No section of the link is present.
    NoSection { link: usize },
    /// Each of these packages has a link that isn't dev-only to the next, and the last one to the
    /// first. They are two or more, each once.
    Cycle(Vec<PackageId>),
}

impl fmt::Display for VerifyFault {
    ghost use Rattle.guppy_data.specs.Texts.{verify_fault_text};
    ghost use Rattle.std.specs.Prelude.{Some};

    ghost output = { λ f. Some (verify_fault_text f) };

    fn fmt<W: fmt::Write>(&self, f: &mut fmt::Formatter<W>) -> fmt::Result {
        match self {
            VerifyFault::TargetKind { package, target } => {
                write!(
                    f,
                    "build target {target} in package {package} does not match its kind"
                )
            }
            VerifyFault::Version { link } => {
                write!(f, "version does not match requirement at link {link}")
            }
            VerifyFault::NoSection { link } => write!(f, "no section at link {link}"),
            VerifyFault::Cycle(ids) => {
                f.write_str("cycle over links that are not dev-only: ")?;
                write_round(ids.as_slice(), f)
            }
        }
    }
}

// The IDs with an arrow behind each, and the first one again.
fn write_round<W: fmt::Write>(ids: &[PackageId], f: &mut fmt::Formatter<W>) -> fmt::Result
    ensures { DisplaysOnOk W.write_str_gives f.old result (Some (round_text ids.now)) f.new }
{
    for id in ids {
        write!(f, "{id} -> ")?;
    }
    match ids.first() {
        Some(first) => write!(f, "{first}"),
        None => Ok(()),
    }
}
