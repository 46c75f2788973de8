//! Why there are no records, and where in the JSON.
ghost use Rattle.std.specs.Prelude.{◌≡◌};
ghost use Rattle.guppy_metadata.specs.declared.fault.Misfit.TheVariants.{OutOfMemory as MisfitMemory};
ghost use Rattle.guppy_metadata.specs.declared.fault.MetadataFault.TheVariants.{OutOfMemory};
ghost use Rattle.guppy_metadata.specs.Fault.{IsNotJson, IsNotResolved, IsOutOfMemory, LacksMemory};

use std::alloc::{AllocError, AllocFailed, Global};
use std::fmt;

/// Why a text says no records.
#[derive(Debug, Drop)]
pub enum MetadataFault {
    /// The text is no JSON: what stands at this line and column, both from one, belongs to none.
    NotJson { line: usize, column: usize },
    /// The dependencies aren't resolved, as where Cargo is asked with `--no-deps`.
    NotResolved,
    /// Nothing stands at this place.
    Missing(String),
    /// What stands at this place is of another kind than this one.
    WrongKind(String, Kind),
    /// The text at this place isn't one that may stand there.
    BadText(String, TextFault),
    /// A request for memory was refused.
    OutOfMemory,
}

/// Why JSON with resolved dependencies says no records: the other `MetadataFault`s.
#[derive(Drop)]
pub(crate) enum Misfit {
    Missing(String),
    WrongKind(String, Kind),
    BadText(String, TextFault),
    OutOfMemory,
}

/// What is wanted at a place in the JSON.
#[derive(Clone, Copy, Debug, PartialEq, Eq)]
pub enum Kind {
    /// An object.
    Object,
    /// A list.
    List,
    /// A text.
    Text,
    /// `true` or `false`.
    Boolean,
}

/// What is wrong with a text.
#[derive(Debug, Drop)]
pub enum TextFault {
    /// It is no version, for this reason.
    NoVersion(String),
    /// It is no requirement of versions, for this reason.
    NoRequirement(String),
    /// It is no kind of dependency.
    NoDependencyKind,
    /// It has a number that no float holds.
    NumberOutOfRange,
    /// It is the ID of no package.
    NoPackage,
    /// The package that it stands in declares no dependency that fits.
    NoDependency,
}

// The place `inner` of what stands at `step`.
fn joined(alloc: Global, step: &str, inner: &str) -> Result<String, AllocError> {
    if inner.is_empty() {
        String::from_str(alloc, step)
    } else {
        format!(in alloc; "{step}.{inner}")
    }
}

// The line and the column, both from one, at which the text goes on behind so many bytes.
fn line_and_column(text: &str, offset: usize) -> (usize, usize) {
    let mut place = (1usize, 1usize);
    for byte in text.as_bytes().iter().take(offset) {
        place = if *byte == b'\n' {
            (place.0.saturating_add(1), 1)
        } else {
            (place.0, place.1.saturating_add(1))
        };
    }
    place
}

impl MetadataFault {
    /// The text is no JSON, as is seen behind so many bytes.
    pub(crate) fn no_json(text: &str, offset: usize) -> Self
        ensures { IsNotJson result }
    {
        let (line, column) = line_and_column(text, offset);
        MetadataFault::NotJson { line, column }
    }
}

impl Misfit {
    ghost use Rattle.std.specs.Prelude.{IfOk};
    ghost use Rattle.guppy_metadata.specs.Fault.{LacksMemory};

    /// Nothing stands at the member of this name.
    pub(crate) fn missing(alloc: Global, name: &str) -> Self {
        match String::from_str(alloc, name) {
            Ok(place) => Misfit::Missing(place),
            Err(_) => Misfit::OutOfMemory,
        }
    }

    /// The member of this name, or the value itself where the name is empty, is no `wanted`.
    pub(crate) fn wrong_kind(alloc: Global, name: &str, wanted: Kind) -> Self {
        match String::from_str(alloc, name) {
            Ok(place) => Misfit::WrongKind(place, wanted),
            Err(_) => Misfit::OutOfMemory,
        }
    }

    /// The text in the member of this name is a bad one.
    pub(crate) fn bad_text(alloc: Global, name: &str, why: TextFault) -> Self {
        match String::from_str(alloc, name) {
            Ok(place) => Misfit::BadText(place, why),
            Err(_) => Misfit::OutOfMemory,
        }
    }

    fn try_within(self, alloc: Global, step: &str) -> Result<Self, AllocError>
        ensures { IfOk result (λ misfit. LacksMemory self → LacksMemory misfit) }
    {
        Ok(match self {
            Misfit::Missing(place) => { Misfit::Missing(joined(alloc, step, place.as_str())?) }
            Misfit::WrongKind(place, wanted) => {
                Misfit::WrongKind(joined(alloc, step, place.as_str())?, wanted)
            }
            Misfit::BadText(place, why) => {
                Misfit::BadText(joined(alloc, step, place.as_str())?, why)
            }
            other => other,
        })
    }

    /// The same fault, where what it was seen from is the member of this name.
    pub(crate) fn within(self, alloc: Global, name: &str) -> Self
        ensures { LacksMemory self → LacksMemory result }
    {
        match self.try_within(alloc, name) {
            Ok(fault) => fault,
            Err(_) => Misfit::OutOfMemory,
        }
    }

    /// The same fault, where what it was seen from is this item of the list in the member of this name.
    pub(crate) fn within_item(self, alloc: Global, name: &str, index: usize) -> Self
        ensures { LacksMemory self → LacksMemory result }
    {
        match format!(in alloc; "{name}[{index}]") {
            Ok(step) => self.within(alloc, step.as_str()),
            Err(_) => Misfit::OutOfMemory,
        }
    }
}

impl fmt::Display for MetadataFault {
    ghost use Rattle.std.specs.Prelude.{Some};
    ghost use Rattle.guppy_metadata.specs.Fault.{fault_text};

    ghost output = { λ x. Some (fault_text x) };

    fn fmt<W: fmt::Write>(&self, f: &mut fmt::Formatter<W>) -> fmt::Result {
        match self {
            MetadataFault::NotJson { line, column } => {
                write!(f, "no JSON at line {line} column {column}")
            }
            MetadataFault::NotResolved => f.write_str("resolve: no dependencies are resolved"),
            MetadataFault::Missing(place) => write!(f, "{place}: missing"),
            MetadataFault::WrongKind(place, wanted) => write!(f, "{place}: no {wanted}"),
            MetadataFault::BadText(place, why) => write!(f, "{place}: {why}"),
            MetadataFault::OutOfMemory => f.write_str("out of memory"),
        }
    }
}

impl fmt::Display for Kind {
    ghost use Rattle.std.specs.Prelude.{Some};
    ghost use Rattle.guppy_metadata.specs.Fault.{kind_text};

    ghost output = { λ x. Some (kind_text x) };

    fn fmt<W: fmt::Write>(&self, f: &mut fmt::Formatter<W>) -> fmt::Result {
        f.write_str(match self {
            Kind::Object => "object",
            Kind::List => "list",
            Kind::Text => "text",
            Kind::Boolean => "truth value",
        })
    }
}

impl fmt::Display for TextFault {
    ghost use Rattle.std.specs.Prelude.{Some};
    ghost use Rattle.guppy_metadata.specs.Fault.{text_fault_text};

    ghost output = { λ x. Some (text_fault_text x) };

    fn fmt<W: fmt::Write>(&self, f: &mut fmt::Formatter<W>) -> fmt::Result {
        match self {
            TextFault::NoVersion(reason) => write!(f, "no version: {reason}"),
            TextFault::NoRequirement(reason) => write!(f, "no requirement of versions: {reason}"),
            TextFault::NoDependencyKind => f.write_str("no kind of dependency"),
            TextFault::NumberOutOfRange => f.write_str("a number in it is too large"),
            TextFault::NoPackage => f.write_str("the ID of no package"),
            TextFault::NoDependency => f.write_str("no declared dependency fits"),
        }
    }
}

impl std::error::Error for MetadataFault {}

impl From<Misfit> for MetadataFault {
    ghost from_gives = { λ misfit fault. ¬ IsNotJson fault × ¬ IsNotResolved fault
        × (LacksMemory misfit → IsOutOfMemory fault) };

    fn from(misfit: Misfit) -> Self {
        match misfit {
            Misfit::Missing(place) => MetadataFault::Missing(place),
            Misfit::WrongKind(place, wanted) => MetadataFault::WrongKind(place, wanted),
            Misfit::BadText(place, why) => MetadataFault::BadText(place, why),
            Misfit::OutOfMemory => MetadataFault::OutOfMemory,
        }
    }
}

impl From<AllocError> for MetadataFault {
    ghost from_gives = { λ _ fault. fault ≡ OutOfMemory };

    fn from(_error: AllocError) -> Self {
        MetadataFault::OutOfMemory
    }
}

impl From<AllocError> for Misfit {
    ghost from_gives = { λ _ fault. fault ≡ MisfitMemory };

    fn from(_error: AllocError) -> Self {
        Misfit::OutOfMemory
    }
}

impl<T: Drop> From<AllocFailed<T>> for Misfit {
    ghost from_gives = { λ _ fault. fault ≡ MisfitMemory };

    fn from(_error: AllocFailed<T>) -> Self {
        Misfit::OutOfMemory
    }
}
