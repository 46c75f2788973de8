ghost use Rattle.std.specs.Prelude.{◌≡◌};

use crate::texts::component::{Component, Components};
use std::cmp::Ordering;
use std::fmt;
use std::hash::{Hash, Hasher};

/// A borrowed path, which is equal, ordered and hashed by its list of components, as std's paths are on
/// Unix. Comparing and hashing take no memory, and time linear in the texts.
#[derive(Clone, Copy, Debug)]
pub struct Utf8Path<'a> {
    text: &'a str,
}

impl<'a> Utf8Path<'a> {
    ghost use Rattle.guppy_data.specs.Path.{components};
    ghost use Rattle.guppy_data.specs.Component.{parts_left};
    ghost use Rattle.guppy_data.specs.Utf8Path.{path_text};

    /// The path that `text` gives. Takes no memory and constant time.
    pub fn new(text: &'a str) -> Self
        ensures { path_text result ≡ text.now }
    {
        Utf8Path { text }
    }

    /// The text as it was given.
    pub fn as_str(self) -> &'a str
        ensures { result.now ≡ path_text self.entry }
    {
        self.text
    }

    /// The components from the front, read from the text as the iterator goes: time linear in the
    /// text in all, and no memory.
    pub fn components(self) -> Components<'a>
        ensures { parts_left result ≡ components (path_text self.entry) }
    {
        Components::new(self.as_str())
    }
}

impl Ord for Utf8Path<'_> {
    ghost use Rattle.std.specs.Ordering.{on};
    ghost use Rattle.std.specs.Cmp.Rules.{comparing};
    ghost use Rattle.std.proofs.Common.{rules};
    ghost use Rattle.guppy_data.specs.Path.{path_cmp};
    ghost use Rattle.guppy_data.specs.Utf8Path.{path_text};

    ghost cmp = { on path_text path_cmp };

    ghost total = { Prim.search (comparing, rules) depth 9 };

    ghost matches_partial_cmp = { Prim.search (comparing, rules) };

    ghost matches_eq = { Prim.search (comparing, rules) };

    fn cmp(&self, other: &Self) -> Ordering {
        let mut own = self.components();
        let mut others = other.components();
        loop {
            match (own.next(), others.next()) {
                (None, None) => return Ordering::Equal,
                (None, Some(_)) => return Ordering::Less,
                (Some(_), None) => return Ordering::Greater,
                (Some(component), Some(other)) => match component.cmp(&other) {
                    Ordering::Equal => {}
                    order => return order,
                },
            }
        }
    }
}

impl PartialOrd for Utf8Path<'_> {
    ghost use Rattle.std.specs.Ordering.{on, as_partial_cmp};
    ghost use Rattle.std.specs.Cmp.{partial_order_from_own_ties};
    ghost use Rattle.std.specs.Cmp.Rules.{comparing};
    ghost use Rattle.std.proofs.Common.{rules};
    ghost use Rattle.guppy_data.specs.Path.{path_cmp};
    ghost use Rattle.guppy_data.specs.Utf8Path.{path_text};

    ghost partial_cmp = { as_partial_cmp (on path_text path_cmp) };

    ghost laws = { partial_order_from_own_ties (Prim.search (comparing, rules) depth 9)
        (Prim.search (comparing, rules) depth 9) };

    fn partial_cmp(&self, other: &Self) -> Option<Ordering> {
        Some(self.cmp(other))
    }
}

impl PartialEq for Utf8Path<'_> {
    ghost use Rattle.std.specs.Ordering.{on, eq_by_cmp};
    ghost use Rattle.std.specs.Cmp.Rules.{comparing};
    ghost use Rattle.std.proofs.Common.{rules};
    ghost use Rattle.guppy_data.specs.Path.{path_cmp};
    ghost use Rattle.guppy_data.specs.Utf8Path.{path_text};

    ghost eq = { eq_by_cmp (on path_text path_cmp) };

    ghost laws = { Prim.search (comparing, rules) depth 9 };

    fn eq(&self, other: &Self) -> bool {
        self.cmp(other).is_eq()
    }
}

impl Eq for Utf8Path<'_> {
    ghost use Rattle.std.specs.Cmp.Rules.{comparing};
    ghost use Rattle.std.proofs.Common.{rules};

    ghost laws = { Prim.search (comparing, rules) depth 9 };
}

impl Hash for Utf8Path<'_> {
    ghost use Rattle.guppy_data.specs.Path.{path_hash};
    ghost use Rattle.guppy_data.specs.SamePath.{hashed_alike};
    ghost use Rattle.guppy_data.specs.Utf8Path.{path_text};

    ghost hash_input = { λ p. path_hash (path_text p) };

    ghost respects_eq = { λ p q equal. hashed_alike (path_text p) (path_text q) equal };

    fn hash<H: Hasher>(&self, state: &mut H) {
        for component in self.components() {
            match component {
                Component::RootDir => state.write_u8(0),
                Component::CurDir => state.write_u8(1),
                Component::ParentDir => state.write_u8(2),
                Component::Normal(name) => name.hash(state),
            }
        }
    }
}

impl fmt::Display for Utf8Path<'_> {
    ghost use Rattle.std.specs.Prelude.{Some};
    ghost use Rattle.guppy_data.specs.Utf8Path.{path_text};

    ghost output = { λ p. Some (path_text p) };

    fn fmt<W: fmt::Write>(&self, f: &mut fmt::Formatter<W>) -> fmt::Result {
        f.write_str(self.as_str())
    }
}
