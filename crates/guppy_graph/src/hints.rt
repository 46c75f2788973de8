//! Hints at where the package with an ID is.
ghost use Rattle.std.specs.Prelude.{◌≤◌, length, IsTrue};

use crate::keys::{Ids, position_of_id};
use guppy_data::PackageId;
use guppy_search::Hints;
use std::alloc::{AllocError, Global};

// How many places the table has for each package: so many that most IDs have their first place to themselves.
const ROOM: usize = 4;

// What the first hash of an ID is mixed with, and what the second one is.
const FACTORS: [usize; 2] = [0x9E37_79B9_7F4A_7C15, 0xC2B2_AE3D_27D4_EB4F];

/// Positions of packages by the two hashes of their IDs. A hint counts only where the package there has the ID.
#[derive(Drop)]
pub(crate) struct IdHints {
    hints: Hints,
}

// A number made of the text, eight bytes at a time. No contract needs anything of it.
fn hash_of(text: &str, factor: usize) -> usize {
    let (words, rest) = text.as_bytes().as_chunks::<8>();
    let mut hash = 0;
    for word in words.iter() {
        hash = mixed(hash ^ usize::from_le_bytes(*word), factor);
    }
    for byte in rest.iter() {
        hash = hash.rotate_left(8) ^ usize::from(*byte);
    }
    mixed(hash, factor)
}

// A number in which each bit of the given one shows in high bits and in low ones.
fn mixed(number: usize, factor: usize) -> usize {
    let product = number.wrapping_mul(factor);
    product ^ product >> 32
}

impl IdHints {
    ghost use Rattle.std.specs.Prelude.{◌<◌, ◌^◌, IfSome, MatchOption};
    ghost use Rattle.guppy_graph.specs.Keys.{NoneBelow};
    ghost use Rattle.guppy_graph.specs.Ids.{HasId};
    ghost use Rattle.guppy_graph.specs.Indexes.{IsIdIndex};

    /// Hints for all packages but those whose places are taken.
    pub(crate) fn new(alloc: Global, ids: &Ids<'_>) -> Result<IdHints, AllocError>
        requires { length ids.now.packages.now ≤ 4294967295 }
    {
        let count = ids.packages.len();
        let mut hints = IdHints {
            hints: Hints::empty(alloc, ROOM * count)?,
        };
        for position in 0..count {
            if let Some(id) = ids.text_at(position) {
                hints.put(id, position);
            }
        }
        Ok(hints)
    }

    // Puts the position at the first of the places for the ID that is free.
    fn put(&mut self, id: &str, position: usize)
        requires { position < 2 ^ 32 }
    {
        for factor in FACTORS {
            if self.hints.put(hash_of(id, factor), position) {
                return;
            }
        }
    }

    /// The position that is most likely the ID's. Nothing is compared.
    pub(crate) fn guess(&self, id: &PackageId) -> usize {
        self.hints.guess(hash_of(id.repr(), FACTORS[0]))
    }

    // The package with the ID, if there is a hint at it at a place of the hash.
    fn hinted_by(&self, ids: &Ids<'_>, id: &str, factor: usize) -> Option<usize>
        ensures { IfSome result (HasId ids.now.packages.now id.now) }
    {
        self.hints.find(
            hash_of(id, factor),
            |position: usize| -> bool
                ensures { IsTrue result → HasId ids.entry.now.packages.now id.entry.now position }
            { ids.has_id(position, id) },
        )
    }

    // The package with the ID, if there is a hint at it.
    fn hinted(&self, ids: &Ids<'_>, id: &str) -> Option<usize>
        ensures { IfSome result (HasId ids.now.packages.now id.now) }
    {
        for factor in FACTORS {
            if let Some(position) = self.hinted_by(ids, id, factor) {
                return Some(position);
            }
        }
        None
    }

    /// A package with the ID. Takes at most eight comparisons, and where no hint holds a logarithm of the
    /// packages more.
    pub(crate) fn find(&self, ids: &Ids<'_>, by_id: &[usize], id: &PackageId) -> Option<usize>
        requires { IsIdIndex ids.now.packages.now by_id.now }
        ensures { let packages = ids.now.packages.now in
            MatchOption result (NoneBelow (HasId packages) id.now (length packages))
            (HasId packages id.now) }
    {
        match self.hinted(ids, id.repr()) {
            Some(position) => Some(position),
            None => position_of_id(ids, by_id, id),
        }
    }

    /// The same, where the guess is compared before all.
    pub(crate) fn find_from(
        &self,
        ids: &Ids<'_>,
        by_id: &[usize],
        id: &PackageId,
        guess: usize,
    ) -> Option<usize>
        requires { IsIdIndex ids.now.packages.now by_id.now }
        ensures { let packages = ids.now.packages.now in
            MatchOption result (NoneBelow (HasId packages) id.now (length packages))
            (HasId packages id.now) }
    {
        if ids.has_id(guess, id.repr()) {
            return Some(guess);
        }
        self.find(ids, by_id, id)
    }
}
