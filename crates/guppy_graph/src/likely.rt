//! A guess at the order of IDs.
ghost use Rattle.std.specs.Prelude.{◌≡◌, IfOk, length, map};
ghost use Rattle.std.specs.List.{range_with_len};
ghost use Rattle.std.specs.List.Sorted.{IsPermutation};

use crate::keys::Ids;
use std::alloc::{AllocError, Global};

// The beginning that both have.
fn shared<'a>(front: &'a [u8], text: &[u8]) -> &'a [u8] {
    let alike = front
        .iter()
        .zip(text)
        .take_while(|(own, other)| own == other);
    front.get(..alike.count()).unwrap_or(front)
}

// How many bytes all IDs begin with.
fn shared_length(ids: &Ids<'_>) -> usize {
    let Some(first) = ids.text_at(0) else {
        return 0;
    };
    let mut front = first.as_bytes();
    for position in 1..ids.packages.len() {
        if let Some(id) = ids.text_at(position) {
            if !id.as_bytes().starts_with(front) {
                front = shared(front, id.as_bytes());
            }
        }
    }
    front.len()
}

// The eight bytes of the text from the place on, as a number that grows with them.
fn rank_of(text: &str, place: usize) -> u64 {
    let mut rank = [0u8; 8];
    let rest = text.as_bytes().get(place..).unwrap_or(&[]);
    for (byte, own) in rank.iter_mut().zip(rest) {
        *byte = *own;
    }
    u64::from_be_bytes(rank)
}

// The positions that have these ranks.
fn positions_of(alloc: Global, ranks: &[(u64, usize)]) -> Result<Vec<usize>, AllocError>
    ensures { IfOk result (λ positions. positions.items ≡ map (λ rank. rank.1) ranks.now) }
{
    ranks
        .iter()
        .map(
            |rank: &(u64, usize)| -> usize
                ensures { result ≡ rank.now.1 }
            { rank.1 },
        )
        .collect(alloc)
}

/// All positions, most likely in the order of the IDs: in that of eight bytes behind those that all IDs begin with.
/// Numbers side by side are sorted faster than texts that lie far apart. Whether the guess is right is left to see.
pub(crate) fn likely_order(alloc: Global, ids: &Ids<'_>) -> Result<Vec<usize>, AllocError>
    ensures { IfOk result (λ order. IsPermutation
        (range_with_len 0 (length ids.now.packages.now)) order.items) }
{
    let place = shared_length(ids);
    let mut ranks = Vec::with_capacity(alloc, ids.packages.len())?;
    for position in 0..ids.packages.len() {
        let id = ids.text_at(position).unwrap_or("");
        ranks.push((rank_of(id, place), position))?;
    }
    ranks.sort_unstable_by_key(|rank: &(u64, usize)| -> u64 { rank.0 });
    positions_of(alloc, ranks.as_slice())
}
