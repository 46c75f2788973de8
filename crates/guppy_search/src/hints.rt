//! Hints at where things stand in a list.
ghost use Rattle.std.specs.Prelude.{◌<◌, ◌^◌, true, length, IfSome};

use std::alloc::{AllocError, Global};

// How many places of the table a number names.
const TRIES: usize = 4;

// A place with no hint.
const NO_HINT: u32 = u32::MAX;

/// Positions in a list, each at one of the few places of a table that a number names. The number is made of what stands
/// at the position, as a hash is. Other things may have the same number, so a hint counts only where the list was looked
/// at, and the table may hold anything.
#[derive(Drop)]
pub struct Hints {
    table: Vec<u32>,
    ghost room: { 4 < length table.items },
}

impl Hints {
    ghost use Rattle.std.specs.Prelude.{◌≤◌, ◌+◌};

    /// No hints, in a table with room for so many. It should have some for each hint, so that most numbers have places
    /// of their own.
    ///
    /// Takes memory: four bytes for each of the room. Fails only where there is none.
    pub fn empty(alloc: Global, room: usize) -> Result<Hints, AllocError>
        requires { room < 2 ^ 63 }
    {
        Ok(Hints {
            table: vec![in alloc; NO_HINT; room + TRIES + 1]?,
        })
    }

    // The first of the places that the number names: it lies as far into the table as the number lies into all numbers,
    // since to multiply takes a tenth of the time that a division takes.
    fn first_place(&self, number: usize) -> usize
        ensures { result + 4 < length self.now.table.items }
    {
        let (_, place) = number.carrying_mul(self.table.len() - TRIES, 0);
        place
    }

    /// Puts a hint at the position at the first of the number's places that is free, and tells whether there is one.
    pub fn put(&mut self, number: usize, position: usize) -> bool
        requires { position < 2 ^ 32 }
    {
        let first = self.first_place(number);
        for place in first..first + TRIES {
            if self.table[place] == NO_HINT {
                self.table[place] = position as u32;
                return true;
            }
        }
        false
    }

    /// The position that is most likely what the number was made of. Nothing is looked at.
    pub fn guess(&self, number: usize) -> usize {
        self.table[self.first_place(number)] as usize
    }

    /// The first of the hints for the number that the test accepts. It is asked at most four times.
    pub fn find<F: Fn(usize) -> bool>(&self, number: usize, is_there: F) -> Option<usize>
        requires callable { F.IsAlwaysCallable is_there }
        ensures accepted { IfSome result (λ position. F.post is_there position true) }
    {
        let first = self.first_place(number);
        for place in first..first + TRIES {
            let position = self.table[place] as usize;
            if is_there(position) {
                return Some(position);
            }
        }
        None
    }
}
