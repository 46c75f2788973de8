ghost use Rattle.std.specs.Prelude.{◌≡◌};

use crate::ix::DependencyDirection;

/// A link from one position to another, with its data.
#[derive(Drop)]
pub struct Link<E> {
    /// The position that it leaves, Forward.
    pub from: usize,
    /// The position that it leads to, Forward.
    pub to: usize,
    /// Its data.
    pub edge: E,
}

// Of a link with nothing on it the ends alone take room.
const _: () = prove!(size_of::<Link<()>>() == 2 * size_of::<usize>());

impl<E> Link<E> {
    ghost use Rattle.guppy_search.specs.Links.{near_end, far_end, is_unknown};

    /// The end that the link leaves in the direction.
    pub fn near_end(&self, direction: DependencyDirection) -> usize
        ensures { result ≡ near_end direction self.now }
    {
        match direction {
            DependencyDirection::Forward => self.from,
            DependencyDirection::Reverse => self.to,
        }
    }

    /// The end that the link leads to in the direction.
    pub fn far_end(&self, direction: DependencyDirection) -> usize
        ensures { result ≡ far_end direction self.now }
    {
        match direction {
            DependencyDirection::Forward => self.to,
            DependencyDirection::Reverse => self.from,
        }
    }

    /// Whether an end is no position below the count.
    pub(crate) fn has_unknown_end(&self, count: usize) -> bool
        ensures { result ≡ is_unknown count self.now }
    {
        self.from >= count || self.to >= count
    }
}
