use guppy_search::{EdgeDfs, GraphSpec};
use std::marker::Model;

/// The links of a set that are walked from its roots, those that are still to come: each with its
/// `from`, its `to` and its number.
#[derive(Drop)]
pub struct Links<'g, G: GraphSpec> {
    pub(crate) edges: EdgeDfs<'g, G>,
}

impl<'g, G: GraphSpec> Model for Links<'g, G> {
    ghost use Rattle.std.specs.Prelude.{List};
    ghost use Rattle.guppy_search.specs.Walked.{LinkEnds};

    ghost Value = { List LinkEnds };

    ghost view = { λ s. s.edges };
}

impl<G: GraphSpec> Iterator for Links<'_, G> {
    type Item = (G::Ix, G::Ix, usize);

    ghost use Rattle.std.specs.Prelude.{◌≡◌};
    ghost use Rattle.std.specs.Iterator.{YieldsFirstBy, item_count};
    ghost use Rattle.guppy_search.specs.Walked.{LinkEnds};

    ghost next_gives = { YieldsFirstBy
        (λ l. let ends : LinkEnds = record
        { from = G.Ix.index_of l.0; to = G.Ix.index_of l.1; number = l.2 } in ends) (λ s. s) };

    ghost remaining = { item_count (λ s. s) };

    fn next(&mut self) -> Option<(G::Ix, G::Ix, usize)> {
        self.edges.next()
    }
}
