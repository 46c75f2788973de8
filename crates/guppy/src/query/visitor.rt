//! The visitors of a query.
ghost use Rattle.std.specs.Prelude.{◌≡◌, ◌≢◌, ⊤, ℕ, Bool, List, [], ◌∷◌};
ghost use Rattle.guppy.specs.Query.{QueryData};
ghost use Rattle.guppy.specs.Views.{LinkData, link_data};

use crate::link::PackageLink;
use crate::query::PackageLinkContext;

/// Is shown links of a query's graph, and answers whether to follow them.
///
/// An implementation states what it does: `visits` relates its state, the query, the link, the
/// answer and its next state. Its answer may depend on its state. The borrows that it is given end
/// with the call, so a visitor that remembers a link keeps its number.
pub trait PackageLinkVisitor {
    // At a state, a query and a link: the answers that may come, each with the state that it leaves.
    ghost visits: { Self → QueryData → LinkData → Bool → Self → Type 0 };

    // Which references the visitor is, from the outside in; none for a value.
    ghost place: { Self → List ℕ } = { λ _. [] };

    // Holds of a state, a query and a link that it may be shown there; by default each may. What may
    // be shown may be shown after other links too.
    ghost can_visit: { Self → QueryData → LinkData → Type 0 } = { λ _ _ _. ⊤ };

    /// Whether to follow the link.
    fn visit_link(&mut self, cx: &PackageLinkContext<'_>, link: PackageLink<'_>) -> bool
        requires { can_visit self.old cx.now (link_data link) }
        ensures visits { visits self.old cx.now (link_data link.entry) result self.new }
        ensures others { (l : LinkData) → l ≢ link_data link.entry
            → can_visit self.old cx.now l → can_visit self.new cx.now l }
        ensures same_place { place self.new ≡ place self.old };
}

impl<V: PackageLinkVisitor> PackageLinkVisitor for &mut V {
    ghost visits = { λ s q l b t. V.visits s.now q l b t.now × (t.ghost_name ≡ s.ghost_name) };

    ghost place = { λ s. s.ghost_name ∷ V.place s.now };

    ghost can_visit = { λ s q l. V.can_visit s.now q l };

    fn visit_link(&mut self, cx: &PackageLinkContext<'_>, link: PackageLink<'_>) -> bool {
        (**self).visit_link(cx, link)
    }
}

impl PackageLinkVisitor for &mut dyn PackageLinkVisitor {
    ghost visits = { λ s q l b t. (v : _) × (PackageLinkVisitor-dyn s.now).visits s.now.1 q l b v
        × (t.now ≡ (s.now.0, v)) × (t.ghost_name ≡ s.ghost_name) };

    ghost place = { λ s. s.ghost_name ∷ (PackageLinkVisitor-dyn s.now).place s.now.1 };

    ghost can_visit = { λ s q l. (PackageLinkVisitor-dyn s.now).can_visit s.now.1 q l };

    fn visit_link(&mut self, cx: &PackageLinkContext<'_>, link: PackageLink<'_>) -> bool {
        (**self).visit_link(cx, link)
    }
}

impl PackageLinkVisitor for Box<dyn PackageLinkVisitor + Drop> {
    ghost visits = { λ s q l b t. (v : _) × (PackageLinkVisitor-box s).visits s.value q l b v
        × (t ≡ record s { value = v }) };

    ghost can_visit = { λ s q l. (PackageLinkVisitor-box s).can_visit s.value q l };

    fn visit_link(&mut self, cx: &PackageLinkContext<'_>, link: PackageLink<'_>) -> bool {
        (**self).visit_link(cx, link)
    }
}
