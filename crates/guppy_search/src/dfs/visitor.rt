ghost use Rattle.std.specs.Prelude.{◌≡◌, ⊤, ℕ, Bool, List, [], ◌∷◌};

/// Is shown links by number, and answers whether to follow them.
pub trait LinkVisitor {
    // At a state and a link: the answers that may come, each with the state that it leaves.
    ghost visits: { Self → ℕ → Bool → Self → Type 0 };

    // Which references the visitor is, from the outside in; none for a value.
    ghost place: { Self → List ℕ } = { λ _. [] };

    // Holds of a state and a link that it may be shown there; by default each may.
    ghost can_visit: { Self → ℕ → Type 0 } = { λ _ _. ⊤ };

    /// Whether to follow the link.
    fn visit(&mut self, link: usize) -> bool
        requires { can_visit self.old link }
        ensures visits { visits self.old link result self.new }
        ensures same_place { place self.new ≡ place self.old };
}

impl<V: LinkVisitor> LinkVisitor for &mut V {
    ghost visits = { λ s n b t. V.visits s.now n b t.now × (t.ghost_name ≡ s.ghost_name) };

    ghost place = { λ s. s.ghost_name ∷ V.place s.now };

    ghost can_visit = { λ s n. V.can_visit s.now n };

    fn visit(&mut self, link: usize) -> bool {
        (**self).visit(link)
    }
}

/// Follows every link.
#[derive(Clone, Copy, Debug)]
pub(crate) struct AcceptAll;

impl LinkVisitor for AcceptAll {
    ghost use Rattle.std.specs.Prelude.{◌≡◌, true};

    ghost visits = { λ _ _ answer _. answer ≡ true };

    fn visit(&mut self, _link: usize) -> bool {
        true
    }
}
