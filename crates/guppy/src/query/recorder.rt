//! Resolves that tell their trace: `Recorder` as a visitor of packages.
ghost use Rattle.std.specs.Prelude.{◌≡◌, ℕ, ◌<◌, length, IfOk, IsOkUnless};
ghost use Rattle.guppy_search.specs.Resolve.{JudgesResolve, Visits};
ghost use Rattle.guppy.specs.Visitors.{VisitsAt, MayVisitAt};

use crate::link::PackageLink;
use crate::query::visitor::PackageLinkVisitor;
use crate::query::{PackageLinkContext, PackageQuery};
use crate::set::PackageSet;
use guppy_core::Recorder;
use guppy_data::Error;

/// Answers as the visitor inside it, and keeps each link that was shown, by number, with the answer.
impl<V: PackageLinkVisitor> PackageLinkVisitor for Recorder<V> {
    ghost use Rattle.std.specs.Prelude.{◌≡◌, ◌<◌, ◌≤◌, ◌++◌, ◌∷◌, [], length, vec_capacity};

    ghost visits = { λ s q l b t. V.visits s.visitor q l b t.visitor
        × (vec_capacity t.entries ≡ vec_capacity s.entries)
        × (length s.entries.items < vec_capacity s.entries
        → t.entries.items ≡ s.entries.items ++ (l.number, b) ∷ [])
        × (vec_capacity s.entries ≤ length s.entries.items → t.entries.items ≡ s.entries.items) };

    ghost place = { λ s. V.place s.visitor };

    ghost can_visit = { λ s q l. V.can_visit s.visitor q l };

    fn visit_link(&mut self, cx: &PackageLinkContext<'_>, link: PackageLink<'_>) -> bool {
        let answer = self.visitor.visit_link(cx, link);
        if self.entries.len() < self.entries.capacity() {
            self.entries.push_reserved((link.number, answer));
        }
        answer
    }
}

impl<'g> PackageQuery<'g> {
    /// As [`resolve_with`](PackageQuery::resolve_with), and the whole trace: each link that was
    /// shown, by number, with the visitor's answer, in the order in which they were shown.
    ///
    /// Time grows with the packages, and the links that leave the result. Takes memory for a number
    /// and a bit a package and an entry a link, and fails, with `OutOfMemory`, only where there is
    /// none. A [`Recorder`] that is lent to [`resolve_with_mut`](PackageQuery::resolve_with_mut) is as
    /// it was then.
    pub fn resolve_recorded<V: PackageLinkVisitor + Drop>(
        self,
        visitor: V,
    ) -> Result<(PackageSet<'g>, Recorder<V>), Error>
        requires ready { (n : ℕ) → n < length self.graph.links
            → MayVisitAt V.can_visit self visitor n }
        ensures graph { IfOk result (λ r. r.0.graph ≡ self.entry.graph) }
        ensures count { IfOk result (λ r. length r.0.included ≡ length self.entry.graph.packages) }
        ensures judged { IfOk result (λ r.
            JudgesResolve self.entry.direction self.entry.graph.links self.entry.initials
            r.1.entries.items r.0.included) }
        ensures visits { IfOk result
            (λ r. Visits (VisitsAt V.visits self.entry) visitor r.1.entries.items r.1.visitor) }
        ensures error { IsOkUnless result Error.OutOfMemory }
    {
        let graph = self.graph();
        let mut recorder = Recorder::new(graph.alloc(), visitor, graph.link_count())?;
        let set = self.resolve_with_mut(&mut recorder)?;
        Ok((set, recorder))
    }
}
