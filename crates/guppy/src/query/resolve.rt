//! What a query includes: over all links, or over those that a visitor accepts.
ghost use Rattle.std.specs.Prelude.{◌≡◌, ◌↔◌, ℕ, ◌<◌, Bool, List, length, IfOk, OnErr, IsOkUnless};
ghost use Rattle.guppy_search.specs.IxSet.{IsIn};
ghost use Rattle.guppy_search.specs.Reach.{LinkStep, ReachedFrom};
ghost use Rattle.guppy_search.specs.Resolve.{JudgesResolve, AcceptsAll, Visits, IsCallable};
ghost use Rattle.guppy.specs.Visitors.{VisitsAt, MayVisitAt, CallsAt, MayCallAt};

use crate::link::PackageLink;
use crate::query::visitor::PackageLinkVisitor;
use crate::query::{PackageLinkContext, PackageQuery};
use crate::set::PackageSet;
use guppy_core::{LinkVisitor, ResolveCore, reachable_with};
use guppy_data::Error;

// A visitor of the query, asked by link numbers.
#[derive(Drop)]
struct Asking<'v, 'a, 'g, V> {
    visitor: &'v mut V,
    context: &'a PackageLinkContext<'g>,
}

impl<V: PackageLinkVisitor> LinkVisitor for Asking<'_, '_, '_, V> {
    ghost use Rattle.std.specs.Prelude.{◌≡◌, ◌≢◌, ℕ, ◌<◌, ◌∷◌, length};
    ghost use Rattle.guppy.specs.Visitors.{VisitsAt, MayVisitAt};

    ghost visits = { λ s n b t. VisitsAt V.visits s.context.now s.visitor.now n b t.visitor.now
        × (t.context ≡ s.context)
        × ((m : ℕ) → m ≢ n → MayVisitAt V.can_visit s.context.now s.visitor.now m
        → MayVisitAt V.can_visit s.context.now t.visitor.now m) };

    ghost place = { λ s. s.visitor.ghost_name ∷ V.place s.visitor.now };

    ghost can_visit = { λ s n. (n < length s.context.now.graph.links)
        × MayVisitAt V.can_visit s.context.now s.visitor.now n };

    fn visit(&mut self, link: usize) -> bool {
        let context = self.context;
        let link = context.link_at(link);
        self.visitor.visit_link(context, link)
    }
}

// A closure, asked by link numbers.
#[derive(Drop)]
struct AskingClosure<'f, 'a, 'g, F> {
    ask: &'f mut F,
    context: &'a PackageLinkContext<'g>,
}

impl<'g, F: FnMut(&PackageLinkContext<'g>, PackageLink<'g>) -> bool> LinkVisitor
    for AskingClosure<'_, '_, 'g, F> {
    ghost use Rattle.std.specs.Prelude.{◌≡◌, ◌<◌, ◌∷◌, [], length};
    ghost use Rattle.guppy.specs.Visitors.{CallsAt, MayCallAt};

    ghost visits = { λ s n b t. CallsAt F.step s.context.now s.ask.now n b t.ask.now
        × (t.context ≡ s.context) };

    ghost place = { λ s. s.ask.ghost_name ∷ [] };

    ghost can_visit = { λ s n. (n < length s.context.now.graph.links)
        × MayCallAt F.pre s.context.now s.ask.now n };

    fn visit(&mut self, link: usize) -> bool {
        let context = self.context;
        let link = context.link_at(link);
        call(self.ask, context, link)
    }
}

// The closure's answer.
fn call<'g, F: FnMut(&PackageLinkContext<'g>, PackageLink<'g>) -> bool>(
    ask: &mut F,
    context: &PackageLinkContext<'g>,
    link: PackageLink<'g>,
) -> bool
    requires { F.pre ask.old context link }
    ensures { F.step ask.old context.entry link.entry result ask.new }
{
    ask(context, link)
}

impl<'g> PackageQuery<'g> {
    /// The packages that the initial ones lead to over all links in the query's direction, the
    /// initial ones among them.
    ///
    /// Time grows with the packages, and the links that leave the result. Takes memory for a number
    /// and a bit a package, and fails, with `OutOfMemory`, only where there is none.
    pub fn resolve(self) -> Result<PackageSet<'g>, Error>
        ensures graph { IfOk result (λ set. set.graph ≡ self.entry.graph) }
        ensures count { IfOk result (λ set. length set.included
            ≡ length self.entry.graph.packages) }
        ensures judged { IfOk result (λ set. (trace : List (ℕ × Bool))
            × JudgesResolve self.entry.direction self.entry.graph.links self.entry.initials trace
            set.included × AcceptsAll trace) }
        ensures reached { IfOk result (λ set. (p : ℕ)
            → IsIn set.included p ↔ ReachedFrom
            (LinkStep self.entry.direction self.entry.graph.links)
            (IsIn self.entry.initials) p) }
        ensures error { IsOkUnless result Error.OutOfMemory }
    {
        let graph = self.graph();
        let core = ResolveCore::new(graph.dep_graph(), self.initial_ixs(), self.direction())?;
        Ok(PackageSet { graph, core })
    }

    /// The packages that the initial ones lead to over the links that the visitor accepts, the
    /// initial ones among them. The visitor is shown each link that leaves one of these packages
    /// exactly once, after that package was included, and no other link. Refusing a link doesn't
    /// keep out a package that is reached otherwise.
    ///
    /// The visitor may be shown each link of the graph; one whose `can_visit` is the default always
    /// may. Time grows with the packages, and the links that leave the result. Takes memory for a number
    /// and a bit a package, and fails, with `OutOfMemory`, only where there is none. What the visitor
    /// is like at the end, also then, is told by
    /// [`resolve_with_mut`](PackageQuery::resolve_with_mut).
    pub fn resolve_with<V: PackageLinkVisitor + Drop>(
        self,
        mut visitor: V,
    ) -> Result<PackageSet<'g>, Error>
        requires ready { (n : ℕ) → n < length self.graph.links
            → MayVisitAt V.can_visit self visitor n }
        ensures graph { IfOk result (λ set. set.graph ≡ self.entry.graph) }
        ensures count { IfOk result (λ set. length set.included
            ≡ length self.entry.graph.packages) }
        ensures judged { IfOk result (λ set. (trace : List (ℕ × Bool)) × (last : V)
            × JudgesResolve self.entry.direction self.entry.graph.links self.entry.initials trace
            set.included
            × Visits (VisitsAt V.visits self.entry) visitor trace last) }
        ensures error { IsOkUnless result Error.OutOfMemory }
    {
        let set = self.resolve_with_mut(&mut visitor)?;
        Ok(set)
    }

    /// As [`resolve_with`](PackageQuery::resolve_with), with a visitor that is lent: at the end it is
    /// as the links that it was shown left it, and where there is no memory it is as it was.
    pub fn resolve_with_mut<V: PackageLinkVisitor>(
        self,
        visitor: &mut V,
    ) -> Result<PackageSet<'g>, Error>
        requires ready { (n : ℕ) → n < length self.graph.links
            → MayVisitAt V.can_visit self visitor.old n }
        ensures graph { IfOk result (λ set. set.graph ≡ self.entry.graph) }
        ensures count { IfOk result (λ set. length set.included
            ≡ length self.entry.graph.packages) }
        ensures judged { IfOk result (λ set. (trace : List (ℕ × Bool))
            × JudgesResolve self.entry.direction self.entry.graph.links self.entry.initials trace
            set.included
            × Visits (VisitsAt V.visits self.entry) visitor.old trace visitor.new) }
        ensures same_place { V.place visitor.new ≡ V.place visitor.old }
        ensures not_begun { OnErr result (visitor.new ≡ visitor.old) }
        ensures error { IsOkUnless result Error.OutOfMemory }
    {
        let context = PackageLinkContext { query: self };
        let mut asking = Asking {
            visitor,
            context: &context,
        };
        let set = resolve_by_number(&context, &mut asking)?;
        Ok(set)
    }

    /// As [`resolve_with`](PackageQuery::resolve_with), with a closure in the visitor's place. It takes
    /// what it is called with: a context of this query, and each link that leaves one of these packages,
    /// once, after that package was included.
    pub fn resolve_with_fn<F: FnMut(&PackageLinkContext<'g>, PackageLink<'g>) -> bool>(
        self,
        mut ask: F,
    ) -> Result<PackageSet<'g>, Error>
        requires callable { IsCallable (MayCallAt F.pre self) (CallsAt F.step self)
            self.direction self.graph.links self.initials ask }
        ensures graph { IfOk result (λ set. set.graph ≡ self.entry.graph) }
        ensures count { IfOk result (λ set. length set.included
            ≡ length self.entry.graph.packages) }
        ensures judged { IfOk result (λ set. (trace : List (ℕ × Bool)) × (last : F)
            × JudgesResolve self.entry.direction self.entry.graph.links self.entry.initials trace
            set.included
            × Visits (CallsAt F.step self.entry) ask trace last) }
        ensures error { IsOkUnless result Error.OutOfMemory }
    {
        let set = self.resolve_with_fn_mut(&mut ask)?;
        Ok(set)
    }

    /// As [`resolve_with_fn`](PackageQuery::resolve_with_fn), with a closure that is lent: at the end
    /// it is as its calls left it, and where there is no memory it is as it was.
    pub fn resolve_with_fn_mut<F: FnMut(&PackageLinkContext<'g>, PackageLink<'g>) -> bool>(
        self,
        ask: &mut F,
    ) -> Result<PackageSet<'g>, Error>
        requires callable { IsCallable (MayCallAt F.pre self) (CallsAt F.step self)
            self.direction self.graph.links self.initials ask.old }
        ensures graph { IfOk result (λ set. set.graph ≡ self.entry.graph) }
        ensures count { IfOk result (λ set. length set.included
            ≡ length self.entry.graph.packages) }
        ensures judged { IfOk result (λ set. (trace : List (ℕ × Bool))
            × JudgesResolve self.entry.direction self.entry.graph.links self.entry.initials trace
            set.included
            × Visits (CallsAt F.step self.entry) ask.old trace ask.new) }
        ensures not_called { OnErr result (ask.new ≡ ask.old) }
        ensures error { IsOkUnless result Error.OutOfMemory }
    {
        let context = PackageLinkContext { query: self };
        let mut asking = AskingClosure {
            ask,
            context: &context,
        };
        let set = resolve_by_number(&context, &mut asking)?;
        Ok(set)
    }
}

// The packages that the initial ones of the context's query lead to over the links that the visitor
// accepts. It is shown them by number.
fn resolve_by_number<'g, V: LinkVisitor>(
    context: &PackageLinkContext<'g>,
    visitor: &mut V,
) -> Result<PackageSet<'g>, Error>
    requires ready { IsCallable V.can_visit V.visits
        context.now.direction context.now.graph.links context.now.initials visitor.old }
    ensures graph { IfOk result (λ set. set.graph ≡ context.now.graph) }
    ensures count { IfOk result (λ set. length set.included ≡ length context.now.graph.packages) }
    ensures judged { IfOk result (λ set. (trace : List (ℕ × Bool))
        × JudgesResolve context.now.direction context.now.graph.links context.now.initials trace
        set.included
        × Visits V.visits visitor.old trace visitor.new) }
    ensures same_place { V.place visitor.new ≡ V.place visitor.old }
    ensures not_begun { OnErr result (visitor.new ≡ visitor.old) }
    ensures error { IsOkUnless result Error.OutOfMemory }
{
    let query = context.query();
    let graph = query.graph();
    let included = reachable_with(
        graph.dep_graph(),
        query.initial_ixs(),
        query.direction(),
        visitor,
    )?;
    Ok(PackageSet {
        graph,
        core: ResolveCore::from_included(included),
    })
}
