//! Parts of a set, by what a callback answers about its packages.
ghost use Rattle.std.specs.Prelude.{◌≡◌, ℕ, length, Bool, true, false, Option, Some, List, IfOk, OnErr, IsOkUnless};
ghost use Rattle.guppy.specs.Listed.{positions_listed};
ghost use Rattle.guppy.specs.Asked.{asked_about, Answers, IsAskable, AreAnswered, AreHalves};

use crate::metadata::PackageMetadata;
use crate::package_graph::Packages;
use crate::set::PackageSet;
use guppy_core::{DependencyDirection, IxSet, ResolveCore};
use guppy_data::Error;

// The callback's answer about the package.
fn answer_of<'g, A, F: FnMut(PackageMetadata<'g>) -> A>(
    callback: &mut F,
    package: PackageMetadata<'g>,
) -> A
    requires { F.pre callback.old «package» }
    ensures { F.step callback.old «package».entry result callback.new }
{
    callback(package)
}

impl<'g> PackageSet<'g> {
    /// The packages of the set about which the callback answers true. It is called once with each
    /// package of the set, in the order in which `packages` lists them in that direction, and its
    /// answers may change from call to call.
    ///
    /// The callback may be called with each of these packages, after such calls about those before it.
    /// Time grows with the packages of the graph. Takes memory for a bit a package, and fails, with
    /// `OutOfMemory`, only where there is none. What the callback is like at the end, also then, is
    /// told by [`filter_mut`](PackageSet::filter_mut).
    pub fn filter<F: FnMut(PackageMetadata<'g>) -> bool>(
        &self,
        direction: DependencyDirection,
        mut callback: F,
    ) -> Result<PackageSet<'g>, Error>
        requires callable { IsAskable F.pre F.step self.now.graph
            (positions_listed direction self.now) callback }
        ensures graph { IfOk result (λ set. set.graph ≡ self.now.graph) }
        ensures count { IfOk result (λ set. length set.included ≡ length self.now.graph.packages) }
        ensures asked { IfOk result (λ set. (answers : List (ℕ × Bool)) × (last : F)
            × (asked_about answers ≡ positions_listed direction self.now)
            × Answers F.step self.now.graph callback answers last
            × AreAnswered answers true set.included) }
        ensures error { IsOkUnless result Error.OutOfMemory }
    {
        let set = self.filter_mut(direction, &mut callback)?;
        Ok(set)
    }

    /// As [`filter`](PackageSet::filter), with a callback that is lent: at the end it is as its calls
    /// left it, and where there is no memory it is as it was, since it was not called.
    pub fn filter_mut<F: FnMut(PackageMetadata<'g>) -> bool>(
        &self,
        direction: DependencyDirection,
        callback: &mut F,
    ) -> Result<PackageSet<'g>, Error>
        requires callable { IsAskable F.pre F.step self.now.graph
            (positions_listed direction self.now) callback.old }
        ensures graph { IfOk result (λ set. set.graph ≡ self.now.graph) }
        ensures count { IfOk result (λ set. length set.included ≡ length self.now.graph.packages) }
        ensures asked { IfOk result (λ set. (answers : List (ℕ × Bool))
            × (asked_about answers ≡ positions_listed direction self.now)
            × Answers F.step self.now.graph callback.old answers callback.new
            × AreAnswered answers true set.included) }
        ensures not_called { OnErr result (callback.new ≡ callback.old) }
        ensures error { IsOkUnless result Error.OutOfMemory }
    {
        let mut kept = IxSet::empty(self.graph.alloc(), self.graph.package_count())?;
        for package in self.packages(direction) {
            if answer_of(callback, package) {
                kept.insert(package.package_ix());
            }
        }
        Ok(self.part(kept))
    }

    /// The packages of the set about which the callback answers true, and the others. It is called
    /// once with each package of the set, in the order in which `packages` lists them in that
    /// direction, and its answers may change from call to call.
    ///
    /// The callback may be called with each of these packages, after such calls about those before it.
    /// Time grows with the packages of the graph. Takes memory for two bits a package, and fails, with
    /// `OutOfMemory`, only where there is none. What the callback is like at the end, also then, is
    /// told by [`partition_mut`](PackageSet::partition_mut).
    pub fn partition<F: FnMut(PackageMetadata<'g>) -> bool>(
        &self,
        direction: DependencyDirection,
        mut callback: F,
    ) -> Result<(PackageSet<'g>, PackageSet<'g>), Error>
        requires callable { IsAskable F.pre F.step self.now.graph
            (positions_listed direction self.now) callback }
        ensures first_graph { IfOk result (λ halves. halves.0.graph ≡ self.now.graph) }
        ensures second_graph { IfOk result (λ halves. halves.1.graph ≡ self.now.graph) }
        ensures first_count { IfOk result
            (λ halves. length halves.0.included ≡ length self.now.graph.packages) }
        ensures second_count { IfOk result
            (λ halves. length halves.1.included ≡ length self.now.graph.packages) }
        ensures asked { IfOk result (λ halves. (answers : List (ℕ × Bool)) × (last : F)
            × (asked_about answers ≡ positions_listed direction self.now)
            × Answers F.step self.now.graph callback answers last
            × AreAnswered answers true halves.0.included
            × AreAnswered answers false halves.1.included) }
        ensures halves { IfOk result
            (λ halves. AreHalves self.now.included halves.0.included halves.1.included) }
        ensures error { IsOkUnless result Error.OutOfMemory }
    {
        let halves = self.partition_mut(direction, &mut callback)?;
        Ok(halves)
    }

    /// As [`partition`](PackageSet::partition), with a callback that is lent: at the end it is as its
    /// calls left it, and where there is no memory it is as it was, since it was not called.
    pub fn partition_mut<F: FnMut(PackageMetadata<'g>) -> bool>(
        &self,
        direction: DependencyDirection,
        callback: &mut F,
    ) -> Result<(PackageSet<'g>, PackageSet<'g>), Error>
        requires callable { IsAskable F.pre F.step self.now.graph
            (positions_listed direction self.now) callback.old }
        ensures first_graph { IfOk result (λ halves. halves.0.graph ≡ self.now.graph) }
        ensures second_graph { IfOk result (λ halves. halves.1.graph ≡ self.now.graph) }
        ensures first_count { IfOk result
            (λ halves. length halves.0.included ≡ length self.now.graph.packages) }
        ensures second_count { IfOk result
            (λ halves. length halves.1.included ≡ length self.now.graph.packages) }
        ensures asked { IfOk result (λ halves. (answers : List (ℕ × Bool))
            × (asked_about answers ≡ positions_listed direction self.now)
            × Answers F.step self.now.graph callback.old answers callback.new
            × AreAnswered answers true halves.0.included
            × AreAnswered answers false halves.1.included) }
        ensures halves { IfOk result
            (λ halves. AreHalves self.now.included halves.0.included halves.1.included) }
        ensures not_called { OnErr result (callback.new ≡ callback.old) }
        ensures error { IsOkUnless result Error.OutOfMemory }
    {
        let mut accepted = IxSet::empty(self.graph.alloc(), self.graph.package_count())?;
        let mut refused = IxSet::empty(self.graph.alloc(), self.graph.package_count())?;
        for package in self.packages(direction) {
            if answer_of(callback, package) {
                accepted.insert(package.package_ix());
            } else {
                refused.insert(package.package_ix());
            }
        }
        Ok((self.part(accepted), self.part(refused)))
    }

    /// The packages of the set about which the callback answers `Some(true)`, and those about which
    /// it answers `Some(false)`. It is called once with each package of the set, in the order in which
    /// `packages` lists them in that direction, and its answers may change from call to call.
    ///
    /// The callback may be called with each of these packages, after such calls about those before it.
    /// Time grows with the packages of the graph. Takes memory for two bits a package, and fails, with
    /// `OutOfMemory`, only where there is none. What the callback is like at the end, also then, is
    /// told by [`filter_partition_mut`](PackageSet::filter_partition_mut).
    pub fn filter_partition<F: FnMut(PackageMetadata<'g>) -> Option<bool>>(
        &self,
        direction: DependencyDirection,
        mut callback: F,
    ) -> Result<(PackageSet<'g>, PackageSet<'g>), Error>
        requires callable { IsAskable F.pre F.step self.now.graph
            (positions_listed direction self.now) callback }
        ensures first_graph { IfOk result (λ halves. halves.0.graph ≡ self.now.graph) }
        ensures second_graph { IfOk result (λ halves. halves.1.graph ≡ self.now.graph) }
        ensures first_count { IfOk result
            (λ halves. length halves.0.included ≡ length self.now.graph.packages) }
        ensures second_count { IfOk result
            (λ halves. length halves.1.included ≡ length self.now.graph.packages) }
        ensures asked { IfOk result (λ halves. (answers : List (ℕ × Option Bool)) × (last : F)
            × (asked_about answers ≡ positions_listed direction self.now)
            × Answers F.step self.now.graph callback answers last
            × AreAnswered answers (Some true) halves.0.included
            × AreAnswered answers (Some false) halves.1.included) }
        ensures error { IsOkUnless result Error.OutOfMemory }
    {
        let halves = self.filter_partition_mut(direction, &mut callback)?;
        Ok(halves)
    }

    /// As [`filter_partition`](PackageSet::filter_partition), with a callback that is lent: at the end
    /// it is as its calls left it, and where there is no memory it is as it was, since it was not
    /// called.
    pub fn filter_partition_mut<F: FnMut(PackageMetadata<'g>) -> Option<bool>>(
        &self,
        direction: DependencyDirection,
        callback: &mut F,
    ) -> Result<(PackageSet<'g>, PackageSet<'g>), Error>
        requires callable { IsAskable F.pre F.step self.now.graph
            (positions_listed direction self.now) callback.old }
        ensures first_graph { IfOk result (λ halves. halves.0.graph ≡ self.now.graph) }
        ensures second_graph { IfOk result (λ halves. halves.1.graph ≡ self.now.graph) }
        ensures first_count { IfOk result
            (λ halves. length halves.0.included ≡ length self.now.graph.packages) }
        ensures second_count { IfOk result
            (λ halves. length halves.1.included ≡ length self.now.graph.packages) }
        ensures asked { IfOk result (λ halves. (answers : List (ℕ × Option Bool))
            × (asked_about answers ≡ positions_listed direction self.now)
            × Answers F.step self.now.graph callback.old answers callback.new
            × AreAnswered answers (Some true) halves.0.included
            × AreAnswered answers (Some false) halves.1.included) }
        ensures not_called { OnErr result (callback.new ≡ callback.old) }
        ensures error { IsOkUnless result Error.OutOfMemory }
    {
        let mut accepted = IxSet::empty(self.graph.alloc(), self.graph.package_count())?;
        let mut refused = IxSet::empty(self.graph.alloc(), self.graph.package_count())?;
        for package in self.packages(direction) {
            match answer_of(callback, package) {
                Some(true) => {
                    accepted.insert(package.package_ix());
                }
                Some(false) => {
                    refused.insert(package.package_ix());
                }
                None => {}
            }
        }
        Ok((self.part(accepted), self.part(refused)))
    }

    // The set of the set's graph with these positions.
    fn part(&self, included: IxSet<Packages>) -> PackageSet<'g>
        requires { length included ≡ length self.now.graph.packages }
        ensures graph { result.graph ≡ self.now.graph }
        ensures included { result.included ≡ included }
    {
        PackageSet {
            graph: self.graph,
            core: ResolveCore::from_included(included),
        }
    }
}
