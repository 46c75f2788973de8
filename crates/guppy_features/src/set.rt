//! What Cargo resolves.
ghost use Rattle.std.specs.Prelude.{◌≡◌, ◌↔◌, ◌<◌, All, Contains, IfOk, IsTrue, is_some, length};
ghost use Rattle.std.specs.Option.{IfSome};
ghost use Rattle.std.specs.List.Sorted.{IsStrictlySortedBy};
ghost use Rattle.guppy_closure.specs.Relations.{HoldsBy};
ghost use Rattle.guppy_features.specs.FactOrder.{fact_cmp};
ghost use Rattle.guppy_features.specs.declared.fact.Fact.{Fact};
ghost use Rattle.guppy_features.specs.Questions.{question, question_of};
ghost use Rattle.guppy_features.specs.Follows.{FollowsFor};
ghost use Rattle.guppy_features.specs.Reasons.{AreReasons, AreWays, EndsIn, AreNeeded};

use crate::fact::Fact;
use crate::options::CargoOptions;
use crate::question::Asked;
use crate::reason::{Reason, reasons_of, ways_of};
use guppy_closure::{ClosureFault, Known};
use guppy_graph::RecordGraph;
use std::alloc::{AllocError, Global};
use std::marker::Model;

/// What holds of the packages of a graph, for one question: which take part, on which side, with which features.
#[derive(Drop)]
pub struct CargoSet<'a> {
    asked: Asked<'a>,
    known: Known<Fact>,
}

impl<'a> Model for CargoSet<'a> {
    ghost use Rattle.guppy_closure.specs.Relations.{AreClausesOf};
    ghost use Rattle.guppy_features.specs.Questions.{Question, question_of};
    ghost use Rattle.guppy_features.specs.Follows.{FollowsFor};
    ghost use Rattle.guppy_graph.specs.contracts.graph.RecordGraph as of_graph;
    ghost use Rattle.guppy_features.specs.contracts.options.CargoOptions as of_options;
    ghost use Rattle.std.specs.Coded.{codes};
    ghost use denote.Signature.{static_lft};

    ghost Value = { Question };

    ghost coded = { Prim.hlevel (codes, of_graph.the_row.coded, (of_options.the_row static_lft).coded) };

    ghost view = { λ s. question_of s.asked };

    ghost invariant = { λ s. AreClausesOf (FollowsFor (question_of s.asked)) s.known };
}

impl<'a> CargoSet<'a> {
    /// What holds for what is asked, which [`contains`](Self::contains) tells. The positions of the chosen packages are
    /// those of packages of the graph.
    ///
    /// The metadata that the graph is made of has to be that of `cargo metadata --all-features`, read with its details:
    /// dependencies that aren't resolved in it take no part.
    ///
    /// Fails with `TooManyClauses` where there would be 2^30 or more, and else with `OutOfMemory` only where there is
    /// none. Clauses are as many as links, features asked for by links, and values of features, twice, a value `x/F`
    /// counted for each part that a dependency named `x` has, and once for each link of its package it is looked at.
    /// Time grows with these, times the logarithm of the clauses, by which facts are sorted and found, and with the
    /// chosen packages for each link with a dev-dependency. Takes memory for them, some 250 bytes a clause, and room for
    /// six clauses a link and four a feature at least.
    pub fn new(graph: &'a RecordGraph, options: &'a CargoOptions<'a>) -> Result<Self, ClosureFault>
        requires { All (λ i. i.position < length graph.now.packages) options.now.initials.items }
        ensures { IfOk result (λ set. set ≡ question graph.now options.now) }
    {
        let asked = Asked { graph, options };
        let known = Known::new(graph.alloc(), asked.clauses()?)?;
        Ok(CargoSet { asked, known })
    }

    /// What is asked, and of which graph.
    pub fn asked(&self) -> Asked<'a>
        ensures { question_of result ≡ self.now }
    {
        self.asked
    }

    /// Whether the fact holds, as Cargo resolves what is asked. Takes of the order of log n comparisons for n facts that
    /// are named, and no memory.
    pub fn contains(&self, fact: Fact) -> bool
        ensures { IsTrue result ↔ HoldsBy (FollowsFor self.now) fact }
    {
        self.known.holds(&fact)
    }

    /// Why the fact holds, or `None` where it doesn't: who asks for it, in steps, each behind those whose facts its own
    /// follows from, and the last one with this fact. Nothing that it doesn't need is told, and no fact twice.
    ///
    /// A step whose fact follows from nothing is asked for of a chosen package. Else a feature that is on is asked for
    /// by the feature that it follows from, or by a dependency that is used: one of a package that takes part, or an
    /// optional one that is switched on.
    ///
    /// Time grows with the facts that hold. Takes memory for a bit a fact and some 120 bytes a step, and fails only
    /// where there is none.
    pub fn why(&self, alloc: Global, fact: Fact) -> Result<Option<Vec<Reason>>, AllocError>
        ensures holds { IfOk result (λ reasons.
            IsTrue (is_some reasons) ↔ HoldsBy (FollowsFor self.now) fact) }
        ensures order { IfOk result (λ reasons. IfSome reasons (λ steps.
            AreReasons (FollowsFor self.now) steps.items)) }
        ensures last { IfOk result (λ reasons. IfSome reasons (λ steps. EndsIn steps.items fact)) }
        ensures needed { IfOk result (λ reasons. IfSome reasons (λ steps. AreNeeded steps.items fact)) }
    {
        let Some(numbers) = self.known.derivation(alloc, &fact)? else {
            return Ok(None);
        };
        let steps = reasons_of(alloc, self.known.clauses(), numbers.as_slice())?;
        Ok(Some(steps))
    }

    /// All ways in which the fact follows from facts that hold: who asks for it. Each is told as a step, and more than
    /// once if more than one clause says it. A step whose fact follows from nothing is asked for of a chosen package.
    /// There are none where the fact doesn't hold.
    ///
    /// Time grows with all clauses, and for those whose head is the fact with the logarithm of the facts that are named.
    /// Takes memory for the ways, and fails only where there is none.
    pub fn ways(&self, alloc: Global, fact: Fact) -> Result<Vec<Reason>, AllocError>
        ensures { IfOk result (λ ways. AreWays (FollowsFor self.now) fact ways.items) }
    {
        ways_of(alloc, &self.known, fact)
    }

    /// The facts that hold, ascending, each once. Takes memory for them, and fails only where there is none.
    pub fn facts(&self, alloc: Global) -> Result<Vec<Fact>, AllocError>
        ensures holds { IfOk result (λ facts.
            (f : Fact) → Contains facts.items f ↔ HoldsBy (FollowsFor self.now) f) }
        ensures order { IfOk result (λ facts. IsStrictlySortedBy fact_cmp facts.items) }
    {
        self.known.facts(alloc)
    }
}
