//! Laws on what holds, each stated by the contract of a function.
ghost use Rattle.std.specs.Prelude.{◌≡◌, ℕ, Bool, true, List};
ghost use Rattle.guppy_closure.specs.declared.clause.Clause.{Clause};
ghost use Rattle.guppy_closure.specs.Clauses.{Holds, IsClosed, AreAmong};

/// What holds is closed under the clauses.
pub fn holds_is_closed<F>()
    ensures { (clauses : List (Clause F)) → IsClosed clauses (Holds clauses) }
{}

/// What holds is in whatever is closed under the clauses.
pub fn holds_is_least<F>()
    ensures { (clauses : List (Clause F)) (S : F → Bool) → IsClosed clauses (λ f. S f ≡ true)
        → (f : F) → Holds clauses f → S f ≡ true }
{}

/// Where more clauses are, what held still holds.
pub fn holds_is_monotone<F>()
    ensures { (fewer more : List (Clause F)) → AreAmong fewer more
        → (f : F) → Holds fewer f → Holds more f }
{}
