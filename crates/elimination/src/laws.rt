// Laws of boards and of the steps that are told of them.
ghost use Rattle.std.specs.Prelude.{◌≡◌, ◌≢◌, ℕ, ◌<◌, true, false, not, ◌&&◌, List, [], ◌++◌, filter, Contains, Option, Some};
ghost use Rattle.lits.specs.Literal.{of_var, neg};
ghost use Rattle.lits.specs.Clause.{is_tautology, set_of};
ghost use Rattle.clause_store.specs.Clauses.{Store, lits_at};
ghost use Rattle.occurrence_lists.specs.Occurring.{row, StandsFor};
ghost use Rattle.restore.specs.Resolution.{has_variable};
ghost use Rattle.elimination_laws.specs.Eligible.{eligible, OftenAs};
ghost use Rattle.session_rules.specs.declared.Told.{Told};
ghost use Rattle.elimination.specs.Boards.{BoardView, IsBoard, IsSearched};
ghost use Rattle.elimination.specs.Calls.{AreTold};
ghost use Rattle.elimination.specs.Pairs.{clauses_at, may_go};
ghost use Rattle.elimination.specs.Known.{numbered};
ghost use Rattle.elimination.specs.Steps.{Standing, after_steps, AreDue};
ghost use Rattle.elimination.specs.Restoring.{restorings, AreCopies};
ghost use Rattle.restore.specs.declared.lists.Kept.{Kept};

/// What holds of every board holds of one that is searched.
pub fn boards_are_searched()
    ensures { (b : BoardView) → IsBoard b → IsSearched b }
{}

/// Steps that lead from a board to a second one, and steps that lead on to a third one, lead together from the first to the
/// third. No steps lead from a board to itself.
pub fn told_steps_join()
    ensures none { (b : BoardView) → AreTold b [] b }
    ensures joined { (a b c : BoardView) (ts us : List Told) → AreTold a ts b → AreTold b us c → AreTold a (ts ++ us) c }
{}

/// Restorings of copies with different ids are due one after another. Behind them each of these clauses is active with its set,
/// and all others stand as before.
pub fn restorings_are_due()
    ensures due { (f : ℕ → Option Standing) (ks : List Kept) → AreCopies f ks → AreDue f (restorings ks) }
    ensures back { (f : ℕ → Option Standing) (ks : List Kept) (k : Kept) → AreCopies f ks → Contains ks k
        → after_steps f (restorings ks) k.id ≡ Some (record { literals = set_of k.lits; active = true }) }
    ensures others { (f : ℕ → Option Standing) (ks : List Kept) (id : ℕ) → ((k : Kept) → Contains ks k → id ≢ k.id)
        → after_steps f (restorings ks) id ≡ f id }
{}

/// A variable's own clauses decide whether it is eligible, with whether it is frozen or assigned.
pub fn own_clauses_decide()
    ensures { (cs ds : List (List ℕ)) (frozen assigned : List ℕ) (x : ℕ) → ((c : List ℕ) → Contains ds c → has_variable x c ≡ true)
        → OftenAs (filter (has_variable x) cs) ds
        → eligible cs frozen assigned x ≡ ((not (has_variable x frozen) && not (has_variable x assigned)) && may_go ds x) }
{}

/// Where lists of occurrences stand for the irredundant clauses, the lists of a variable's two literals decide its eligibility.
pub fn lists_decide_eligibility()
    ensures { (m : Store) (rows : List (List ℕ)) (ids : List ℕ) (x : ℕ) (frozen assigned : List ℕ) → 0 < x → StandsFor rows (numbered m ids)
        → ((id : ℕ) → Contains ids id → is_tautology (lits_at m id) ≡ false)
        → eligible (clauses_at m ids) frozen assigned x
        ≡ ((not (has_variable x frozen) && not (has_variable x assigned)) && may_go (clauses_at m (row rows (of_var x)) ++ clauses_at m (row rows (neg (of_var x)))) x) }
{}
