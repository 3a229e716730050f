// Laws of clauses: resolvents, eligible variables, what is implied and forced, and fresh lemmas.
ghost use Rattle.std.specs.Prelude.{◌≡◌, ℕ, true, false, ◌∷◌, [], List, Contains, Option, IsTrue, ◌↔◌, filter, map, filter_map};
ghost use Rattle.lits.specs.Literal.{neg};
ghost use Rattle.session_rules.specs.Logic.{has, same_set, is_tautology, closes, hints_fail, Forced};
ghost use Rattle.restore.specs.declared.lists.Elim.{Elim};
ghost use Rattle.restore.specs.Resolution.{of_variable, has_variable, holds, holds_negated, resolvent};
ghost use Rattle.restore.specs.Stack.{KeepsResolvents, has_entry};
ghost use Rattle.elimination_laws.specs.Eligible.{how_many, eligible, IsEligible, any_eligible, forced, OftenAs, Covered};
ghost use Rattle.elimination_laws.specs.Parts.{lemma_clause};
ghost use Rattle.elimination_laws.specs.Told.{irredundant_told};
ghost use Rattle.session_rules.specs.Own.{weakened_clause};
ghost use Rattle.session_rules.specs.declared.Step.{Step};
ghost use Rattle.elimination_laws.specs.Fresh.{is_fresh, IsPropagated, IsAsserting};

/// The test of an eligible variable agrees with the conditions.
pub fn eligible_is_tested()
    ensures { (cs : List (List ℕ)) (frozen assigned : List ℕ) (x : ℕ)
        → IsTrue (eligible cs frozen assigned x) ↔ IsEligible cs frozen assigned x }
{}

/// No variable is eligible exactly where none that stands in the clauses is.
pub fn eligible_variables_stand_in_clauses()
    ensures none { (cs : List (List ℕ)) (frozen assigned : List ℕ)
        → any_eligible cs frozen assigned ≡ false → (x : ℕ)
        → eligible cs frozen assigned x ≡ false }
    ensures some { (cs : List (List ℕ)) (frozen assigned : List ℕ)
        → ((x : ℕ) → eligible cs frozen assigned x ≡ false)
        → any_eligible cs frozen assigned ≡ false }
{}

/// Whether a variable is eligible depends on how often each set stands among the clauses with it, on whether it is frozen and
/// on whether it is assigned, and on nothing else.
pub fn eligibility_is_local()
    ensures local { (cs ds : List (List ℕ)) (frozen freeze assigned assign : List ℕ) (x : ℕ)
        → OftenAs (filter (has_variable x) cs) (filter (has_variable x) ds)
        → has_variable x frozen ≡ has_variable x freeze
        → has_variable x assigned ≡ has_variable x assign
        → eligible cs frozen assigned x ≡ eligible ds freeze assign x }
    ensures counted { (cs ds : List (List ℕ)) (frozen assigned : List ℕ) (x : ℕ) → OftenAs cs ds
        → eligible cs frozen assigned x ≡ eligible ds frozen assigned x }
{}

/// So steps that neither give nor weaken a clause with a variable leave its eligibility, where it stays assigned or unassigned.
pub fn untouched_variables_stay()
    ensures { (irr : List (List ℕ)) (run : List Step) (frozen assigned assign : List ℕ) (y : ℕ)
        → ((c : List ℕ) → Contains (filter_map lemma_clause run) c → has_variable y c ≡ false)
        → ((c : List ℕ) → Contains (filter_map weakened_clause run) c → has_variable y c ≡ false)
        → has_variable y assigned ≡ has_variable y assign
        → eligible (irredundant_told irr run) frozen assign y ≡ eligible irr frozen assigned y }
{}

/// With fewer frozen and fewer assigned literals no eligible variable is lost.
pub fn fewer_literals_keep_eligible()
    ensures { (cs : List (List ℕ)) (frozen fewer assigned less : List ℕ) (x : ℕ)
        → ((l : ℕ) → Contains fewer l → Contains frozen l)
        → ((l : ℕ) → Contains less l → Contains assigned l) → IsTrue (eligible cs frozen assigned x)
        → IsTrue (eligible cs fewer less x) }
{}

/// An eligible variable has no entry in a stack that the clauses keep.
pub fn eligible_variables_have_no_entry()
    ensures { (es : List Elim) (irr : List (List ℕ)) (frozen assigned : List ℕ) (x : ℕ)
        → KeepsResolvents es irr → IsTrue (eligible irr frozen assigned x)
        → has_entry es x ≡ false }
{}

/// Clauses that come with no variable of the stack keep it, and what a stack keeps depends on the sets of the clauses alone.
pub fn more_clauses_keep()
    ensures more { (es : List Elim) (cs ds : List (List ℕ)) → KeepsResolvents es cs
        → ((c : List ℕ) → Contains cs c → Contains ds c)
        → ((e : Elim) (c : List ℕ) → Contains es e → Contains ds c → has_variable e.var c ≡ false)
        → KeepsResolvents es ds }
    ensures same { (es : List Elim) (cs ds : List (List ℕ)) → Covered cs ds → Covered ds cs
        → KeepsResolvents es cs → KeepsResolvents es ds }
{}

/// Two clauses close their resolvent as two hints, also where its literals are written as a set, where neither holds both
/// the variable and its negation. A clause that is no tautology doesn't.
pub fn two_hints_close_a_resolvent()
    ensures closed { (active : ℕ → Option (List ℕ)) (i j x : ℕ) (c d ls : List ℕ)
        → active i ≡ Option.Some c → active j ≡ Option.Some d → IsTrue (holds x c)
        → holds_negated x c ≡ false → IsTrue (holds_negated x d) → holds x d ≡ false
        → IsTrue (same_set ls (resolvent x c d))
        → hints_fail active (map neg ls) (i ∷ j ∷ []) ≡ Option.None }
    ensures alone { (x : ℕ) (c : List ℕ) → is_tautology c ≡ false → IsTrue (holds x c)
        → IsTrue (holds_negated x c) → ⊥ }
{}

/// The rounds find what is forced.
pub fn rounds_find_forced()
    ensures sound { (cs : List (List ℕ)) (l : ℕ) → IsTrue (has (forced cs) l) → Forced cs l }
    ensures complete { (cs : List (List ℕ)) (l : ℕ) → closes cs [] ≡ false → Forced cs l
        → IsTrue (has (forced cs) l) }
{}

/// Where no literal of a variable is forced, what is forced stays so when all clauses without the variable stay.
pub fn forced_stays()
    ensures { (x : ℕ) (cs ds : List (List ℕ))
        → ((c : List ℕ) → Contains cs c → has_variable x c ≡ false → Contains ds c)
        → ((l : ℕ) → Forced cs l → IsTrue (of_variable x l) → ⊥) → (l : ℕ) → Forced cs l
        → Forced ds l }
{}

/// Where nothing more follows from the true literals, a lemma that asserts a literal is fresh and no tautology.
pub fn asserting_lemmas_are_fresh()
    ensures fresh { (cs : List (List ℕ)) (trues ls : List ℕ) (l : ℕ) → IsPropagated cs trues
        → IsAsserting trues ls l → IsTrue (is_fresh cs ls) }
    ensures no_tautology { (cs : List (List ℕ)) (trues ls : List ℕ) (l : ℕ) → IsPropagated cs trues
        → IsAsserting trues ls l → is_tautology ls ≡ false }
{}
