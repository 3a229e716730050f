// Laws of the stack, over its definitions: what extended values satisfy, what pushing and taking out keep, and that what
// is taken out is the least that can be.
ghost use Rattle.std.specs.Prelude.{◌≡◌, ◌↔◌, ℕ, ◌++◌, ◌∷◌, [], Bool, true, false, List, Contains, IsTrue};
ghost use Rattle.session_rules.specs.Logic.{has, satisfies_formula, Implies};
ghost use Rattle.restore.specs.Resolution.{resolvents, Entails};
ghost use Rattle.restore.specs.Stack.{stacked, KeepsResolvents, extended, has_entry, taken, left_in, IsClosed, is_wanted, IsEntryOf, Eliminates, has_set, are_due, behind_elimination};
ghost use Rattle.restore.specs.declared.lists.Elim.{Elim};

/// Where the resolvents of a stack are kept by clauses and values satisfy these, the extended values satisfy them and
/// each clause of each entry. No variable without an entry changes.
pub fn extension_satisfies()
    ensures satisfied { (es : List Elim) (cs : List (List ℕ)) (v : ℕ → Bool) → KeepsResolvents es cs → IsTrue (satisfies_formula v cs)
        → IsTrue (satisfies_formula (extended es v) (stacked es ++ cs)) }
    ensures outside { (es : List Elim) (v : ℕ → Bool) (x : ℕ) → has_entry es x ≡ false → extended es v x ≡ v x }
{}

/// An entry that is pushed by an elimination keeps the resolvents of the stack, and what was implied stays implied. The
/// clauses that are left with the resolvents that are due come about by an elimination.
pub fn pushing_keeps()
    ensures kept { (es : List Elim) (e : Elim) (cs ds : List (List ℕ)) → KeepsResolvents es cs → Eliminates e cs ds → KeepsResolvents (es ++ e ∷ []) ds }
    ensures implied { (es : List Elim) (e : Elim) (cs ds : List (List ℕ)) (c : List ℕ) → Eliminates e cs ds → Entails (stacked es ++ cs) c
        → Entails (stacked (es ++ e ∷ []) ++ ds) c }
    ensures written { (e : Elim) (cs ls : List (List ℕ)) → IsEntryOf e cs → IsTrue (are_due e.var cs ls)
        → Eliminates e cs (behind_elimination e.var cs ls) }
{}

/// The resolvents that are due are resolvents that no irredundant clause is, the set of each once; and each resolvent that no
/// irredundant clause is is among them.
pub fn due_resolvents_are_exact()
    ensures resolvents { (x : ℕ) (cs ls : List (List ℕ)) → IsTrue (are_due x cs ls) → (c : List ℕ) → Contains ls c → IsTrue (has_set (resolvents x cs) c) }
    ensures new { (x : ℕ) (cs ls : List (List ℕ)) → IsTrue (are_due x cs ls) → (c : List ℕ) → Contains ls c → has_set cs c ≡ false }
    ensures once { (x : ℕ) (cs before after : List (List ℕ)) (c : List ℕ) → IsTrue (are_due x cs (before ++ c ∷ after)) → has_set (before ++ after) c ≡ false }
    ensures each { (x : ℕ) (cs ls : List (List ℕ)) → IsTrue (are_due x cs ls) → (r : List ℕ) → Contains (resolvents x cs) r → has_set cs r ≡ false
        → IsTrue (has_set ls r) }
{}

/// Clauses entail a clause exactly where they imply it: no assignment satisfies them and all its literals' negations.
pub fn entailed_clauses_are_implied()
    ensures { (cs : List (List ℕ)) (c : List ℕ) → Entails cs c ↔ Implies cs c }
{}

/// Where the entries of a closed set are taken out and their clauses are irredundant again, the resolvents of the others
/// are kept, and what was implied stays implied.
pub fn taking_keeps()
    ensures kept { (s : ℕ → Bool) (es : List Elim) (cs : List (List ℕ)) → IsClosed es s → KeepsResolvents es cs
        → KeepsResolvents (left_in s es) (stacked (taken s es) ++ cs) }
    ensures implied { (s : ℕ → Bool) (es : List Elim) (cs : List (List ℕ)) (c : List ℕ) → Entails (stacked es ++ cs) c
        → Entails (stacked (left_in s es) ++ (stacked (taken s es) ++ cs)) c }
{}

/// The set of the wanted variables is closed and has those that were asked for, and each such set has the entries of it.
/// So none of the asked variables has an entry left.
pub fn rounds_find_least()
    ensures closed { (es : List Elim) (xs : List ℕ) → IsClosed es (is_wanted es xs) }
    ensures asked { (es : List Elim) (xs : List ℕ) (x : ℕ) → IsTrue (has xs x) → IsTrue (is_wanted es xs x) }
    ensures least { (es : List Elim) (xs : List ℕ) (s : ℕ → Bool) → IsClosed es s
        → ((f : Elim) → Contains es f → IsTrue (has xs f.var) → IsTrue (s f.var))
        → (f : Elim) → Contains es f → IsTrue (is_wanted es xs f.var) → IsTrue (s f.var) }
    ensures none_left { (es : List Elim) (xs : List ℕ) (x : ℕ) → IsTrue (has xs x) → has_entry (left_in (is_wanted es xs) es) x ≡ false }
{}
