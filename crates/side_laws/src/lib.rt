//! Laws that tie the clauses that one side of a check keeps to the definitions of active and weakened clauses: what each
//! step of a proof changes, and that closing and hints look at the sets of clauses alone. Each is the contract of a
//! function that does nothing, so that the check proves it.
#![tactic(auto)]

ghost use Rattle.std.specs.Prelude.{◌≡◌, ℕ, ◌+◌, ◌++◌, IsTrue, nat_lt, List, [], ◌∷◌, Option, Some, None, Bool, true, false};
ghost use Rattle.std.specs.FinMap.{empty, get};
ghost use Rattle.lits.specs.Clause.{same_set, set_of};
ghost use Rattle.session_rules.specs.declared.Step.{Step};
ghost use Rattle.session_rules.specs.declared.Step.TheVariants as steps;
ghost use Rattle.session_rules.specs.declared.LStep.{LStep};
ghost use Rattle.session_rules.specs.declared.LStep.TheVariants as lsteps;
ghost use Rattle.session_rules.specs.declared.Standing.TheVariants.{Active};
ghost use Rattle.session_rules.specs.Logic.{closes, hints_fail};
ghost use Rattle.session_rules.specs.Own.{added_clause, removed_clause, weakened_clause, restored_clause, active_copies, weakened_copies, active_clauses, given_clause, mentions, active_clause, is_active, is_weakened};
ghost use Rattle.side_laws.specs.ClauseStates.{Clauses, kept, active_in, ChangesAt};
ghost use Rattle.side_laws.specs.Ids.{HoldsIds, SameClauses};
ghost use Rattle.side_laws.specs.Sets.{new_clause, given_by, named_id, how_many, IsLeastSuch, LeavesOthers, kept_at, HoldsSets, IsLeast, SetsAmong, AreActive};

/// A side with no clause holds the clauses of no step; a step that gives a clause makes it active under its id.
pub fn given_clauses_are_active()
    ensures nothing { HoldsIds empty [] }
    ensures given { (m n : Clauses) (ps : List LStep) (p : LStep) (id : ℕ) (c : List ℕ) → given_clause p ≡ Some (id, c) → mentions p ≡ (id, Active) ∷ []
        → ChangesAt m n id (Some (kept true (set_of c))) → HoldsIds m ps → HoldsIds n (ps ++ p ∷ []) }
    ensures silent { (m : Clauses) (ps : List LStep) (p : LStep) → given_clause p ≡ None → mentions p ≡ [] → HoldsIds m ps → HoldsIds m (ps ++ p ∷ []) }
{}

/// Of a step with a list of ids each id changes one clause, in the list's order.
pub fn named_ids_change_in_turn()
    ensures deleted { (m n : Clauses) (ps : List LStep) (ids : List ℕ) (id : ℕ) → ChangesAt m n id None
        → HoldsIds m (ps ++ lsteps.Delete ids ∷ []) → HoldsIds n (ps ++ lsteps.Delete (ids ++ id ∷ []) ∷ []) }
    ensures weakened { (m n : Clauses) (ps : List LStep) (ids : List ℕ) (id : ℕ) (was : Bool) (c : List ℕ) → get m id ≡ Some (kept was c)
        → ChangesAt m n id (Some (kept false c)) → HoldsIds m (ps ++ lsteps.Weaken ids ∷ []) → HoldsIds n (ps ++ lsteps.Weaken (ids ++ id ∷ []) ∷ []) }
    ensures restored { (m n : Clauses) (ps : List LStep) (ids : List ℕ) (id : ℕ) (was : Bool) (c : List ℕ) → get m id ≡ Some (kept was c)
        → ChangesAt m n id (Some (kept true c)) → HoldsIds m (ps ++ lsteps.Restore ids ∷ []) → HoldsIds n (ps ++ lsteps.Restore (ids ++ id ∷ []) ∷ []) }
{}

/// Hints look at the sets of clauses alone, so those over the clauses that are kept fail where the definition says.
pub fn hints_look_at_sets()
    ensures kept { (m : Clauses) (ps : List LStep) → HoldsIds m ps → (ls hints : List ℕ) → hints_fail (active_in m) ls hints ≡ hints_fail (active_clause ps) ls hints }
    ensures same { (f g : ℕ → Option (List ℕ)) → SameClauses f g → (ls hints : List ℕ) → hints_fail f ls hints ≡ hints_fail g ls hints }
{}

/// Closing looks at the sets of clauses alone.
pub fn closing_looks_at_sets()
    ensures { (cs ds : List (List ℕ)) (ls : List ℕ) → SetsAmong cs ds → SetsAmong ds cs → closes cs ls ≡ closes ds ls }
{}

/// Of each id is kept what steps without ids leave: what each kind of step changes. A deletion and a weakening change the least
/// active id of the clause's set, and a restoring the least weakened one.
pub fn least_ids_change()
    ensures nothing { HoldsSets empty 1 [] }
    ensures silent { (m : Clauses) (next : ℕ) (ps : List Step) (p : Step) → new_clause p ≡ None → removed_clause p ≡ None → restored_clause p ≡ None
        → HoldsSets m next ps → HoldsSets m next (ps ++ p ∷ []) }
    ensures given { (m n : Clauses) (next : ℕ) (ps : List Step) (p : Step) (c : List ℕ) → new_clause p ≡ Some c
        → ChangesAt m n next (Some (kept true (set_of c))) → HoldsSets m next ps → HoldsSets n (next + 1) (ps ++ p ∷ []) }
    ensures deleted { (m n : Clauses) (next : ℕ) (ps : List Step) (c : List ℕ) (id : ℕ) (ls : List ℕ) → HoldsSets m next ps
        → IsLeast m true c id ls → ChangesAt m n id None → HoldsSets n next (ps ++ steps.Delete c ∷ []) }
    ensures weakened { (m n : Clauses) (next : ℕ) (ps : List Step) (c : List ℕ) (id : ℕ) (ls : List ℕ) → HoldsSets m next ps
        → IsLeast m true c id ls → ChangesAt m n id (Some (kept false ls)) → HoldsSets n next (ps ++ steps.Weaken c ∷ []) }
    ensures restored { (m n : Clauses) (next : ℕ) (ps : List Step) (c : List ℕ) (id : ℕ) (ls : List ℕ) → HoldsSets m next ps
        → IsLeast m false c id ls → ChangesAt m n id (Some (kept true ls)) → HoldsSets n next (ps ++ steps.Restore c ∷ []) }
{}

/// A deletion and a weakening name the least active id of the clause's set, a restoring the least weakened one, and an input and
/// a lemma the next id. Each changes its id alone. As many ids stand so as the steps leave copies of a clause.
pub fn steps_name_ids()
    ensures deleted { (ps : List Step) (c : List ℕ) (id : ℕ) → named_id ps (steps.Delete c) ≡ Some id → IsLeastSuch is_active ps c id }
    ensures weakened { (ps : List Step) (c : List ℕ) (id : ℕ) → named_id ps (steps.Weaken c) ≡ Some id → IsLeastSuch is_active ps c id }
    ensures restored { (ps : List Step) (c : List ℕ) (id : ℕ) → named_id ps (steps.Restore c) ≡ Some id → IsLeastSuch is_weakened ps c id }
    ensures changed { (ps : List Step) (p : Step) (id : ℕ) → named_id ps p ≡ Some id → LeavesOthers ps p id }
    ensures one_change { (m n : Clauses) (next after : ℕ) (ps : List Step) (p : Step) (id : ℕ) → HoldsSets m next ps
        → HoldsSets n after (ps ++ p ∷ []) → named_id ps p ≡ Some id → ChangesAt m n id (kept_at (ps ++ p ∷ []) id) }
    ensures kept_active { (m : Clauses) (next : ℕ) (ps : List Step) (c : List ℕ) (id : ℕ) (ls : List ℕ) → HoldsSets m next ps
        → IsLeast m true c id ls → named_id ps (steps.Delete c) ≡ Some id }
    ensures kept_weakened { (m : Clauses) (next : ℕ) (ps : List Step) (c : List ℕ) (id : ℕ) (ls : List ℕ) → HoldsSets m next ps
        → IsLeast m false c id ls → named_id ps (steps.Restore c) ≡ Some id }
    ensures active_count { (m : Clauses) (next : ℕ) (ps : List Step) → HoldsSets m next ps → (c : List ℕ)
        → active_copies ps c ≡ how_many is_active c (given_by ps) }
    ensures weakened_count { (m : Clauses) (next : ℕ) (ps : List Step) → HoldsSets m next ps → (c : List ℕ)
        → weakened_copies ps c ≡ how_many is_weakened c (given_by ps) }
{}

/// A copy of a clause is kept exactly where the steps leave one, and the clauses that are kept as active close where the
/// active clauses of the steps do.
pub fn kept_copies_answer_for_steps()
    ensures active { (m : Clauses) (next : ℕ) (ps : List Step) → HoldsSets m next ps → (c : List ℕ) (id : ℕ) (ls : List ℕ)
        → get m id ≡ Some (kept true ls) → IsTrue (same_set c ls) → IsTrue (nat_lt 0 (active_copies ps c)) }
    ensures weakened { (m : Clauses) (next : ℕ) (ps : List Step) → HoldsSets m next ps → (c : List ℕ) (id : ℕ) (ls : List ℕ)
        → get m id ≡ Some (kept false ls) → IsTrue (same_set c ls) → IsTrue (nat_lt 0 (weakened_copies ps c)) }
    ensures none_active { (m : Clauses) (next : ℕ) (ps : List Step) → HoldsSets m next ps → (c : List ℕ)
        → ((id : ℕ) (ls : List ℕ) → get m id ≡ Some (kept true ls) → IsTrue (same_set c ls) → ⊥) → nat_lt 0 (active_copies ps c) ≡ false }
    ensures none_weakened { (m : Clauses) (next : ℕ) (ps : List Step) → HoldsSets m next ps → (c : List ℕ)
        → ((id : ℕ) (ls : List ℕ) → get m id ≡ Some (kept false ls) → IsTrue (same_set c ls) → ⊥) → nat_lt 0 (weakened_copies ps c) ≡ false }
    ensures closing { (m : Clauses) (next : ℕ) (ps : List Step) → HoldsSets m next ps → (cs : List (List ℕ)) → AreActive m cs
        → (ls : List ℕ) → closes cs ls ≡ closes (active_clauses ps) ls }
{}
