//! Laws of proofs that are judged through a numbering of the file's variables.
//!
//! A side of a check may hold the numbers of variables in place of the variables: a step whose literals are translated breaks
//! the rules that the file's own step breaks, in the same order, at the same places and with the same literals, translated.
//! This holds where the numbering has the variables of all steps, and stays when more variables come. A literal without a
//! number is in no clause and no assumption, so a line with one is judged without giving it a number.
//!
//! Each law is the contract of a function that does nothing, so that the check proves it.
#![tactic(auto)]

ghost use Rattle.std.specs.Prelude.{◌≡◌, ℕ, IsTrue, true, false, if◌then◌else◌, List, [], ◌∷◌, ◌++◌, map, Option, Some, None, option_map};
ghost use Rattle.lits.specs.Clause.{set_of};
ghost use Rattle.lits.specs.Numbering.{is_known, are_known, dense_lits, file_lits};
ghost use Rattle.session_rules.specs.declared.Event.{Event};
ghost use Rattle.session_rules.specs.declared.Step.{Step};
ghost use Rattle.session_rules.specs.declared.Step.TheVariants as steps;
ghost use Rattle.session_rules.specs.declared.LStep.{LStep};
ghost use Rattle.session_rules.specs.declared.Rule.TheVariants as rules;
ghost use Rattle.session_rules.specs.Logic.{closes, hints_fail, is_tautology};
ghost use Rattle.session_rules.specs.History.{phase, assumed, inputs, first_missing};
ghost use Rattle.session_rules.specs.Own.{events_of, own_faults, own_id_faults, active_copies, weakened_copies, active_clauses, standing_after, active_clause, id_events_of};
ghost use Rattle.side_laws.specs.Sets.{given_by, next_id, named_id, kept_at};
ghost use Rattle.numbering_laws.specs.Kept.{dense_given, file_kept};
ghost use Rattle.numbering_laws.specs.Dense.{dense_clauses, dense_event, dense_step, dense_steps, dense_id_step, dense_id_steps, are_known_clauses, is_known_step, are_known_steps, is_known_id_step, are_known_id_steps, dense_rule, file_rule, known_of, unknown_of, KnownById};

/// Clauses and literals whose variables have numbers close exactly where their translations do, and hints over such clauses
/// fail at the same place.
pub fn translated_clauses_close_alike()
    ensures closing { (vars : List ℕ) (cs : List (List ℕ)) (ls : List ℕ) → IsTrue (are_known_clauses vars cs) → IsTrue (are_known vars ls)
        → closes (dense_clauses vars cs) (dense_lits vars ls) ≡ closes cs ls }
    ensures hints { (vars : List ℕ) (active translated : ℕ → Option (List ℕ)) → KnownById vars active
        → ((id : ℕ) → translated id ≡ option_map (dense_lits vars) (active id)) → (ls hints : List ℕ) → IsTrue (are_known vars ls)
        → hints_fail translated (dense_lits vars ls) hints ≡ hints_fail active ls hints }
{}

/// Translated steps leave translated clauses, and as many copies of each. The clause that is counted needn't be known.
pub fn translated_steps_keep_clauses()
    ensures active { (vars : List ℕ) (ps : List Step) (c : List ℕ) → IsTrue (are_known_steps vars ps)
        → active_copies (dense_steps vars ps) (dense_lits vars c) ≡ active_copies ps c }
    ensures weakened { (vars : List ℕ) (ps : List Step) (c : List ℕ) → IsTrue (are_known_steps vars ps)
        → weakened_copies (dense_steps vars ps) (dense_lits vars c) ≡ weakened_copies ps c }
    ensures clauses { (vars : List ℕ) (ps : List Step) → IsTrue (are_known_steps vars ps)
        → active_clauses (dense_steps vars ps) ≡ dense_clauses vars (active_clauses ps) }
    ensures standing { (vars : List ℕ) (ps : List LStep) (id : ℕ) → standing_after (dense_id_steps vars ps) id ≡ standing_after ps id }
    ensures named { (vars : List ℕ) (ps : List LStep) (id : ℕ)
        → active_clause (dense_id_steps vars ps) id ≡ option_map (dense_lits vars) (active_clause ps id) }
{}

/// Translated events leave the phase as it is; their assumptions and inputs are translated.
pub fn translated_events_say_alike()
    ensures steps { (vars : List ℕ) (ps : List Step) → events_of (dense_steps vars ps) ≡ map (dense_event vars) (events_of ps) }
    ensures id_steps { (vars : List ℕ) (ps : List LStep) → id_events_of (dense_id_steps vars ps) ≡ map (dense_event vars) (id_events_of ps) }
    ensures phase { (vars : List ℕ) (es : List Event) → phase (map (dense_event vars) es) ≡ phase es }
    ensures assumed { (vars : List ℕ) (es : List Event) → assumed (map (dense_event vars) es) ≡ dense_lits vars (assumed es) }
    ensures inputs { (vars : List ℕ) (es : List Event) → inputs (map (dense_event vars) es) ≡ dense_clauses vars (inputs es) }
{}

/// A step breaks exactly the rules that its translation breaks, in the same order, with their literals translated; and read
/// back, the rules of the translation are those of the step.
pub fn translated_steps_break_the_same_rules()
    ensures translated { (vars : List ℕ) (ps : List Step) (p : Step) → IsTrue (are_known_steps vars ps) → IsTrue (is_known_step vars p)
        → own_faults (dense_steps vars ps) (dense_step vars p) ≡ map (dense_rule vars) (own_faults ps p) }
    ensures back { (vars : List ℕ) (ps : List Step) (p : Step) → IsTrue (are_known_steps vars ps) → IsTrue (is_known_step vars p)
        → map (file_rule vars) (own_faults (dense_steps vars ps) (dense_step vars p)) ≡ own_faults ps p }
    ensures id_translated { (vars : List ℕ) (ps : List LStep) (p : LStep) → IsTrue (are_known_id_steps vars ps) → IsTrue (is_known_id_step vars p)
        → own_id_faults (dense_id_steps vars ps) (dense_id_step vars p) ≡ map (dense_rule vars) (own_id_faults ps p) }
    ensures id_back { (vars : List ℕ) (ps : List LStep) (p : LStep) → IsTrue (are_known_id_steps vars ps) → IsTrue (is_known_id_step vars p)
        → map (file_rule vars) (own_id_faults (dense_id_steps vars ps) (dense_id_step vars p)) ≡ own_id_faults ps p }
{}

/// A step without ids names the id that its translation names, and what the translated steps leave of an id is, read back, what
/// the steps leave of it.
pub fn translated_steps_name_the_same_ids()
    ensures next { (vars : List ℕ) (ps : List Step) → IsTrue (are_known_steps vars ps) → next_id (dense_steps vars ps) ≡ next_id ps }
    ensures named { (vars : List ℕ) (ps : List Step) (p : Step) → IsTrue (are_known_steps vars ps)
        → named_id (dense_steps vars ps) (dense_step vars p) ≡ named_id ps p }
    ensures given { (vars : List ℕ) (ps : List Step) → IsTrue (are_known_steps vars ps)
        → given_by (dense_steps vars ps) ≡ map (dense_given vars) (given_by ps) }
    ensures kept { (vars : List ℕ) (ps : List Step) (id : ℕ) → IsTrue (are_known_steps vars ps)
        → file_kept vars (kept_at (dense_steps vars ps) id) ≡ kept_at ps id }
    ensures sets { (vars c : List ℕ) → IsTrue (are_known vars c) → set_of (file_lits vars (set_of (dense_lits vars c))) ≡ set_of c }
{}

/// When more variables come, known steps stay known, and their translation stays.
pub fn translated_steps_stay()
    ensures known { (vars more : List ℕ) (ps : List Step) → IsTrue (are_known_steps vars ps) → IsTrue (are_known_steps (vars ++ more) ps) }
    ensures translated { (vars more : List ℕ) (ps : List Step) → IsTrue (are_known_steps vars ps) → dense_steps (vars ++ more) ps ≡ dense_steps vars ps }
    ensures id_known { (vars more : List ℕ) (ps : List LStep) → IsTrue (are_known_id_steps vars ps) → IsTrue (are_known_id_steps (vars ++ more) ps) }
    ensures id_translated { (vars more : List ℕ) (ps : List LStep) → IsTrue (are_known_id_steps vars ps) → dense_id_steps (vars ++ more) ps ≡ dense_id_steps vars ps }
{}

/// A clause with a literal that has no number was never given, so a line that takes it or gives it back breaks its rule.
pub fn clauses_without_numbers_were_never_given()
    ensures deleted { (vars : List ℕ) (ps : List Step) (c : List ℕ) → IsTrue (are_known_steps vars ps) → are_known vars c ≡ false
        → own_faults ps (steps.Delete c) ≡ rules.NotActive 1 ∷ [] }
    ensures weakened { (vars : List ℕ) (ps : List Step) (c : List ℕ) → IsTrue (are_known_steps vars ps) → are_known vars c ≡ false
        → own_faults ps (steps.Weaken c) ≡ rules.NotActive 1 ∷ [] }
    ensures restored { (vars : List ℕ) (ps : List Step) (c : List ℕ) → IsTrue (are_known_steps vars ps) → are_known vars c ≡ false
        → own_faults ps (steps.Restore c) ≡ rules.NotWeakened 1 ∷ [] }
{}

/// A literal without a number is no assumption: the first stranger of a core stands among the literals before it, or is this
/// one. Hints close where two opposite literals have no number, and else fail where they do from the literals that have one.
pub fn cores_without_numbers_are_judged_by_the_others()
    ensures front { (ls after given : List ℕ) (l : ℕ) → first_missing ls given ≡ Some l → first_missing (ls ++ after) given ≡ Some l }
    ensures stranger { (vars before : List ℕ) (l : ℕ) (after given : List ℕ) → IsTrue (are_known vars given) → is_known vars l ≡ false
        → first_missing before given ≡ None → first_missing (before ++ l ∷ after) given ≡ Some l }
    ensures hints { (vars : List ℕ) (active : ℕ → Option (List ℕ)) → KnownById vars active → (ls hints : List ℕ)
        → hints_fail active ls hints ≡ (if is_tautology (unknown_of vars ls) then None else hints_fail active (known_of vars ls) hints) }
    ensures kept { (vars : List ℕ) (ps : List LStep) → IsTrue (are_known_id_steps vars ps) → KnownById vars (active_clause ps) }
{}
