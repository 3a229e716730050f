//! Laws of proofs that are converted: a proof without ids becomes one with ids and hints, step for step, and is accepted with
//! exactly the interactions that its source is accepted with. Each law is the contract of a function that does nothing, so that
//! the check proves it.
#![tactic(auto)]

ghost use Rattle.std.specs.Prelude.{◌↔◌, ◌≡◌, ◌≤◌, ◌<◌, ◌^◌, ℕ, ◌++◌, ◌∷◌, [], List, length, All, Option, None, Some, is_some, IsTrue, Ok, Err};
ghost use Rattle.lits.specs.Clause.{has};
ghost use Rattle.session_rules.specs.declared.Form.{Form};
ghost use Rattle.session_rules.specs.declared.Form.TheVariants.{Idrup, Lidrup};
ghost use Rattle.session_rules.specs.declared.Phase.TheVariants.{Idle};
ghost use Rattle.session_rules.specs.declared.Rule.{Rule};
ghost use Rattle.session_rules.specs.declared.Rule.TheVariants as rules;
ghost use Rattle.session_rules.specs.declared.Step.{Step};
ghost use Rattle.session_rules.specs.declared.Step.TheVariants as steps;
ghost use Rattle.session_rules.specs.declared.LStep.{LStep};
ghost use Rattle.session_rules.specs.declared.Verdict.TheVariants.{Accepted};
ghost use Rattle.session_rules.specs.Lines.{Line, end_line, most_bytes};
ghost use Rattle.session_rules.specs.Logic.{hints_fail};
ghost use Rattle.session_rules.specs.Reading.{header_fault, value_of};
ghost use Rattle.session_rules.specs.Spelling.{line_text, id_step_words, IsStep, IsIdStep};
ghost use Rattle.session_rules.specs.History.{phase};
ghost use Rattle.session_rules.specs.Own.{own_faults, events_of, id_events_of, standing_after, clause_of};
ghost use Rattle.session_rules.specs.Pair.{verdict};
ghost use Rattle.session_rules.specs.Verdicts.{StepOf, rules_of, body, OwnFault, KeepsOwnRules, steps_in, events_among, own_verdict};
ghost use Rattle.clause_store.specs.Clauses.{IsOnce};
ghost use Rattle.side_laws.specs.ClauseStates.{Clauses, active_in};
ghost use Rattle.side_laws.specs.Ids.{SameClauses};
ghost use Rattle.side_laws.specs.Sets.{standing_at, clause_at, next_id, named_id, HoldsSets};
ghost use Rattle.elimination_laws.specs.Accepted.{proof_text};
ghost use Rattle.conversion_laws.specs.Converted.{active_at, HintsClose, IsConvertedStep, IsConverted};
ghost use Rattle.conversion_laws.specs.Judged.{kept_steps, IsJudged};
ghost use Rattle.conversion_laws.specs.Matched.{IsAccepted};

/// A conversion grows by a step and the step that it becomes, and its text by a line. This has a spelling where the step has one and
/// the next id has one.
pub fn conversions_grow()
    ensures nothing { IsConverted [] [] }
    ensures grows { (ps : List Step) (qs : List LStep) (p : Step) (q : LStep) → IsConverted ps qs → IsConvertedStep ps p q
        → IsConverted (ps ++ p ∷ []) (qs ++ q ∷ []) }
    ensures lines { (ps : List Step) (qs : List LStep) → IsConverted ps qs → length qs ≡ length ps }
    ensures text { (qs : List LStep) (q : LStep) → proof_text Lidrup (qs ++ q ∷ []) ≡ proof_text Lidrup qs ++ line_text (id_step_words q) }
    ensures fits { (ps : List Step) (p : Step) (q : LStep) → IsConvertedStep ps p q → IsStep p → next_id ps < 2 ^ 63 → IsIdStep q }
    ensures all_fit { (source : List ℕ) (qs : List LStep) → IsConverted (steps_in Idrup source) qs
        → length (proof_text Lidrup qs) ≤ most_bytes → All IsIdStep qs }
{}

/// A deletion, a weakening or a restoring that breaks no rule behind steps without own faults finds the id that it names.
pub fn what_is_named_is_there()
    ensures deleted { (ps : List Step) → ((k : ℕ) (rule : Rule) → OwnFault Idrup ps k rule → ⊥) → (c : List ℕ)
        → own_faults ps (steps.Delete c) ≡ [] → (id : ℕ) × (named_id ps (steps.Delete c) ≡ Some id) }
    ensures weakened { (ps : List Step) → ((k : ℕ) (rule : Rule) → OwnFault Idrup ps k rule → ⊥) → (c : List ℕ)
        → own_faults ps (steps.Weaken c) ≡ [] → (id : ℕ) × (named_id ps (steps.Weaken c) ≡ Some id) }
    ensures restored { (ps : List Step) → ((k : ℕ) (rule : Rule) → OwnFault Idrup ps k rule → ⊥) → (c : List ℕ)
        → own_faults ps (steps.Restore c) ≡ [] → (id : ℕ) × (named_id ps (steps.Restore c) ≡ Some id) }
{}

/// Hints that close over the clauses that a side keeps are hints of the conversion: what is kept as active has the sets of the
/// clauses that the steps leave active.
pub fn kept_clauses_give_the_hints()
    ensures kept { (m : Clauses) (next : ℕ) (ps : List Step) → HoldsSets m next ps → SameClauses (active_in m) (active_at ps) }
    ensures hints { (f : ℕ → Option (List ℕ)) (ps : List Step) → SameClauses f (active_at ps) → (ls hints : List ℕ) → hints_fail f ls hints ≡ None
        → IsOnce hints → ((id : ℕ) → IsTrue (has hints id) → IsTrue (is_some (f id))) → HintsClose ps ls hints }
{}

/// Each proof without own faults has a conversion: what it names is there, and hints that close are there for each lemma and core.
pub fn proofs_without_faults_have_a_conversion()
    ensures { (ps : List Step) → ((k : ℕ) (rule : Rule) → OwnFault Idrup ps k rule → ⊥) → (qs : List LStep) × IsConverted ps qs }
{}

/// The conversion of a proof says its events, leaves each id as the proof's steps do, and has no own fault where the proof has none.
pub fn conversions_keep_the_rules()
    ensures no_faults { (ps : List Step) (qs : List LStep) → IsConverted ps qs → ((k : ℕ) (rule : Rule) → OwnFault Idrup ps k rule → ⊥)
        → (k : ℕ) (rule : Rule) → OwnFault Lidrup qs k rule → ⊥ }
    ensures events { (ps : List Step) (qs : List LStep) → IsConverted ps qs → id_events_of qs ≡ events_of ps }
    ensures standings { (ps : List Step) (qs : List LStep) → IsConverted ps qs → (id : ℕ) → standing_after qs id ≡ standing_at ps id }
    ensures clauses { (ps : List Step) (qs : List LStep) → IsConverted ps qs → (id : ℕ) → clause_of qs id ≡ clause_at ps id }
{}

/// An interaction is accepted exactly where the proof keeps all rules by itself and the interaction's lines are the partners of the
/// proof's events. Of the proof this looks at the events alone, so two such proofs with the same events accept the same interactions.
pub fn acceptance_goes_by_events()
    ensures { (form : Form) (a b : List ℕ) (n : ℕ) → (verdict form a b ≡ Accepted n) ↔ IsAccepted form a b n }
{}

/// Two proofs, in one form or in two, that keep all rules by themselves and say the same events accept the same interactions, with
/// the same number of queries.
pub fn same_events_accept_alike()
    ensures { (form other : Form) (b c : List ℕ) → KeepsOwnRules form b → KeepsOwnRules other c
        → events_among form (steps_in form b) ≡ events_among other (steps_in other c)
        → (a : List ℕ) (n : ℕ) → (verdict form a b ≡ Accepted n) ↔ (verdict other a c ≡ Accepted n) }
{}

/// The text of the conversion of a proof that keeps all rules by itself is accepted with exactly the interactions that the proof is
/// accepted with, and with the same number of queries. A proof that has an own fault is accepted with none.
pub fn conversions_are_accepted_alike()
    ensures alike { (source : List ℕ) (qs : List LStep) → own_verdict Idrup source ≡ None → IsConverted (steps_in Idrup source) qs
        → length (proof_text Lidrup qs) ≤ most_bytes
        → (a : List ℕ) (n : ℕ) → (verdict Lidrup a (proof_text Lidrup qs) ≡ Accepted n) ↔ (verdict Idrup a source ≡ Accepted n) }
    ensures keeps { (source : List ℕ) (qs : List LStep) → own_verdict Idrup source ≡ None → IsConverted (steps_in Idrup source) qs
        → length (proof_text Lidrup qs) ≤ most_bytes → own_verdict Lidrup (proof_text Lidrup qs) ≡ None }
    ensures never { (source : List ℕ) (fault : ℕ × Rule) → own_verdict Idrup source ≡ Some fault
        → (a : List ℕ) (n : ℕ) → verdict Idrup a source ≡ Accepted n → ⊥ }
{}

/// A proof is judged by itself line by line, behind its header: where a line says a step without faults, judging goes on behind it.
/// The first line that is broken, or whose step breaks a rule, decides, with the first rule that it breaks; and where no line is left,
/// whether a query is open.
pub fn proofs_are_judged_line_by_line()
    ensures header { (form : Form) (b : List ℕ) (number : ℕ) (rule : Rule) → header_fault (rules_of form).name b ≡ Some (number, rule)
        → own_verdict form b ≡ Some (number, rule) }
    ensures begins { (form : Form) (b : List ℕ) → header_fault (rules_of form).name b ≡ None → IsJudged form b [] (body b) }
    ensures goes_on { (form : Form) (b : List ℕ) (steps : List (StepOf form)) (line : Line) (more : List Line) (p : StepOf form)
        → value_of (rules_of form).read line ≡ Ok p → (rules_of form).faults steps p ≡ []
        → IsJudged form b steps (line ∷ more) → IsJudged form b (steps ++ p ∷ []) more }
    ensures broken { (form : Form) (b : List ℕ) (steps : List (StepOf form)) (line : Line) (more : List Line) (rule : Rule)
        → value_of (rules_of form).read line ≡ Err rule → IsJudged form b steps (line ∷ more)
        → (own_verdict form b ≡ Some (line.number, rule)) × (kept_steps form b ≡ steps) }
    ensures refused { (form : Form) (b : List ℕ) (steps : List (StepOf form)) (line : Line) (more : List Line) (p : StepOf form)
        (rule : Rule) (others : List Rule) → value_of (rules_of form).read line ≡ Ok p → (rules_of form).faults steps p ≡ rule ∷ others
        → IsJudged form b steps (line ∷ more) → (own_verdict form b ≡ Some (line.number, rule)) × (kept_steps form b ≡ steps) }
    ensures unfinished { (form : Form) (b : List ℕ) (steps : List (StepOf form)) → IsJudged form b steps []
        → (phase (events_among form steps) ≡ Idle → ⊥)
        → (own_verdict form b ≡ Some (end_line b, rules.Unfinished)) × (kept_steps form b ≡ steps) }
    ensures finished { (form : Form) (b : List ℕ) (steps : List (StepOf form)) → IsJudged form b steps []
        → phase (events_among form steps) ≡ Idle
        → (own_verdict form b ≡ None) × (steps_in form b ≡ steps) × (kept_steps form b ≡ steps) }
{}

/// The steps of a proof before its first fault are the first of its steps, and have no own fault; steps that are judged are the first
/// of them.
pub fn steps_before_the_first_fault_have_none()
    ensures first { (form : Form) (b : List ℕ) → (more : List (StepOf form)) × (steps_in form b ≡ kept_steps form b ++ more) }
    ensures judged { (form : Form) (b : List ℕ) (steps : List (StepOf form)) (left : List Line) → IsJudged form b steps left
        → (more : List (StepOf form)) × (kept_steps form b ≡ steps ++ more) }
    ensures no_faults { (form : Form) (b : List ℕ) (k : ℕ) (rule : Rule) → OwnFault form (kept_steps form b) k rule → ⊥ }
{}
