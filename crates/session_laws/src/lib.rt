//! Laws over the definitions that few crates cite, above all that an accepted pair is certified. Each is the contract of
//! a function that does nothing, so that the gate proves it.
#![tactic(auto)]

ghost use Rattle.std.specs.Prelude.{◌≡◌, ℕ, ◌<◌, ◌⊎◌, ◌++◌, List, [], length, filter, is_some, Some, IsTrue};
ghost use Rattle.session_rules.specs.declared.Form.{Form};
ghost use Rattle.session_rules.specs.declared.Standing.TheVariants.{Active, Weakened};
ghost use Rattle.session_rules.specs.declared.Event.TheVariants as events;
ghost use Rattle.session_rules.specs.declared.Step.{Step};
ghost use Rattle.session_rules.specs.declared.Step.TheVariants as steps;
ghost use Rattle.session_rules.specs.declared.LStep.{LStep};
ghost use Rattle.session_rules.specs.declared.LStep.TheVariants as lsteps;
ghost use Rattle.session_rules.specs.Logic.{is_part, same_set, Implies, Contradicts, IsSatisfiable};
ghost use Rattle.session_rules.specs.History.{inputs, assumed, query_of};
ghost use Rattle.session_rules.specs.Own.{active_copies, weakened_copies, events_of, own_faults, standing_after, clause_of, id_events_of, own_id_faults};
ghost use Rattle.session_laws.specs.Keeping.{WithoutOwnFaults};
ghost use Rattle.session_rules.specs.declared.Rule.{Rule};
ghost use Rattle.session_rules.specs.declared.Side.{Side};
ghost use Rattle.session_rules.specs.declared.Side.TheVariants.{Interaction, Proof};
ghost use Rattle.session_rules.specs.declared.Verdict.TheVariants.{Accepted, Refused};
ghost use Rattle.session_rules.specs.Pair.{verdict, refusal, Certified, events_in};
ghost use Rattle.session_rules.specs.Keys.{Key};
ghost use Rattle.session_rules.specs.Verdicts.{body, steps_in, events_among, lines_taken, IsFault};
ghost use Rattle.session_laws.specs.Refusals.{file_of, IsLineOf, ProofRefused, InteractionRefused, IsWhole};

/// Copies of clauses are counted by their sets.
pub fn copies_are_counted_by_sets()
    ensures active { (ps : List Step) (c d : List ℕ) → IsTrue (same_set c d) → active_copies ps c ≡ active_copies ps d }
    ensures weakened { (ps : List Step) (c d : List ℕ) → IsTrue (same_set c d) → weakened_copies ps c ≡ weakened_copies ps d }
{}

/// Nothing is lost: in a proof without own faults each clause that is active or weakened follows from the inputs so far.
pub fn nothing_is_lost()
    ensures by_sets { (ps : List Step) → WithoutOwnFaults own_faults ps
        → (c : List ℕ) → (0 < active_copies ps c) ⊎ (0 < weakened_copies ps c) → Implies (inputs (events_of ps)) c }
    ensures by_ids { (ps : List LStep) → WithoutOwnFaults own_id_faults ps
        → (id : ℕ) (c : List ℕ) → (standing_after ps id ≡ Active) ⊎ (standing_after ps id ≡ Weakened) → clause_of ps id ≡ Some c
        → Implies (inputs (id_events_of ps)) c }
{}

/// A model that breaks no rule satisfies all inputs so far and the assumptions: one assignment satisfies them and the model.
pub fn models_satisfy()
    ensures without_ids { (ps : List Step) (m : List ℕ) → own_faults ps (steps.Event (events.Model m)) ≡ []
        → IsSatisfiable (inputs (events_of ps)) (assumed (events_of ps) ++ m) }
    ensures with_ids { (ps : List LStep) (m : List ℕ) → own_id_faults ps (lsteps.Model m) ≡ []
        → IsSatisfiable (inputs (id_events_of ps)) (assumed (id_events_of ps) ++ m) }
{}

/// A core that breaks no rule behind steps without own faults has assumptions alone, and the inputs so far contradict it.
pub fn cores_contradict()
    ensures without_ids { (ps : List Step) (u : List ℕ) → WithoutOwnFaults own_faults ps → own_faults ps (steps.Event (events.Core u)) ≡ []
        → IsTrue (is_part u (assumed (events_of ps))) × Contradicts (inputs (events_of ps)) u }
    ensures with_ids { (ps : List LStep) (u hs : List ℕ) → WithoutOwnFaults own_id_faults ps → own_id_faults ps (lsteps.Core u hs) ≡ []
        → IsTrue (is_part u (assumed (id_events_of ps))) × Contradicts (inputs (id_events_of ps)) u }
{}

/// At each satisfiable answer of an accepted interaction the proof has a model for the same query, and one assignment satisfies the
/// inputs, the assumptions, this model and all that the interaction tells of it. At each unsatisfiable answer it has a core of
/// assumptions that the inputs contradict; a core line of the interaction holds that core and is contradicted too, and failed
/// assumptions are in it. Each line of the interaction says an event and is a partner of an event of the proof, and the verdict's
/// number is that of its queries.
pub fn acceptance_certifies()
    ensures certified { (form : Form) (a b : List ℕ) (n : ℕ) → verdict form a b ≡ Accepted n
        → Certified (events_in a) (events_among form (steps_in form b)) }
    ensures whole { (form : Form) (a b : List ℕ) (n : ℕ) → verdict form a b ≡ Accepted n → IsWhole a }
    ensures partners { (form : Form) (a b : List ℕ) (n : ℕ) → verdict form a b ≡ Accepted n
        → lines_taken (events_among form (steps_in form b)) (body a) ≡ length (body a) }
    ensures queries { (form : Form) (a b : List ℕ) (n : ℕ) → verdict form a b ≡ Accepted n
        → n ≡ length (filter (λ e. is_some (query_of e)) (events_in a)) }
{}

/// A refusal names a line that is there, or the end line, and a rule that this line breaks. Each line of the proof with a lesser
/// number, or up to the event whose partner is named, says a step that keeps all rules of its own; where a line behind the partners
/// of all events is named, the whole proof keeps its rules.
pub fn refusal_names_first_broken_rule()
    ensures line_is_there { (form : Form) (a b : List ℕ) (side : Side) (number : ℕ) (rule : Rule)
        → verdict form a b ≡ Refused side number rule → IsLineOf (file_of side a b) number }
    ensures rule_is_broken { (form : Form) (a b : List ℕ) (side : Side) (number : ℕ) (rule : Rule)
        → verdict form a b ≡ Refused side number rule → (key : Key) × IsFault form a b key (refusal side number rule) }
    ensures proof { (form : Form) (a b : List ℕ) (number : ℕ) (rule : Rule)
        → verdict form a b ≡ Refused Proof number rule → ProofRefused form b number rule }
    ensures interaction { (form : Form) (a b : List ℕ) (number : ℕ) (rule : Rule)
        → verdict form a b ≡ Refused Interaction number rule → InteractionRefused form a b number rule }
{}
