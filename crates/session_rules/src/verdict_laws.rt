// The laws of the verdict, each the contract of a function that does nothing. A key says where a fault stands in the order
// in which faults count.
ghost use Rattle.std.specs.Prelude.{◌≡◌, ◌≤◌, ◌⊎◌, ◌↔◌, ℕ, List, length, codes, slice_get, Option, Some, None, Err};
ghost use Rattle.session_rules.specs.declared.Form.{Form};
ghost use Rattle.session_rules.specs.declared.Phase.TheVariants.{Idle};
ghost use Rattle.session_rules.specs.declared.Rule.{Rule};
ghost use Rattle.session_rules.specs.declared.Side.TheVariants.{Interaction, Proof};
ghost use Rattle.session_rules.specs.declared.Verdict.{Verdict};
ghost use Rattle.session_rules.specs.declared.Verdict.TheVariants.{Accepted, Refused};
ghost use Rattle.session_rules.specs.Lines.{Line, most_bytes};
ghost use Rattle.session_rules.specs.Reading.{header_fault, value_of};
ghost use Rattle.session_rules.specs.Numbers.{rule_number};
ghost use Rattle.session_rules.specs.Keys.{Key};
ghost use Rattle.session_rules.specs.Keys as keys;
ghost use Rattle.session_rules.specs.History.{phase};
ghost use Rattle.session_rules.specs.Pair.{Refusal, verdict, verdict_within};
ghost use Rattle.session_rules.specs.Verdicts.{StepOf, rules_of, body, steps_in, events_among, OwnFault, PairFault, IsFault, IsVerdict, RefusedUpTo, own_verdict, IsOwnVerdict, KeepsOwnRules};

/// The verdict is the fault with the least key, and acceptance where there is no fault.
pub fn verdict_is_least_fault()
    ensures is_least { (form : Form) (a b : List ℕ) (v : Verdict) → verdict form a b ≡ v → IsVerdict form a b v }
    ensures only_least { (form : Form) (a b : List ℕ) (v : Verdict) → IsVerdict form a b v → verdict form a b ≡ v }
    ensures one_a_key { (form : Form) (a b : List ℕ) (key : Key) (r s : Refusal) → IsFault form a b key r → IsFault form a b key s → r ≡ s }
{}

/// The verdict is that on streams of which no more than 2^62 bytes are read: the bound has this one use.
pub fn most_bytes_bound_the_verdict()
    ensures { (form : Form) (a b : List ℕ) → verdict form a b ≡ verdict_within most_bytes form a b }
{}

/// A fault of an earlier key comes first: the headers, then for each step in turn its line, its own rules and its partners one after
/// another, then an open query, and last a line that is left. A step's own rules have the numbers 9 to 19, and those of it and one
/// of its partners 21 to 26, and 29.
pub fn earlier_faults_come_first()
    ensures refused { (form : Form) (a b : List ℕ) (key : Key) (r : Refusal) → IsFault form a b key r → RefusedUpTo form a b key }
    ensures interaction_header { (form : Form) (a b : List ℕ) (number : ℕ) (rule : Rule)
        → header_fault (codes "icnf") a ≡ Some (number, rule) → verdict form a b ≡ Refused Interaction number rule }
    ensures proof_header { (form : Form) (a b : List ℕ) (number : ℕ) (rule : Rule) → header_fault (codes "icnf") a ≡ None
        → header_fault (rules_of form).name b ≡ Some (number, rule) → verdict form a b ≡ Refused Proof number rule }
    ensures broken_line { (form : Form) (a b : List ℕ) (k : ℕ) (line : Line) (rule : Rule) → slice_get (body b) k ≡ Some line
        → length (steps_in form b) ≡ k → value_of (rules_of form).read line ≡ Err rule → RefusedUpTo form a b (keys.line_spelling k) }
    ensures own_rule { (form : Form) (a b : List ℕ) (k : ℕ) (rule : Rule)
        → OwnFault form (steps_in form b) k rule → RefusedUpTo form a b (keys.own_rule k 19) }
    ensures own_numbers { (form : Form) (ps : List (StepOf form)) (k : ℕ) (rule : Rule)
        → OwnFault form ps k rule → (9 ≤ rule_number rule) × (rule_number rule ≤ 19) }
    ensures pair_numbers { (form : Form) (a : List ℕ) (ps : List (StepOf form)) (k n : ℕ) (line : Line) (rule : Rule)
        → PairFault form a ps k n line rule → (21 ≤ rule_number rule) × ((rule_number rule ≤ 26) ⊎ (rule_number rule ≡ 29)) }
    ensures unfinished { (form : Form) (a b : List ℕ) → length (steps_in form b) ≡ length (body b)
        → (phase (events_among form (steps_in form b)) ≡ Idle → ⊥) → RefusedUpTo form a b keys.open_query }
{}

/// The own verdict is the own fault with the least key, and none exactly where the proof keeps all rules by itself. No
/// interaction is accepted with a proof that has an own fault.
pub fn own_verdict_is_least_own_fault()
    ensures is_least { (form : Form) (b : List ℕ) (v : Option (ℕ × Rule)) → own_verdict form b ≡ v → IsOwnVerdict form b v }
    ensures only_least { (form : Form) (b : List ℕ) (v : Option (ℕ × Rule)) → IsOwnVerdict form b v → own_verdict form b ≡ v }
    ensures none { (form : Form) (b : List ℕ) → (own_verdict form b ≡ None) ↔ KeepsOwnRules form b }
    ensures accepted { (form : Form) (a b : List ℕ) (n : ℕ) → verdict form a b ≡ Accepted n → own_verdict form b ≡ None }
    ensures never_accepted { (form : Form) (a b : List ℕ) (n : ℕ) (fault : ℕ × Rule)
        → own_verdict form b ≡ Some fault → verdict form a b ≡ Accepted n → ⊥ }
{}
