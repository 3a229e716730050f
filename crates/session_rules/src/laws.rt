// Laws over the definitions, each the contract of a function that does nothing.
ghost use Rattle.std.specs.Prelude.{◌≡◌, ℕ, ◌≤◌, Bool, List, Contains, Option, All, IsTrue, length, codes};
ghost use Rattle.session_rules.specs.declared.Event.{Event};
ghost use Rattle.session_rules.specs.declared.Step.{Step};
ghost use Rattle.session_rules.specs.declared.LStep.{LStep};
ghost use Rattle.session_rules.specs.Lines.{most_bytes};
ghost use Rattle.session_rules.specs.Logic as logic;
ghost use Rattle.session_rules.specs.Reading.{icnf_line, script_line, idrup_line, lidrup_line};
ghost use Rattle.session_rules.specs.Spelling.{text, event_words, step_words, id_step_words, IsEvent, IsScriptLine, IsStep, IsIdStep};
ghost use Rattle.session_rules.specs.Verdicts.{IsReadAs};

/// The rounds over all clauses close exactly where there is a closing sequence.
pub fn rounds_find_closing()
    ensures sound { (cs : List (List ℕ)) (ls : List ℕ) → IsTrue (logic.closes cs ls) → logic.Closes cs ls }
    ensures complete { (cs : List (List ℕ)) (ls : List ℕ) → logic.Closes cs ls → IsTrue (logic.closes cs ls) }
{}

/// Clauses that close from literals contradict them.
pub fn closing_is_sound()
    ensures { (cs : List (List ℕ)) (ls : List ℕ) → logic.Closes cs ls → logic.Contradicts cs ls }
{}

/// Hints that close give a closing sequence.
pub fn hints_are_sound()
    ensures { (cs : List (List ℕ)) (active : ℕ → Option (List ℕ)) (ls hints : List ℕ)
        → ((id : ℕ) (c : List ℕ) → active id ≡ Option.Some c → Contains cs c)
        → logic.hints_fail active ls hints ≡ Option.None → logic.Closes cs ls }
{}

/// What is written of values, in no more bytes than are read of a stream, is read as just these values: its header has no fault,
/// the lines behind it say the values one after another, from line 2 on, and no further line is there.
pub fn texts_are_read_back()
    ensures interaction { (es : List Event) → All IsEvent es → length (text event_words (codes "icnf") es) ≤ most_bytes
        → IsReadAs icnf_line (codes "icnf") (text event_words (codes "icnf") es) es }
    ensures script { (es : List Event) → All IsScriptLine es → length (text event_words (codes "icnf") es) ≤ most_bytes
        → IsReadAs script_line (codes "icnf") (text event_words (codes "icnf") es) es }
    ensures proof { (ps : List Step) → All IsStep ps → length (text step_words (codes "idrup") ps) ≤ most_bytes
        → IsReadAs idrup_line (codes "idrup") (text step_words (codes "idrup") ps) ps }
    ensures proof_with_ids { (ps : List LStep) → All IsIdStep ps → length (text id_step_words (codes "lidrup") ps) ≤ most_bytes
        → IsReadAs lidrup_line (codes "lidrup") (text id_step_words (codes "lidrup") ps) ps }
{}
