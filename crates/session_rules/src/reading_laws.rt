// Laws that tie what is computed of a line's words to the lines that are spelled, each the contract of a function that does
// nothing.
ghost use Rattle.std.specs.Prelude.{◌≡◌, ◌↔◌, ℕ, false, List, Option, Result};
ghost use Rattle.session_rules.specs.declared.Event.{Event};
ghost use Rattle.session_rules.specs.declared.Step.{Step};
ghost use Rattle.session_rules.specs.declared.LStep.{LStep};
ghost use Rattle.session_rules.specs.declared.Rule.{Rule};
ghost use Rattle.session_rules.specs.Lines.{Line};
ghost use Rattle.session_rules.specs.Reading.{wrong, missing, icnf_line, script_line, idrup_line, lidrup_line, header_line, broken};
ghost use Rattle.session_rules.specs.Spelling.{event_words, step_words, id_step_words, header_words, IsEvent, IsScriptLine, IsStep, IsIdStep, Spells};
ghost use Rattle.session_rules.specs.WrongWord.{BreaksByWord, BreaksAtEnd, BreaksLine, HeaderBreaksByWord, HeaderBreaksAtEnd};

/// What is read is spelled: words are read as a value exactly where they are those of its line.
pub fn what_is_read_is_spelled()
    ensures interaction { (ws : List (List ℕ)) (x : Event)
        → (icnf_line ws ≡ Result.Ok x) ↔ Spells IsEvent event_words ws x }
    ensures script { (ws : List (List ℕ)) (x : Event)
        → (script_line ws ≡ Result.Ok x) ↔ Spells IsScriptLine event_words ws x }
    ensures proof { (ws : List (List ℕ)) (x : Step) → (idrup_line ws ≡ Result.Ok x) ↔ Spells IsStep step_words ws x }
    ensures proof_with_ids { (ws : List (List ℕ)) (x : LStep)
        → (lidrup_line ws ≡ Result.Ok x) ↔ Spells IsIdStep id_step_words ws x }
    ensures header { (name : List ℕ) (ws : List (List ℕ))
        → (header_line name ws ≡ Result.Ok tt) ↔ (ws ≡ header_words name) }
{}

/// The words of a line spell one value at most.
pub fn a_line_spells_one_value()
    ensures interaction { (ws : List (List ℕ)) (x y : Event)
        → Spells IsEvent event_words ws x → Spells IsEvent event_words ws y → x ≡ y }
    ensures script { (ws : List (List ℕ)) (x y : Event)
        → Spells IsScriptLine event_words ws x → Spells IsScriptLine event_words ws y → x ≡ y }
    ensures proof { (ws : List (List ℕ)) (x y : Step)
        → Spells IsStep step_words ws x → Spells IsStep step_words ws y → x ≡ y }
    ensures proof_with_ids { (ws : List (List ℕ)) (x y : LStep)
        → Spells IsIdStep id_step_words ws x → Spells IsIdStep id_step_words ws y → x ≡ y }
{}

/// A word is read as wrong exactly where it is the first up to and with which no line is spelled, and its rule is that of its
/// place.
pub fn wrong_words_are_the_first()
    ensures interaction { (ws : List (List ℕ)) (r : Rule)
        → (icnf_line ws ≡ Result.Err (wrong r)) ↔ BreaksByWord IsEvent event_words ws r }
    ensures script { (ws : List (List ℕ)) (r : Rule)
        → (script_line ws ≡ Result.Err (wrong r)) ↔ BreaksByWord IsScriptLine event_words ws r }
    ensures proof { (ws : List (List ℕ)) (r : Rule)
        → (idrup_line ws ≡ Result.Err (wrong r)) ↔ BreaksByWord IsStep step_words ws r }
    ensures proof_with_ids { (ws : List (List ℕ)) (r : Rule)
        → (lidrup_line ws ≡ Result.Err (wrong r)) ↔ BreaksByWord IsIdStep id_step_words ws r }
    ensures header { (name : List ℕ) (ws : List (List ℕ)) (r : Rule)
        → (header_line name ws ≡ Result.Err (wrong r)) ↔ HeaderBreaksByWord name ws r }
{}

/// A word is read as missing exactly where the words begin a spelled line and are none, and its rule is that of the end.
pub fn missing_words_are_due()
    ensures interaction { (ws : List (List ℕ)) (r : Rule)
        → (icnf_line ws ≡ Result.Err (missing r)) ↔ BreaksAtEnd IsEvent event_words ws r }
    ensures script { (ws : List (List ℕ)) (r : Rule)
        → (script_line ws ≡ Result.Err (missing r)) ↔ BreaksAtEnd IsScriptLine event_words ws r }
    ensures proof { (ws : List (List ℕ)) (r : Rule)
        → (idrup_line ws ≡ Result.Err (missing r)) ↔ BreaksAtEnd IsStep step_words ws r }
    ensures proof_with_ids { (ws : List (List ℕ)) (r : Rule)
        → (lidrup_line ws ≡ Result.Err (missing r)) ↔ BreaksAtEnd IsIdStep id_step_words ws r }
    ensures header { (name : List ℕ) (ws : List (List ℕ)) (r : Rule)
        → (header_line name ws ≡ Result.Err (missing r)) ↔ HeaderBreaksAtEnd name ws r }
{}

/// A line breaks no rule exactly where it isn't cut and spells a value.
pub fn unbroken_lines_are_spelled()
    ensures interaction { (line : Line)
        → (broken icnf_line line ≡ Option.None)
        ↔ (line.cut ≡ false) × ((x : Event) × Spells IsEvent event_words line.words x) }
    ensures script { (line : Line)
        → (broken script_line line ≡ Option.None)
        ↔ (line.cut ≡ false) × ((x : Event) × Spells IsScriptLine event_words line.words x) }
    ensures proof { (line : Line)
        → (broken idrup_line line ≡ Option.None)
        ↔ (line.cut ≡ false) × ((x : Step) × Spells IsStep step_words line.words x) }
    ensures proof_with_ids { (line : Line)
        → (broken lidrup_line line ≡ Option.None)
        ↔ (line.cut ≡ false) × ((x : LStep) × Spells IsIdStep id_step_words line.words x) }
    ensures header { (name : List ℕ) (line : Line)
        → (broken (header_line name) line ≡ Option.None) ↔ (line.cut ≡ false) × (line.words ≡ header_words name) }
{}

/// The rule that a line breaks is that of its first wrong word; else of its end, or Length where it is cut. Of a line that is cut
/// only the words before the cut are looked at, and none where it has no content.
pub fn broken_lines_break_a_rule()
    ensures interaction { (line : Line) (r : Rule)
        → (broken icnf_line line ≡ Option.Some r)
        ↔ BreaksLine (BreaksByWord IsEvent event_words) (BreaksAtEnd IsEvent event_words) line r }
    ensures script { (line : Line) (r : Rule)
        → (broken script_line line ≡ Option.Some r)
        ↔ BreaksLine (BreaksByWord IsScriptLine event_words) (BreaksAtEnd IsScriptLine event_words) line r }
    ensures proof { (line : Line) (r : Rule)
        → (broken idrup_line line ≡ Option.Some r)
        ↔ BreaksLine (BreaksByWord IsStep step_words) (BreaksAtEnd IsStep step_words) line r }
    ensures proof_with_ids { (line : Line) (r : Rule)
        → (broken lidrup_line line ≡ Option.Some r)
        ↔ BreaksLine (BreaksByWord IsIdStep id_step_words) (BreaksAtEnd IsIdStep id_step_words) line r }
    ensures header { (name : List ℕ) (line : Line) (r : Rule)
        → (broken (header_line name) line ≡ Option.Some r)
        ↔ BreaksLine (HeaderBreaksByWord name) (HeaderBreaksAtEnd name) line r }
{}
