// What a state that stands for events says of them: each is a function without a body whose contract is the law.

ghost use Rattle.std.specs.Prelude.{◌≡◌, ◌≤◌, ◌∷◌, ◌++◌, ℕ, [], List, All};
ghost use Rattle.lits.specs.Literal.{var};
ghost use Rattle.session_rules.specs.History.{order_faults, model_faults, core_faults};
ghost use Rattle.session_events.specs.State.{State, StandsFor, AreReserved, start, with_reserved, behind, kind_of, order_rules, model_rules, core_rules};

use session_rules::Event;

/// The state of no event stands for none, and the state behind an event for the events with it. Reserving changes nothing of
/// that, and literals of variables up to the one that was reserved are reserved.
pub fn states_stand_for_events()
    ensures start { StandsFor start [] }
    ensures reserved { (s : State) (vars : ℕ) (es : List Event) → StandsFor s es → StandsFor (with_reserved s vars) es }
    ensures room { (s : State) (vars : ℕ) (ls : List ℕ) → All (λ l. var l ≤ vars) ls → AreReserved (with_reserved s vars) ls }
    ensures behind { (s : State) (e : Event) (es : List Event) → StandsFor s es → StandsFor (behind s e) (es ++ e ∷ []) }
{}

/// The rules by a state are what the next event breaks behind the events that the state stands for.
pub fn rules_are_faults()
    ensures order { (s : State) (es : List Event) (e : Event) → StandsFor s es → order_rules s (kind_of e) ≡ order_faults es e }
    ensures model { (s : State) (es : List Event) (m : List ℕ) → StandsFor s es → model_rules s m ≡ model_faults es m }
    ensures core { (s : State) (es : List Event) (u : List ℕ) → StandsFor s es → core_rules s u ≡ core_faults es u }
{}
