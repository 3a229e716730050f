//! The laws on which a search for a model stands. They are about what `Engine` shows alone, so each search over its public calls may
//! cite them: the analysis of a conflict along the trail, from its latest entry on; the lemma that it gives, which may be added
//! and asserted at the level of its second literal, and is new; and the number by which a search ends, whatever it assumes.
#![tactic(auto)]

ghost use Rattle.std.specs.Prelude.{◌≡◌, ℕ, ◌+◌, ◌-◌, ◌*◌, ◌^◌, ◌<◌, ◌≤◌, ◌⊎◌, Bool, false, ◌||◌, List, [], ◌∷◌, ◌++◌, map, slice_index, Contains, Option, IsTrue};
ghost use Rattle.lits.specs.Literal.{neg, var, of_var};
ghost use Rattle.session_rules.specs.Logic.{has, is_falsified, hints_fail, Forced, satisfies, satisfies_formula};
ghost use Rattle.propagation.specs.declared.TrailEntry.{TrailEntry};
ghost use Rattle.propagation.specs.Engine.{EngineView, IsEngine, IsFree, IsOnce, literals, up_to_level, level_after, level_behind, with_trail, with_entry, with_added, IsPropagated, Grows};
ghost use Rattle.propagation.specs.Clauses.{slot_of, active_at, active};
ghost use Rattle.search_laws.specs.Asserting.{CanAssert, IsLatestFirst, IsPicked, level_below};
ghost use Rattle.search_laws.specs.Freshness.{AreLevelsPropagated, IsFresh};
ghost use Rattle.search_laws.specs.Analysis.{Closing, IsAnalysed, IsForcedBy, AreRedundant, IsMinimised};
ghost use Rattle.search_laws.specs.Number.{number};

/// Literals that are taken of the trail from its end on stand in the order of the trail, each once, and are false.
pub fn lemma_is_picked()
    ensures start { (ss : List TrailEntry) → IsPicked ss [] [] }
    ensures skip { (before after : List TrailEntry) (s : TrailEntry) (ls : List ℕ) → IsPicked (before ++ s ∷ []) after ls → IsPicked before (s ∷ after) ls }
    ensures keep { (e : EngineView) (before after : List TrailEntry) (s : TrailEntry) (ls : List ℕ) → IsEngine e → e.trail ≡ before ++ s ∷ after → IsPicked (before ++ s ∷ []) after ls
        → IsPicked before (s ∷ after) (ls ++ neg s.lit ∷ []) }
{}

/// A lemma whose first literal alone is of its level may be asserted once the trail is cut at the level of the second, which is
/// lower than the present one, and stays the level of the second.
pub fn lemma_asserts()
    ensures asserts { (e : EngineView) → IsEngine e → (l d : ℕ) (ms : List ℕ) → IsLatestFirst (literals e.trail) (l ∷ ms) → IsOnce (l ∷ ms)
        → ((m : ℕ) → Contains (l ∷ ms) m → IsTrue (has (literals e.trail) (neg m))) → level_behind 0 e.trail l ≡ Option.Some d → level_below e.trail (l ∷ ms) < d
        → CanAssert (with_trail e (up_to_level (level_below e.trail (l ∷ ms)) e.trail)) (l ∷ ms) }
    ensures goes_back { (e : EngineView) → IsEngine e → (l d : ℕ) (ms : List ℕ) → IsTrue (has (literals e.trail) (neg l)) → level_behind 0 e.trail l ≡ Option.Some d
        → level_below e.trail (l ∷ ms) < d → level_below e.trail (l ∷ ms) < level_after e.trail }
    ensures stays { (e : EngineView) → IsEngine e → (l d : ℕ) (ms : List ℕ) → ((m : ℕ) → Contains (l ∷ ms) m → IsTrue (has (literals e.trail) (neg m))) → level_behind 0 e.trail l ≡ Option.Some d
        → level_below e.trail (l ∷ ms) < d → (level_after (up_to_level (level_below e.trail (l ∷ ms)) e.trail) ≡ level_below e.trail (l ∷ ms))
        × (level_below (up_to_level (level_below e.trail (l ∷ ms)) e.trail) (l ∷ ms) ≡ level_below e.trail (l ∷ ms)) }
{}

/// Before each assumed literal propagation had ended: this holds at level 0, and stays at each call.
pub fn levels_stay_propagated()
    ensures zero { (e : EngineView) → level_after e.trail ≡ 0 → AreLevelsPropagated e }
    ensures assume { (e : EngineView) (l : ℕ) → AreLevelsPropagated e → IsPropagated e → AreLevelsPropagated (with_entry e l Option.None) }
    ensures propagate { (e new : EngineView) → AreLevelsPropagated e → Grows e new → AreLevelsPropagated new }
    ensures back_to { (e : EngineView) (n : ℕ) → AreLevelsPropagated e → AreLevelsPropagated (with_trail e (up_to_level n e.trail)) }
    ensures assert { (e : EngineView) (ls : List ℕ) (id s : ℕ) → IsEngine e → AreLevelsPropagated e → CanAssert e ls → level_below e.trail ls ≡ level_after e.trail
        → AreLevelsPropagated (with_entry (with_added e id ls s) (slice_index ls 0) (Option.Some s)) }
{}

/// A lemma that may be asserted below the present level, minimised or not, is no tautology, and no active clause has a set that
/// is a part of it.
pub fn lemmas_are_fresh()
    ensures ended { (e : EngineView) (n : ℕ) → AreLevelsPropagated e → n < level_after e.trail → IsPropagated (with_trail e (up_to_level n e.trail)) }
    ensures fresh { (e : EngineView) (ls : List ℕ) → IsEngine e → IsPropagated e → CanAssert e ls → IsFresh e ls }
{}

/// The start of an analysis: at a false clause, or at an entry that has made an assumption false.
pub fn analysis_starts()
    ensures conflict { (e : EngineView) → IsEngine e → (pending : ℕ → Bool) (id s : ℕ) (c : List ℕ) → slot_of e.clauses id ≡ Option.Some s → active_at e.clauses id ≡ Option.Some c
        → IsTrue (is_falsified (literals e.trail) c) → ((m : ℕ) → Contains c m → IsTrue (pending (neg m))) → IsAnalysed e.clauses e.trail pending [] (id ∷ []) }
    ensures assumption { (e : EngineView) → IsEngine e → (before after : List TrailEntry) (s : TrailEntry) (pending : ℕ → Bool) (id : ℕ) (c : List ℕ) → e.trail ≡ before ++ s ∷ after
        → IsForcedBy e.clauses s id c → ((m : ℕ) → Contains c m → (s.lit ≡ m) ⊎ IsTrue (pending (neg m))) → IsAnalysed e.clauses before pending (s.lit ∷ []) (id ∷ []) }
{}

/// The steps of an analysis at the latest literal that is left: it isn't pending, its negation stays in the lemma, or it is
/// replaced by the negations of the other literals of its reason.
pub fn analysis_goes_on()
    ensures skip { (e : EngineView) → IsEngine e → (before : List TrailEntry) (s : TrailEntry) (pending : ℕ → Bool) (lemma hints : List ℕ) → pending s.lit ≡ false
        → IsAnalysed e.clauses (before ++ s ∷ []) pending lemma hints → IsAnalysed e.clauses before pending lemma hints }
    ensures keep { (e : EngineView) → IsEngine e → (before : List TrailEntry) (s : TrailEntry) (pending : ℕ → Bool) (lemma hints : List ℕ)
        → IsAnalysed e.clauses (before ++ s ∷ []) pending lemma hints → IsAnalysed e.clauses before pending (lemma ++ neg s.lit ∷ []) hints }
    ensures more { (e : EngineView) → IsEngine e → (before : List TrailEntry) (pending now : ℕ → Bool) (lemma hints : List ℕ) → ((l : ℕ) → IsTrue (has (literals before) l) → IsTrue (pending l) → IsTrue (now l))
        → IsAnalysed e.clauses before pending lemma hints → IsAnalysed e.clauses before now lemma hints }
    ensures resolve { (e : EngineView) → IsEngine e → (before after : List TrailEntry) (s : TrailEntry) (pending now : ℕ → Bool) (lemma hints : List ℕ) (id : ℕ) (c : List ℕ)
        → e.trail ≡ before ++ s ∷ after → IsForcedBy e.clauses s id c → ((m : ℕ) → Contains c m → (s.lit ≡ m) ⊎ IsTrue (now (neg m)))
        → ((l : ℕ) → IsTrue (has (literals before) l) → IsTrue (pending l) → IsTrue (now l))
        → IsAnalysed e.clauses (before ++ s ∷ []) pending lemma hints → IsAnalysed e.clauses before now lemma (id ∷ hints) }
{}

/// Hints close whatever the order in which literals came, as long as each takes away a literal that is needed: so reasons may be
/// told in the order of a search that goes from a literal to those of its reason, each behind these.
pub fn hints_go_on()
    ensures start { (active : ℕ → Option (List ℕ)) (need : ℕ → Bool) (id : ℕ) (c : List ℕ) → active id ≡ Option.Some c → ((m : ℕ) → Contains c m → IsTrue (need (neg m))) → Closing active need (id ∷ []) }
    ensures step { (active : ℕ → Option (List ℕ)) (need now : ℕ → Bool) (hints : List ℕ) (id l : ℕ) (c : List ℕ) → active id ≡ Option.Some c → ((m : ℕ) → Contains c m → (l ≡ m) ⊎ IsTrue (now (neg m)))
        → ((m : ℕ) → IsTrue (need m) → (m ≡ l) ⊎ IsTrue (now m)) → Closing active need hints → Closing active now (id ∷ hints) }
    ensures more { (active : ℕ → Option (List ℕ)) (need now : ℕ → Bool) (hints : List ℕ) → ((m : ℕ) → IsTrue (need m) → IsTrue (now m)) → Closing active need hints → Closing active now hints }
    ensures end { (active : ℕ → Option (List ℕ)) (need : ℕ → Bool) (hints ls : List ℕ) → ((l : ℕ) → IsTrue (need l) → IsTrue (has ls l)) → Closing active need hints → hints_fail active ls hints ≡ Option.None }
{}

/// The end of an analysis: where nothing is pending, the hints close from the negations of the lemma's literals, and from all
/// literals that have these. So they close from the assumptions where the lemma has negations of assumptions alone.
pub fn analysis_ends()
    ensures lemma { (e : EngineView) → IsEngine e → (before : List TrailEntry) (pending : ℕ → Bool) (lemma hints : List ℕ) → ((l : ℕ) → IsTrue (has (literals before) l) → pending l ≡ false)
        → IsAnalysed e.clauses before pending lemma hints → hints_fail (active_at e.clauses) (map neg lemma) hints ≡ Option.None }
    ensures core { (e : EngineView) → IsEngine e → (before : List TrailEntry) (pending : ℕ → Bool) (lemma hints ls : List ℕ) → ((l : ℕ) → IsTrue (has (literals before) l) → pending l ≡ false)
        → ((l : ℕ) → Contains lemma l → IsTrue (has ls (neg l))) → IsAnalysed e.clauses before pending lemma hints → hints_fail (active_at e.clauses) ls hints ≡ Option.None }
{}

/// Of the literals that are yet to be visited those may be left out of the lemma that have a reason whose other literals are
/// kept or may be left out too, as each literal of level 0 may: their reasons come to the hints, latest first.
pub fn lemma_is_minimised()
    ensures minimised { (e : EngineView) → IsEngine e → (kept redundant : ℕ → Bool) → AreRedundant e.clauses e.trail kept redundant → (before after : List TrailEntry) (pending : ℕ → Bool) (lemma hints : List ℕ)
        → e.trail ≡ before ++ after → ((l : ℕ) → IsTrue (has (literals before) l) → IsTrue (pending l) → IsTrue (kept l || redundant l)) → IsAnalysed e.clauses before pending lemma hints
        → IsMinimised e.clauses (λ l. kept l || redundant l) kept redundant lemma hints }
    ensures zero { (e : EngineView) (kept : ℕ → Bool) → IsEngine e → AreRedundant e.clauses (up_to_level 0 e.trail) kept (λ l. has (literals (up_to_level 0 e.trail)) l) }
{}

/// The literals of level 0 are forced, and where propagation has ended each forced literal is true. So what was forced then
/// stays forced while these literals stay at level 0.
pub fn level_zero_is_forced()
    ensures sound { (e : EngineView) (l : ℕ) → IsEngine e → IsTrue (has (literals (up_to_level 0 e.trail)) l) → Forced (active e.clauses) l }
    ensures complete { (e : EngineView) (l : ℕ) → IsPropagated e → Forced (active e.clauses) l → IsTrue (has (literals e.trail) l) }
    ensures kept { (e now : EngineView) → IsPropagated e → IsEngine now → ((l : ℕ) → IsTrue (has (literals e.trail) l) → IsTrue (has (literals (up_to_level 0 now.trail)) l))
        → (l : ℕ) → Forced (active e.clauses) l → Forced (active now.clauses) l }
{}

/// Where propagation has ended and no reserved variable is free, the trail is a model of the active clauses and of its literals.
pub fn trail_is_model()
    ensures clauses { (e : EngineView) → IsEngine e → IsPropagated e → ((l : ℕ) → var l ≤ e.vars → IsFree (literals e.trail) l → ⊥)
        → IsTrue (satisfies_formula (λ v. has (literals e.trail) (of_var v)) (active e.clauses)) }
    ensures literals { (e : EngineView) (l : ℕ) → IsEngine e → IsTrue (has (literals e.trail) l) → IsTrue (satisfies (λ v. has (literals e.trail) (of_var v)) l) }
{}

/// The number rises at an assumed literal and at an asserted lemma, falls at no propagation, and is below 3 to the power of the
/// number of variables.
pub fn number_rises()
    ensures assume { (e : EngineView) (s : TrailEntry) → IsEngine e → var s.lit ≤ e.vars → IsFree (literals e.trail) s.lit → number e.vars e.trail < number e.vars (e.trail ++ s ∷ []) }
    ensures propagate { (v : ℕ) (e new : EngineView) → Grows e new → number v e.trail ≤ number v new.trail }
    ensures learn { (e : EngineView) (n r : ℕ) (s : TrailEntry) → IsEngine e → n < level_after e.trail → s.reason ≡ Option.Some r
        → number e.vars e.trail < number e.vars (up_to_level n e.trail ++ s ∷ []) }
    ensures bound { (v : ℕ) (ss : List TrailEntry) → number v ss < 3 ^ v }
{}

/// So the lemmas are counted by the restarts and the number, and a measure falls at each step and at each restart.
pub fn search_ends()
    ensures lemma { (v lemmas restarts : ℕ) (t s : List TrailEntry) → lemmas ≤ restarts * 3 ^ v + number v t → number v t < number v s → lemmas + 1 ≤ restarts * 3 ^ v + number v s }
    ensures restart { (v lemmas restarts : ℕ) (t s : List TrailEntry) → lemmas ≤ restarts * 3 ^ v + number v t → lemmas ≤ (restarts + 1) * 3 ^ v + number v s }
    ensures between { (v lemmas : ℕ) (t : List TrailEntry) → lemmas ≤ number v t → lemmas < 3 ^ v }
    ensures total { (v lemmas restarts limit : ℕ) (t : List TrailEntry) → restarts ≤ limit → lemmas ≤ restarts * 3 ^ v + number v t → lemmas < (limit + 1) * 3 ^ v }
    ensures step_falls { (v : ℕ) (t s : List TrailEntry) → number v t < number v s → 3 ^ v - number v s < 3 ^ v - number v t }
    ensures restart_falls { (v limit restarts : ℕ) (t s : List TrailEntry) → restarts < limit
        → (limit - (restarts + 1)) * 3 ^ v + (3 ^ v - number v s) < (limit - restarts) * 3 ^ v + (3 ^ v - number v t) }
{}
