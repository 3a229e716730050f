//! Conflict analysis: from a false clause to a lemma with hints, which may be added and asserted at a lower level; and from a
//! false clause or a false assumption to a core of what was assumed.
//!
//! The trail is walked from its latest entry on. A literal is pending while the clause that the reasons so far give has its
//! negation. At the present level each pending literal is replaced by the others of its reason, until one alone is left, the
//! first unique implication point (J. Marques-Silva and K. Sakallah, 1996). Below it a literal is replaced where it follows of
//! others that are kept, found by a search of bounded depth (N. Sörensson and A. Biere, 2009). The walk stops where nothing is
//! pending. The reasons, in the order of the trail, are the hints.
#![tactic(auto)]

ghost use Rattle.std.specs.Prelude.{◌≡◌, ◌≢◌, ◌⊎◌, IsTrue, ℕ, ◌≤◌, ◌<◌, ◌/◌, ◌++◌, ◌∷◌, [], List, length, take, reverse, Contains, Bool, true, false, OnOk, IfOk, IfSome, MatchOption, Some};
ghost use Rattle.std.specs.Option.{IsSome};
ghost use Rattle.lits.specs.Literal.{neg, var};
ghost use Rattle.session_rules.specs.Logic.{has};
ghost use Rattle.propagation.specs.Clauses.{slot_of, active_at};
ghost use Rattle.propagation.specs.Engine.{EngineView, IsEngine, IsFalseAt, literals, level_after, level_behind, reason_in};
ghost use Rattle.search_laws.specs.Freshness.{AreLevelsPropagated};
ghost use Rattle.search_laws.specs.Asserting.{level_below};
ghost use Rattle.conflict_analysis.specs.Marked.{pending, is_pending, mark_at, IsClear};
ghost use Rattle.conflict_analysis.specs.Walking.{IsClauseAt, IsActive, IsOpen, IsMarked, IsOfClause, IsMore, IsSearching, IsWalking, IsLemma, count_top};

mod cores;
mod marks;

pub use crate::cores::{core_of_assumption, core_of_conflict};
pub use crate::marks::{Mark, Marks};
use clause_store::Slot;
use lits::Lit;
use propagation::Engine;
use std::alloc::AllocError;

/// The literals of the active clause at a slot.
fn clause_of(engine: &Engine, slot: Slot) -> &[Lit]
    requires { IsActive engine.now slot }
    ensures { (id : ℕ) (c : List ℕ) → IsClauseAt engine.now slot id c → (l : ℕ) → has result.now l ≡ has c l }
{
    let store = engine.store();
    store.lits(slot)
}

/// The id of the active clause at a slot.
fn id_of(engine: &Engine, slot: Slot) -> u64
    requires { IsActive engine.now slot }
    ensures { slot_of engine.now.clauses result ≡ Some slot }
{
    engine.store().id_of(slot)
}

/// Whether the literal or its negation came on the trail at this level.
fn has_level(engine: &Engine, m: Lit, level: u32) -> bool
    ensures yes { IsTrue result → level_behind 0 engine.now.trail m ≡ Some level }
    ensures no { result ≡ false → level_behind 0 engine.now.trail m ≢ Some level }
{
    match engine.level_of(m) {
        Some(d) => d == level,
        None => false,
    }
}

/// Marks one literal, and counts it where it wasn't pending and is of the level.
fn mark_one(
    engine: &Engine,
    marks: &mut Marks,
    m: Lit,
    level: u32,
    place: usize,
    count: usize,
) -> Result<usize, AllocError>
    requires engine { IsEngine engine.now }
    requires level { level ≡ level_after engine.now.trail }
    requires above { 0 < level }
    requires room { engine.now.vars ≤ length marks.old }
    requires open { (pending marks.old m ≡ true) ⊎ (has (literals (take place engine.now.trail)) (neg m) ≡ true) }
    requires within { m / 2 < length marks.old }
    requires count { count ≡ count_top engine.now marks.old (literals (take place engine.now.trail)) }
    ensures marked { OnOk result (pending marks.new m ≡ true) }
    ensures more { IsMore marks.old marks.new }
    ensures length { length marks.new ≡ length marks.old }
    ensures count { IfOk result (λ n. n ≡ count_top engine.now marks.new (literals (take place engine.now.trail))) }
{
    if marks.at(m).is_pending() {
        return Ok(count);
    }
    marks.set(m, Mark::Kept)?;
    if has_level(engine, m, level) {
        Ok(count + 1)
    } else {
        Ok(count)
    }
}

/// Marks the literals of a clause, and counts those of the level that weren't pending.
fn mark_all(
    engine: &Engine,
    marks: &mut Marks,
    slot: Slot,
    level: u32,
    place: usize,
    from: usize,
) -> Result<usize, AllocError>
    requires engine { IsEngine engine.now }
    requires active { IsActive engine.now slot }
    requires level { level ≡ level_after engine.now.trail }
    requires above { 0 < level }
    requires room { engine.now.vars ≤ length marks.old }
    requires open { IsOpen engine.now marks.old place slot }
    requires count { from ≡ count_top engine.now marks.old (literals (take place engine.now.trail)) }
    ensures marked { OnOk result (IsMarked engine.now marks.new slot) }
    ensures more { IsMore marks.old marks.new }
    ensures length { length marks.new ≡ length marks.old }
    ensures count { IfOk result (λ n. n ≡ count_top engine.now marks.new (literals (take place engine.now.trail))) }
{
    let mut count = from;
    for m in clause_of(engine, slot) {
        count = mark_one(engine, marks, *m, level, place, count)?;
    }
    Ok(count)
}

/// Marks a literal that isn't pending as needed.
fn mark_one_needed(marks: &mut Marks, m: Lit) -> Result<(), AllocError>
    requires { m / 2 < length marks.old }
    ensures marked { OnOk result (pending marks.new m ≡ true) }
    ensures more { IsMore marks.old marks.new }
    ensures only { OnOk result ((x : ℕ) → pending marks.new x ≡ true → (pending marks.old x ≡ true) ⊎ (x / 2 ≡ m / 2)) }
    ensures length { length marks.new ≡ length marks.old }
{
    if marks.at(m).is_pending() {
        return Ok(());
    }
    marks.set(m, Mark::Needed)
}

/// Marks the literals of a clause that aren't pending as needed.
fn mark_needed(engine: &Engine, marks: &mut Marks, slot: Slot) -> Result<(), AllocError>
    requires engine { IsEngine engine.now }
    requires active { IsActive engine.now slot }
    requires room { engine.now.vars ≤ length marks.old }
    ensures marked { OnOk result (IsMarked engine.now marks.new slot) }
    ensures only { OnOk result ((x : ℕ) → pending marks.new x ≡ true → (pending marks.old x ≡ true) ⊎ IsOfClause engine.now slot x) }
    ensures more { IsMore marks.old marks.new }
    ensures length { length marks.new ≡ length marks.old }
{
    for m in clause_of(engine, slot) {
        mark_one_needed(marks, *m)?;
    }
    Ok(())
}

/// Goes down the trail and replaces each pending literal by the negations of the others of its reason, until one alone of the
/// present level is pending: its negation comes into the lemma. Gives its place.
fn first_alone(
    engine: &Engine,
    marks: &mut Marks,
    level: u32,
    from: usize,
    lemma: &mut Vec<Lit>,
    hints: &mut Vec<u64>,
) -> Result<usize, AllocError>
    requires engine { IsEngine engine.now }
    requires level { level ≡ level_after engine.now.trail }
    requires above { 0 < level }
    requires searching { IsSearching engine.now (length engine.now.trail) marks.old hints.old.items from }
    requires empty { lemma.old.items ≡ [] }
    ensures walking { IfOk result (λ i. IsWalking engine.now i marks.new lemma.new.items hints.new.items) }
    ensures length { length marks.new ≡ length marks.old }
{
    let mut count = from;
    let trail = engine.trail();
    for i in (0..trail.len()).rev() {
        let l = trail[i];
        if marks.at(l).is_pending() {
            match engine.reason(l) {
                Some(slot) if count > 1 => {
                    count = mark_all(engine, marks, slot, level, i, count - 1)?;
                    hints.push(id_of(engine, slot))?;
                    marks.visit(l);
                }
                _ => {
                    lemma.push(l.neg())?;
                    marks.visit(l);
                    return Ok(i);
                }
            }
        }
    }
    Ok(0)
}

/// Whether each other literal of a reason is false by a literal that is kept, of level 0, or follows of such ones, by so many
/// reasons at most, one above another.
fn others_follow(
    engine: &Engine,
    marks: &mut Marks,
    l: Lit,
    slot: Slot,
    steps: u32,
) -> Result<bool, AllocError>
    requires engine { IsEngine engine.now }
    requires active { IsActive engine.now slot }
    requires room { engine.now.vars ≤ length marks.old }
    ensures pending { (x : ℕ) → pending marks.new x ≡ pending marks.old x }
    ensures length { length marks.new ≡ length marks.old }
{
    for m in clause_of(engine, slot) {
        let other = m.neg();
        if *m != l && !marks.at(other).follows() && !has_level(engine, other, 0) {
            if marks.at(other).is_failed() || steps == 0 {
                return Ok(false);
            }
            let Some(reason) = engine.reason(other) else {
                return Ok(false);
            };
            if !others_follow(engine, marks, other, reason, steps - 1)? {
                marks.set(other, Mark::Failed)?;
                return Ok(false);
            }
            marks.set(other, Mark::Redundant)?;
        }
    }
    Ok(true)
}

/// The reason by which a pending literal is replaced, or none where its negation stays in the lemma.
fn reason_to_use(engine: &Engine, marks: &mut Marks, l: Lit) -> Result<Option<Slot>, AllocError>
    requires engine { IsEngine engine.now }
    requires room { engine.now.vars ≤ length marks.old }
    requires reserved { l / 2 < length marks.old }
    ensures slot { IfOk result (λ r. IfSome r (λ s. reason_in engine.now.trail l ≡ Some s)) }
    ensures pending { (x : ℕ) → pending marks.new x ≡ pending marks.old x }
    ensures length { length marks.new ≡ length marks.old }
{
    let Some(slot) = engine.reason(l) else {
        return Ok(None);
    };
    if marks.at(l).is_needed() || has_level(engine, l, 0) {
        return Ok(Some(slot));
    }
    let follows = others_follow(engine, marks, l, slot, 1_000)?;
    if follows { Ok(Some(slot)) } else { Ok(None) }
}

/// Goes on below that place: what follows of literals that are kept is replaced, and the negations of the others come into
/// the lemma.
fn walk(
    engine: &Engine,
    marks: &mut Marks,
    from: usize,
    lemma: &mut Vec<Lit>,
    hints: &mut Vec<u64>,
) -> Result<(), AllocError>
    requires engine { IsEngine engine.now }
    requires walking { IsWalking engine.now from marks.old lemma.old.items hints.old.items }
    ensures walking { OnOk result (IsWalking engine.now 0 marks.new lemma.new.items hints.new.items) }
    ensures length { length marks.new ≡ length marks.old }
{
    let trail = engine.trail();
    for i in (0..from).rev() {
        if !marks.has_pending() {
            return Ok(());
        }
        let l = trail[i];
        if marks.at(l).is_pending() {
            match reason_to_use(engine, marks, l)? {
                Some(slot) => {
                    mark_needed(engine, marks, slot)?;
                    hints.push(id_of(engine, slot))?;
                    marks.visit(l);
                }
                None => {
                    lemma.push(l.neg())?;
                    marks.visit(l);
                }
            }
        }
    }
    Ok(())
}

/// The lemma of a conflict, and its hints from the last on.
fn run(
    engine: &Engine,
    marks: &mut Marks,
    conflict: Slot,
    lemma: &mut Vec<Lit>,
    hints: &mut Vec<u64>,
) -> Result<(), AllocError>
    requires conflict { IsFalseAt engine.now conflict }
    requires above { 0 < level_after engine.now.trail }
    requires propagated { AreLevelsPropagated engine.now }
    requires room { engine.now.vars ≤ length marks.old }
    requires clear { IsClear marks.old }
    requires no_literals { lemma.old.items ≡ [] }
    requires no_hints { hints.old.items ≡ [] }
    ensures lemma { OnOk result (IsLemma engine.now lemma.new.items (reverse hints.new.items)) }
    ensures length { length marks.new ≡ length marks.old }
{
    let level = engine.level();
    let places = engine.trail().len();
    let count = mark_all(engine, marks, conflict, level, places, 0)?;
    hints.push(id_of(engine, conflict))?;
    let place = first_alone(engine, marks, level, count, lemma, hints)?;
    walk(engine, marks, place, lemma, hints)?;
    Ok(())
}

/// The level of the second literal, 0 where there is none.
fn level_of_second(engine: &Engine, lemma: &[Lit]) -> u32
    ensures { result ≡ level_below engine.now.trail lemma.now }
{
    if lemma.len() < 2 {
        return 0;
    }
    match engine.level_of(lemma[1]) {
        Some(level) => level,
        None => 0,
    }
}

/// The lemma of a conflict above level 0, with its hints, in the order in which they close. Gives the level at which the lemma
/// may be asserted. All marks are clear before and after. An error comes only where memory runs out, and then what the lemma
/// and the hints hold is of no use.
pub fn analyze(
    engine: &Engine,
    marks: &mut Marks,
    conflict: Slot,
    lemma: &mut Vec<Lit>,
    hints: &mut Vec<u64>,
) -> Result<u32, AllocError>
    requires conflict { IsFalseAt engine.now conflict }
    requires above { 0 < level_after engine.now.trail }
    requires propagated { AreLevelsPropagated engine.now }
    requires room { engine.now.vars ≤ length marks.old }
    requires clear { IsClear marks.old }
    ensures lemma { OnOk result (IsLemma engine.now lemma.new.items hints.new.items) }
    ensures level { IfOk result (λ n. n ≡ level_below engine.now.trail lemma.new.items) }
    ensures clear { IsClear marks.new }
    ensures length { length marks.new ≡ length marks.old }
{
    lemma.clear();
    hints.clear();
    let found = run(engine, marks, conflict, lemma, hints);
    marks.clear();
    found?;
    hints.reverse();
    Ok(level_of_second(engine, lemma))
}
