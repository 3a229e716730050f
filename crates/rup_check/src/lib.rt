//! Whether literals are refuted by unit propagation: the test by which a lemma and a core are checked.
//!
//! The engine's trail without assumptions is extended as far as it goes and stays so, since it serves the next test. Then the
//! literals are assumed one after another, each as a level of its own, and propagation goes on. There is a closing sequence
//! exactly where a literal to be assumed is false already, or a clause becomes false. Behind the test the engine is back at
//! level 0.
//!
//! `closes_with` answers with hints, too: from the false clause, or from the reason of the false literal, back along the trail,
//! the reasons of the literals that are needed, and no other.
#![tactic(auto)]

ghost use Rattle.std.specs.Prelude.{◌≡◌, ℕ, ◌≤◌, List, ◌++◌, Contains, All, IsTrue, Bool, true, false, None, IfOk, IfSome, IfNone, OnErr, is_some};
ghost use Rattle.lits.specs.Literal.{var, neg};
ghost use Rattle.session_rules.specs.Logic as logic;
ghost use Rattle.propagation.specs.declared.TrailEntry.{TrailEntry};
ghost use Rattle.propagation.specs.Clauses.{active, active_at, slot_of};
ghost use Rattle.propagation.specs.Engine.{literals, level_after, Grows, IsEngine, IsOnce};
ghost use Rattle.rup_check.specs.Assuming.{Assumes, AreFew, IsFalseOf};

mod tracing;

pub use crate::tracing::Tracer;
use lits::Lit;
use propagation::Engine;
use session_rules::Ids;
use std::alloc::AllocError;

/// Whether there is a closing sequence of the active clauses from these literals.
pub fn closes(engine: &mut Engine, start: &[Lit]) -> bool
    requires level { level_after engine.old.trail ≡ 0 }
    requires reserved { (l : ℕ) → Contains start.now l → var l ≤ engine.old.vars }
    ensures sound { IsTrue result → logic.Closes (active engine.old.clauses) start.now }
    ensures complete { logic.Closes (active engine.old.clauses) start.now → IsTrue result }
    ensures frame { Grows engine.old engine.new }
{
    if engine.propagate().is_some() {
        return true;
    }
    let closed = assume_each(engine, start) || engine.propagate().is_some();
    engine.back_to(0);
    closed
}

/// Assumes each of the literals that is free, until one is false. Whether one is.
fn assume_each(engine: &mut Engine, start: &[Lit]) -> bool
    requires { (l : ℕ) → Contains start.now l → var l ≤ engine.old.vars }
    ensures assumed { Assumes start.now engine.old engine.new }
    ensures engine { IsTrue result → IsEngine engine.new }
    ensures opposite { IsTrue result
        → (l : ℕ) × Contains start.now l × IsTrue (logic.has (literals engine.new.trail) (neg l)) }
    ensures each { result ≡ false
        → (l : ℕ) → Contains start.now l → IsTrue (logic.has (literals engine.new.trail) l) }
{
    assume_until_false(engine, start).is_some()
}

/// Assumes each of the literals that is free, until one is false, which is the answer.
fn assume_until_false(engine: &mut Engine, start: &[Lit]) -> Option<Lit>
    requires { (l : ℕ) → Contains start.now l → var l ≤ engine.old.vars }
    ensures assumed { Assumes start.now engine.old engine.new }
    ensures opposite { IfSome result (IsFalseOf start.now engine.new) }
    ensures each { IfNone result ((l : ℕ) → Contains start.now l → IsTrue (logic.has (literals engine.new.trail) l)) }
{
    for l in start {
        match engine.value(*l) {
            Some(true) => {}
            Some(false) => return Some(*l),
            None => engine.assume(*l),
        }
    }
    None
}

/// As `closes`; where there is a closing sequence the hints become ids of active clauses that close, none of them twice, and none
/// that isn't needed. Else, and where memory is wanting, they stay.
pub fn closes_with(
    engine: &mut Engine,
    tracer: &mut Tracer,
    start: &[Lit],
    hints: &mut Ids,
) -> Result<bool, AllocError>
    requires level { level_after engine.old.trail ≡ 0 }
    requires reserved { (l : ℕ) → Contains start.now l → var l ≤ engine.old.vars }
    ensures closed { IfOk result (λ b. IsTrue b
        → logic.hints_fail (active_at engine.old.clauses) start.now hints.new ≡ None) }
    ensures once { IfOk result (λ b. IsTrue b → IsOnce hints.new) }
    ensures active { IfOk result (λ b. IsTrue b
        → (id : ℕ) → IsTrue (logic.has hints.new id) → IsTrue (is_some (slot_of engine.old.clauses id))) }
    ensures few { IfOk result (λ b. IsTrue b → AreFew engine.old.clauses start.now hints.new) }
    ensures complete { IfOk result (λ b. b ≡ false → logic.Closes (active engine.old.clauses) start.now → ⊥) }
    ensures kept { IfOk result (λ b. b ≡ false → hints.new ≡ hints.old) }
    ensures err { OnErr result (hints.new ≡ hints.old) }
    ensures frame { Grows engine.old engine.new }
{
    tracer.reserve(engine.vars())?;
    if let Some(slot) = engine.propagate() {
        tracer.conflict(engine, slot, hints)?;
        return Ok(true);
    }
    if let Some(l) = assume_until_false(engine, start) {
        let traced = tracer.assumption(engine, l, hints);
        engine.back_to(0);
        traced?;
        return Ok(true);
    }
    if let Some(slot) = engine.propagate() {
        let traced = tracer.conflict(engine, slot, hints);
        engine.back_to(0);
        traced?;
        return Ok(true);
    }
    engine.back_to(0);
    Ok(false)
}
