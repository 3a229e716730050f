// Cores: of a false clause, or of a false assumption, back to what was assumed. As a lemma's, but each literal that has a reason
// is replaced.

ghost use Rattle.std.specs.Prelude.{◌≡◌, IsTrue, ◌≤◌, ◌∷◌, [], length, reverse, OnOk};
ghost use Rattle.lits.specs.Literal.{neg};
ghost use Rattle.session_rules.specs.Logic.{has};
ghost use Rattle.propagation.specs.Engine.{IsEngine, IsFalseAt, literals, level_after};
ghost use Rattle.conflict_analysis.specs.Marked.{IsClear};
ghost use Rattle.conflict_analysis.specs.Cores.{IsTracing, IsCore};

use crate::{Marks, id_of, mark_needed};
use clause_store::Slot;
use lits::Lit;
use propagation::Engine;
use std::alloc::AllocError;

/// Goes down the trail below a place: each pending literal that has a reason is replaced by the negations of the others, and each
/// that was assumed comes into the core.
fn walk_to_assumed(
    engine: &Engine,
    marks: &mut Marks,
    from: usize,
    core: &mut Vec<Lit>,
    hints: &mut Vec<u64>,
) -> Result<(), AllocError>
    requires engine { IsEngine engine.now }
    requires tracing { IsTracing engine.now from marks.old core.old.items core.old.items hints.old.items }
    ensures tracing { OnOk result (IsTracing engine.now 0 marks.new core.old.items core.new.items hints.new.items) }
    ensures length { length marks.new ≡ length marks.old }
{
    let trail = engine.trail();
    for i in (0..from).rev() {
        if !marks.has_pending() {
            return Ok(());
        }
        let l = trail[i];
        if marks.at(l).is_pending() {
            match engine.reason(l) {
                Some(slot) => {
                    mark_needed(engine, marks, slot)?;
                    hints.push(id_of(engine, slot))?;
                    marks.visit(l);
                }
                None => {
                    core.push(l)?;
                    marks.visit(l);
                }
            }
        }
    }
    Ok(())
}

/// The core of a false clause, and its hints from the last on.
fn trace_conflict(
    engine: &Engine,
    marks: &mut Marks,
    conflict: Slot,
    core: &mut Vec<Lit>,
    hints: &mut Vec<u64>,
) -> Result<(), AllocError>
    requires conflict { IsFalseAt engine.now conflict }
    requires room { engine.now.vars ≤ length marks.old }
    requires clear { IsClear marks.old }
    requires no_literals { core.old.items ≡ [] }
    requires no_hints { hints.old.items ≡ [] }
    ensures core { OnOk result (IsCore engine.now [] core.new.items (reverse hints.new.items)) }
    ensures none { OnOk result (level_after engine.now.trail ≡ 0 → core.new.items ≡ []) }
    ensures length { length marks.new ≡ length marks.old }
{
    let places = engine.trail().len();
    mark_needed(engine, marks, conflict)?;
    hints.push(id_of(engine, conflict))?;
    walk_to_assumed(engine, marks, places, core, hints)?;
    Ok(())
}

/// The core of a false literal, which has the literal, and its hints from the last on. Where the negation was assumed these two
/// contradict, without a hint.
fn trace_assumption(
    engine: &Engine,
    marks: &mut Marks,
    l: Lit,
    core: &mut Vec<Lit>,
    hints: &mut Vec<u64>,
) -> Result<(), AllocError>
    requires fails { IsTrue (has (literals engine.now.trail) (neg l)) }
    requires room { engine.now.vars ≤ length marks.old }
    requires clear { IsClear marks.old }
    requires no_literals { core.old.items ≡ [] }
    requires no_hints { hints.old.items ≡ [] }
    ensures core { OnOk result (IsCore engine.now (l ∷ []) core.new.items (reverse hints.new.items)) }
    ensures length { length marks.new ≡ length marks.old }
{
    core.push(l)?;
    let opposite = l.neg();
    let Some(slot) = engine.reason(opposite) else {
        core.push(opposite)?;
        return Ok(());
    };
    let place = engine.place_of(opposite).unwrap_or(0);
    mark_needed(engine, marks, slot)?;
    hints.push(id_of(engine, slot))?;
    marks.visit(opposite);
    walk_to_assumed(engine, marks, place, core, hints)?;
    Ok(())
}

/// What a false clause follows of: the literals on the trail without a reason on which it depends, each once, the latest first,
/// and hints that close from them, in the order in which they close. At level 0 there is no such literal. All marks are clear
/// before and after. An error comes only where memory runs out, and then what the core and the hints hold is of no use.
pub fn core_of_conflict(
    engine: &Engine,
    marks: &mut Marks,
    conflict: Slot,
    core: &mut Vec<Lit>,
    hints: &mut Vec<u64>,
) -> Result<(), AllocError>
    requires conflict { IsFalseAt engine.now conflict }
    requires room { engine.now.vars ≤ length marks.old }
    requires clear { IsClear marks.old }
    ensures core { OnOk result (IsCore engine.now [] core.new.items hints.new.items) }
    ensures none { OnOk result (level_after engine.now.trail ≡ 0 → core.new.items ≡ []) }
    ensures clear { IsClear marks.new }
    ensures length { length marks.new ≡ length marks.old }
{
    core.clear();
    hints.clear();
    let traced = trace_conflict(engine, marks, conflict, core, hints);
    marks.clear();
    traced?;
    hints.reverse();
    Ok(())
}

/// What an assumption that the trail makes false contradicts: the assumption itself first, then the literals without a reason on
/// which its negation depends, as in `core_of_conflict`.
pub fn core_of_assumption(
    engine: &Engine,
    marks: &mut Marks,
    l: Lit,
    core: &mut Vec<Lit>,
    hints: &mut Vec<u64>,
) -> Result<(), AllocError>
    requires fails { IsTrue (has (literals engine.now.trail) (neg l)) }
    requires room { engine.now.vars ≤ length marks.old }
    requires clear { IsClear marks.old }
    ensures core { OnOk result (IsCore engine.now (l ∷ []) core.new.items hints.new.items) }
    ensures clear { IsClear marks.new }
    ensures length { length marks.new ≡ length marks.old }
{
    core.clear();
    hints.clear();
    let traced = trace_assumption(engine, marks, l, core, hints);
    marks.clear();
    traced?;
    hints.reverse();
    Ok(())
}
