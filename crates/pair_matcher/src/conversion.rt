// The step with ids and hints that a step without them becomes: hints are found in testing the step, and literals stay as the file has
// them.

ghost use Rattle.std.specs.Prelude.{◌≡◌, ℕ, ◌≤◌, [], ◌∷◌, Contains, IsTrue, IfOk, IsOk, false};
ghost use Rattle.lits.specs.Literal.{var};
ghost use Rattle.session_rules.specs.Logic as logic;
ghost use Rattle.session_rules.specs.declared.Step.TheVariants as steps;
ghost use Rattle.propagation.specs.Clauses.{active};
ghost use Rattle.propagation.specs.Engine.{level_after, Grows};
ghost use Rattle.pair_matcher.specs.Conversion.{CloseOver, line_of};

use lits::{Lit, Lits};
use propagation::Engine;
use rup_check::{Tracer, closes, closes_with};
use session_rules::{Event, Id, Ids, LStep, Rule, Step};
use std::alloc::{AllocError, Global};
use std::mem;

/// What becomes of a step without ids: the first own rule that it breaks, or the step with ids and hints.
#[derive(Debug, Drop)]
pub enum Converted {
    Broken(Rule),
    Line(LStep),
}

/// Whether there is a closing sequence of the active clauses from these literals. Where hints are wanted and there is one, hints take
/// the place of the earlier ones; where none are wanted it takes no memory.
pub fn closes_as_wanted(
    engine: &mut Engine,
    tracer: &mut Tracer,
    hints: &mut Ids,
    start: &[Lit],
    wanted: bool,
) -> Result<bool, AllocError>
    requires level { level_after engine.old.trail ≡ 0 }
    requires reserved { (l : ℕ) → Contains start.now l → var l ≤ engine.old.vars }
    ensures sound { IfOk result (λ b. IsTrue b → logic.Closes (active engine.old.clauses) start.now) }
    ensures complete { IfOk result (λ b. logic.Closes (active engine.old.clauses) start.now → IsTrue b) }
    ensures hints { IfOk result (λ b. IsTrue b → IsTrue wanted → CloseOver engine.old.clauses start.now hints.new) }
    ensures frame { Grows engine.old engine.new }
    ensures frugal { wanted ≡ false → IsOk result }
{
    if wanted {
        closes_with(engine, tracer, start, hints)
    } else {
        Ok(closes(engine, start))
    }
}

/// The list of these literals.
fn copied(alloc: Global, lits: &[Lit]) -> Result<Lits, AllocError>
    ensures { IfOk result (λ c. c ≡ lits.now) }
{
    let mut items = Vec::new(alloc);
    items.extend_from_slice(lits)?;
    Ok(Lits::from_vec(items))
}

/// The list of one id.
fn only(alloc: Global, id: Id) -> Result<Ids, AllocError>
    ensures { IfOk result (λ c. c ≡ id ∷ []) }
{
    let mut ids = Ids::new(alloc);
    ids.push(id)?;
    Ok(ids)
}

/// The line of a step that was judged, with the next id, the id that was found, and the hints, which are taken out.
pub fn line_of(
    alloc: Global,
    step: &Step,
    next: Id,
    id: Id,
    hints: &mut Ids,
) -> Result<Converted, AllocError>
    ensures { IfOk result (λ c. c ≡ line_of next id hints.old step.now) }
{
    let line = match step {
        Step::Event(event) => return line_of_event(alloc, event, next, hints),
        Step::Lemma(lits) => LStep::Lemma {
            id: next,
            lits: copied(alloc, lits.as_slice())?,
            hints: mem::replace(hints, Ids::new(alloc)),
        },
        Step::Delete(_) => LStep::Delete(only(alloc, id)?),
        Step::Weaken(_) => LStep::Weaken(only(alloc, id)?),
        Step::Restore(_) => LStep::Restore(only(alloc, id)?),
    };
    Ok(Converted::Line(line))
}

/// The line of an event that was judged.
fn line_of_event(
    alloc: Global,
    event: &Event,
    next: Id,
    hints: &mut Ids,
) -> Result<Converted, AllocError>
    ensures { IfOk result (λ c. (id : ℕ) → c ≡ line_of next id hints.old (steps.Event event.now)) }
{
    let line = match event {
        Event::Input(lits) => LStep::Input {
            id: next,
            lits: copied(alloc, lits.as_slice())?,
        },
        Event::Query(lits) => LStep::Query(copied(alloc, lits.as_slice())?),
        Event::Status(word) => LStep::Status(*word),
        Event::Model(lits) => LStep::Model(copied(alloc, lits.as_slice())?),
        Event::Core(lits) => LStep::Core {
            lits: copied(alloc, lits.as_slice())?,
            hints: mem::replace(hints, Ids::new(alloc)),
        },
        // Parts of a model or of a core have no place in a proof.
        Event::Values(_) | Event::Failed(_) => return Ok(Converted::Broken(Rule::Order)),
    };
    Ok(Converted::Line(line))
}
