// The side of a proof without ids. It numbers the file's variables in the order in which they come, and all that it keeps is over
// these numbers; a line that can't bring a new clause gives no number. It gives the clauses ids from 1 on, keeps them in an engine,
// and finds a copy of a clause by its set. Lemmas and cores are tested by propagation over the active clauses. What these force without an assumption stays on
// the trail from one line to the next. Where a clause is deleted or weakened that is a literal's reason, a clause of this literal
// alone takes its place, and the trail is given up only where there is none or the clause that goes is the first one.

ghost use Rattle.std.specs.Prelude.{ℕ, Some, ◌≡◌, ◌+◌, ◌<◌, ◌≤◌, ◌^◌, List, [], ◌∷◌, ◌++◌, true, false, length, IsTrue, IfOk, IfNone, IsOk, OnOk, OnErr, is_none};
ghost use Rattle.lits.specs.Numbering.{are_known, dense_lits};
ghost use Rattle.numbered_lits.specs.Numbers.{Continues, AreNumbers, known_front};
ghost use Rattle.numbering_laws.specs.Dense.{is_known_step};
ghost use Rattle.session_rules.specs.declared.Event.TheVariants as events;
ghost use Rattle.session_rules.specs.declared.Step.{Step};
ghost use Rattle.session_rules.specs.declared.Step.TheVariants as steps;
ghost use Rattle.session_rules.specs.History.{phase, broken_unless};
ghost use Rattle.session_rules.specs.Own.{events_of, own_faults};
ghost use Rattle.session_rules.specs.Pair.{is_idle};
ghost use Rattle.session_events.specs.State.{AreReserved};
ghost use Rattle.pair_matcher.specs.Sides.{StandsFor, AreAfter, Judged, JudgedThrough, ChangesNamedAlone, first_rule, asked_after, is_frugal};
ghost use Rattle.pair_matcher.specs.Inside.{IsBetweenLines, state_of};
ghost use Rattle.pair_matcher.specs.Conversion.{Finds, FindsThrough, Becomes, IfLine, rule_broken};

use crate::conversion::{Converted, closes_as_wanted, line_of};
use crate::literals::{end_rule, negate, refill, shown_answer};
use crate::strangers::first_stranger;
use lits::{Dense, Lit, LitSet};
use numbered_lits::Numbers;
use propagation::Engine;
use rup_check::Tracer;
use session_events::{Events, Kind};
use session_rules::{Event, Id, Ids, Rule, StatusWord, Step};
use std::alloc::{AllocError, Global};
use std::marker::Model;

/// What a side is made of. Between two lines the engine's trail is at level 0: it has what follows from the clauses alone.
#[derive(Drop)]
struct Parts {
    events: Events,
    engine: Engine,
    negations: Vec<Lit>,
    next: Id,
    named: Id,
    hints: Ids,
    tracer: Tracer,
    alloc: Global,
}

/// Translates the literals of a line that may name new variables, and reserves all numbers.
fn number(p: &mut Parts, numbers: &mut Numbers, lits: &[Lit]) -> Result<(), AllocError>
    requires { IsBetweenLines p.old.engine p.old.events }
    ensures lits { OnOk result (numbers.new.lits ≡ dense_lits numbers.new.vars lits.now) }
    ensures known { OnOk result (IsTrue (are_known numbers.new.vars lits.now)) }
    ensures continues { Continues numbers.old.vars numbers.new.vars }
    ensures reserved { OnOk result (AreReserved p.new.events numbers.new.lits) }
    ensures next { p.new.next ≡ p.old.next }
    ensures stands { (ps : List Step) → AreAfter (state_of p.old) ps → AreAfter (state_of p.new) ps }
    ensures inside { IsBetweenLines p.new.engine p.new.events }
{
    numbers.number(lits)?;
    reserve(p, numbers)
}

/// Reserves all numbers of variables.
fn reserve(p: &mut Parts, numbers: &Numbers) -> Result<(), AllocError>
    requires inside { IsBetweenLines p.old.engine p.old.events }
    requires numbers { AreNumbers numbers.now.vars numbers.now.lits }
    ensures reserved { OnOk result (AreReserved p.new.events numbers.now.lits) }
    ensures next { p.new.next ≡ p.old.next }
    ensures stands { (ps : List Step) → AreAfter (state_of p.old) ps → AreAfter (state_of p.new) ps }
    ensures inside { IsBetweenLines p.new.engine p.new.events }
{
    let count = numbers.count();
    p.engine.reserve(count)?;
    p.events.reserve(count)?;
    Ok(())
}

/// Judges an input.
fn judge_input(p: &mut Parts, lits: &[Lit]) -> Result<Option<Rule>, AllocError>
    requires inside { IsBetweenLines p.old.engine p.old.events }
    requires reserved { AreReserved p.old.events lits.now }
    requires next { p.old.next < 2 ^ 63 }
    ensures judged { IfOk result (λ r. Judged (state_of p.old) (state_of p.new) (steps.Event (events.Input lits.now)) r) }
    ensures inside { IsBetweenLines p.new.engine p.new.events }
    ensures next { p.new.next ≤ p.old.next + 1 }
{
    if let Some(rule) = p.events.order_rule(Kind::Input) {
        return Ok(Some(rule));
    }
    match p.engine.add(p.next, lits) {
        Ok(_) => {}
        Err(_) => return Err(AllocError),
    }
    p.next += 1;
    p.events.take_input(lits)?;
    Ok(None)
}

/// Judges a query.
fn judge_query(p: &mut Parts, lits: &[Lit]) -> Result<Option<Rule>, AllocError>
    requires inside { IsBetweenLines p.old.engine p.old.events }
    requires reserved { AreReserved p.old.events lits.now }
    ensures judged { IfOk result (λ r. Judged (state_of p.old) (state_of p.new) (steps.Event (events.Query lits.now)) r) }
    ensures inside { IsBetweenLines p.new.engine p.new.events }
    ensures next { p.new.next ≤ p.old.next + 1 }
{
    if let Some(rule) = p.events.order_rule(Kind::Query) {
        return Ok(Some(rule));
    }
    p.events.take_query(lits)?;
    Ok(None)
}

/// Judges a status. It takes no memory.
fn judge_status(p: &mut Parts, word: StatusWord) -> Option<Rule>
    requires { IsBetweenLines p.old.engine p.old.events }
    ensures judged { Judged (state_of p.old) (state_of p.new) (steps.Event (events.Status word)) result }
    ensures inside { IsBetweenLines p.new.engine p.new.events }
    ensures next { p.new.next ≤ p.old.next + 1 }
{
    if let Some(rule) = p.events.order_rule(Kind::Status) {
        return Some(rule);
    }
    p.events.take_status(word);
    None
}

/// Judges a model.
fn judge_model(p: &mut Parts, m: &[Lit]) -> Option<Rule>
    requires inside { IsBetweenLines p.old.engine p.old.events }
    requires reserved { AreReserved p.old.events m.now }
    ensures judged { Judged (state_of p.old) (state_of p.new) (steps.Event (events.Model m.now)) result }
    ensures inside { IsBetweenLines p.new.engine p.new.events }
    ensures next { p.new.next ≤ p.old.next + 1 }
{
    if let Some(rule) = p.events.order_rule(Kind::Model) {
        return Some(rule);
    }
    if let Some(rule) = p.events.model_rule(m) {
        return Some(rule);
    }
    p.events.take_model();
    None
}

/// Judges a core. Where no hints are wanted it takes no memory: behind the rules of its literals these are assumptions, and so their
/// variables are reserved.
fn judge_core(p: &mut Parts, u: &[Lit], wanted: bool) -> Result<Option<Rule>, AllocError>
    requires { IsBetweenLines p.old.engine p.old.events }
    ensures judged { IfOk result (λ r. Judged (state_of p.old) (state_of p.new) (steps.Event (events.Core u.now)) r) }
    ensures found { IfOk result (λ r. IfNone r (Finds wanted (state_of p.old) (steps.Event (events.Core u.now)) p.new.named p.new.hints)) }
    ensures inside { IsBetweenLines p.new.engine p.new.events }
    ensures next { p.new.next ≤ p.old.next + 1 }
    ensures frugal { wanted ≡ false → IsOk result }
{
    if let Some(rule) = p.events.order_rule(Kind::Core) {
        return Ok(Some(rule));
    }
    if let Some(rule) = p.events.core_rule(u) {
        return Ok(Some(rule));
    }
    match closes_as_wanted(&mut p.engine, &mut p.tracer, &mut p.hints, u, wanted) {
        Ok(true) => {}
        Ok(false) => return Ok(Some(Rule::CoreOpen)),
        Err(fault) => return Err(fault),
    }
    p.events.take_core();
    Ok(None)
}

/// Judges a lemma.
fn judge_lemma(p: &mut Parts, lits: &[Lit], wanted: bool) -> Result<Option<Rule>, AllocError>
    requires inside { IsBetweenLines p.old.engine p.old.events }
    requires reserved { AreReserved p.old.events lits.now }
    requires next { p.old.next < 2 ^ 63 }
    ensures judged { IfOk result (λ r. Judged (state_of p.old) (state_of p.new) (steps.Lemma lits.now) r) }
    ensures found { IfOk result (λ r. IfNone r (Finds wanted (state_of p.old) (steps.Lemma lits.now) p.new.named p.new.hints)) }
    ensures inside { IsBetweenLines p.new.engine p.new.events }
    ensures next { p.new.next ≤ p.old.next + 1 }
{
    negate(&mut p.negations, lits)?;
    let start = p.negations.as_slice();
    match closes_as_wanted(&mut p.engine, &mut p.tracer, &mut p.hints, start, wanted) {
        Ok(true) => {}
        Ok(false) => return Ok(Some(Rule::Lemma)),
        Err(fault) => return Err(fault),
    }
    match p.engine.add(p.next, lits) {
        Ok(_) => {}
        Err(_) => return Err(AllocError),
    }
    p.next += 1;
    Ok(None)
}

/// Judges a deletion: of the least active id of the clause. It takes no memory for a clause of at most 16 literals.
fn judge_deletion(p: &mut Parts, lits: &[Lit]) -> Result<Option<Rule>, AllocError>
    requires { IsBetweenLines p.old.engine p.old.events }
    ensures judged { IfOk result (λ r. Judged (state_of p.old) (state_of p.new) (steps.Delete lits.now) r) }
    ensures found { IfOk result (λ r. IfNone r (Finds true (state_of p.old) (steps.Delete lits.now) p.new.named p.new.hints)) }
    ensures inside { IsBetweenLines p.new.engine p.new.events }
    ensures next { p.new.next ≤ p.old.next + 1 }
    ensures short { length lits.now ≤ 16 → IsOk result }
{
    let set = LitSet::of(p.alloc, lits)?;
    let Some(id) = p.engine.store().least_active(&set) else {
        return Ok(Some(Rule::NotActive(1)));
    };
    p.named = id;
    p.engine.replace_reason(id);
    match p.engine.delete(id) {
        Ok(()) => Ok(None),
        Err(_) => Err(AllocError),
    }
}

/// Judges a weakening: of the least active id of the clause.
fn judge_weakening(p: &mut Parts, lits: &[Lit]) -> Result<Option<Rule>, AllocError>
    requires { IsBetweenLines p.old.engine p.old.events }
    ensures judged { IfOk result (λ r. Judged (state_of p.old) (state_of p.new) (steps.Weaken lits.now) r) }
    ensures found { IfOk result (λ r. IfNone r (Finds true (state_of p.old) (steps.Weaken lits.now) p.new.named p.new.hints)) }
    ensures inside { IsBetweenLines p.new.engine p.new.events }
    ensures next { p.new.next ≤ p.old.next + 1 }
{
    let set = LitSet::of(p.alloc, lits)?;
    let Some(id) = p.engine.store().least_active(&set) else {
        return Ok(Some(Rule::NotActive(1)));
    };
    p.named = id;
    p.engine.replace_reason(id);
    match p.engine.weaken(id) {
        Ok(()) => Ok(None),
        Err(_) => Err(AllocError),
    }
}

/// Judges a restoring: of the least weakened id of the clause.
fn judge_restoring(p: &mut Parts, lits: &[Lit]) -> Result<Option<Rule>, AllocError>
    requires { IsBetweenLines p.old.engine p.old.events }
    ensures judged { IfOk result (λ r. Judged (state_of p.old) (state_of p.new) (steps.Restore lits.now) r) }
    ensures found { IfOk result (λ r. IfNone r (Finds true (state_of p.old) (steps.Restore lits.now) p.new.named p.new.hints)) }
    ensures inside { IsBetweenLines p.new.engine p.new.events }
    ensures next { p.new.next ≤ p.old.next + 1 }
{
    let set = LitSet::of(p.alloc, lits)?;
    let Some(id) = p.engine.store().least_weakened(&set) else {
        return Ok(Some(Rule::NotWeakened(1)));
    };
    p.named = id;
    match p.engine.restore(id) {
        Ok(()) => Ok(None),
        Err(_) => Err(AllocError),
    }
}

/// Judges an input of the file.
fn take_input(
    p: &mut Parts,
    numbers: &mut Numbers,
    lits: &[Lit],
) -> Result<Option<Rule>, AllocError>
    requires inside { IsBetweenLines p.old.engine p.old.events }
    requires next { p.old.next < 2 ^ 63 }
    ensures judged { IfOk result (λ r. JudgedThrough numbers.old.vars numbers.new.vars (state_of p.old) (state_of p.new) (steps.Event (events.Input lits.now)) r) }
    ensures continues { Continues numbers.old.vars numbers.new.vars }
    ensures inside { IsBetweenLines p.new.engine p.new.events }
    ensures next { p.new.next ≤ p.old.next + 1 }
{
    number(p, numbers, lits)?;
    match judge_input(p, numbers.lits()) {
        Ok(answer) => Ok(shown_answer(answer, numbers.dense())),
        Err(fault) => Err(fault),
    }
}

/// Judges a query of the file.
fn take_query(
    p: &mut Parts,
    numbers: &mut Numbers,
    lits: &[Lit],
) -> Result<Option<Rule>, AllocError>
    requires inside { IsBetweenLines p.old.engine p.old.events }
    requires next { p.old.next < 2 ^ 63 }
    ensures judged { IfOk result (λ r. JudgedThrough numbers.old.vars numbers.new.vars (state_of p.old) (state_of p.new) (steps.Event (events.Query lits.now)) r) }
    ensures continues { Continues numbers.old.vars numbers.new.vars }
    ensures inside { IsBetweenLines p.new.engine p.new.events }
    ensures next { p.new.next ≤ p.old.next + 1 }
{
    number(p, numbers, lits)?;
    match judge_query(p, numbers.lits()) {
        Ok(answer) => Ok(shown_answer(answer, numbers.dense())),
        Err(fault) => Err(fault),
    }
}

/// Judges a model of the file.
fn take_model(
    p: &mut Parts,
    numbers: &mut Numbers,
    lits: &[Lit],
) -> Result<Option<Rule>, AllocError>
    requires inside { IsBetweenLines p.old.engine p.old.events }
    requires next { p.old.next < 2 ^ 63 }
    ensures judged { IfOk result (λ r. JudgedThrough numbers.old.vars numbers.new.vars (state_of p.old) (state_of p.new) (steps.Event (events.Model lits.now)) r) }
    ensures continues { Continues numbers.old.vars numbers.new.vars }
    ensures inside { IsBetweenLines p.new.engine p.new.events }
    ensures next { p.new.next ≤ p.old.next + 1 }
{
    number(p, numbers, lits)?;
    let answer = judge_model(p, numbers.lits());
    Ok(shown_answer(answer, numbers.dense()))
}

/// Judges a core of the file that has a literal without a number. The literals before the first such were translated.
fn judge_strange_core(p: &mut Parts, numbers: &Numbers, u: &[Lit]) -> Rule
    requires inside { IsBetweenLines p.old.engine p.old.events }
    requires strange { are_known numbers.now.vars u.now ≡ false }
    requires front { numbers.now.lits ≡ dense_lits numbers.now.vars (known_front numbers.now.vars u.now) }
    ensures judged { JudgedThrough numbers.now.vars numbers.now.vars (state_of p.old) (state_of p.new) (steps.Event (events.Core u.now)) (Some result) }
    ensures inside { IsBetweenLines p.new.engine p.new.events }
    ensures next { p.new.next ≤ p.old.next + 1 }
{
    if let Some(rule) = p.events.order_rule(Kind::Core) {
        return rule;
    }
    first_stranger(&mut p.events, numbers, u)
}

/// Judges a core of the file. It takes no memory for at most 16 literals where no hints are wanted.
fn take_core(
    p: &mut Parts,
    numbers: &mut Numbers,
    u: &[Lit],
    wanted: bool,
) -> Result<Option<Rule>, AllocError>
    requires { IsBetweenLines p.old.engine p.old.events }
    ensures found { IfOk result (λ r. IfNone r (FindsThrough wanted numbers.old.vars (state_of p.old) (steps.Event (events.Core u.now)) p.new.named p.new.hints)) }
    ensures judged { IfOk result (λ r. JudgedThrough numbers.old.vars numbers.new.vars (state_of p.old) (state_of p.new) (steps.Event (events.Core u.now)) r) }
    ensures vars { numbers.new.vars ≡ numbers.old.vars }
    ensures inside { IsBetweenLines p.new.engine p.new.events }
    ensures next { p.new.next ≤ p.old.next + 1 }
    ensures short { length u.now ≤ 16 → wanted ≡ false → IsOk result }
{
    match numbers.find(u) {
        Ok(true) => {}
        Ok(false) => return Ok(Some(judge_strange_core(p, numbers, u))),
        Err(_) => return Err(AllocError),
    }
    match judge_core(p, numbers.lits(), wanted) {
        Ok(answer) => Ok(shown_answer(answer, numbers.dense())),
        Err(fault) => Err(fault),
    }
}

/// Judges a lemma of the file.
fn take_lemma(
    p: &mut Parts,
    numbers: &mut Numbers,
    lits: &[Lit],
    wanted: bool,
) -> Result<Option<Rule>, AllocError>
    requires inside { IsBetweenLines p.old.engine p.old.events }
    requires next { p.old.next < 2 ^ 63 }
    ensures found { IfOk result (λ r. IfNone r (FindsThrough wanted numbers.old.vars (state_of p.old) (steps.Lemma lits.now) p.new.named p.new.hints)) }
    ensures judged { IfOk result (λ r. JudgedThrough numbers.old.vars numbers.new.vars (state_of p.old) (state_of p.new) (steps.Lemma lits.now) r) }
    ensures continues { Continues numbers.old.vars numbers.new.vars }
    ensures inside { IsBetweenLines p.new.engine p.new.events }
    ensures next { p.new.next ≤ p.old.next + 1 }
{
    number(p, numbers, lits)?;
    match judge_lemma(p, numbers.lits(), wanted) {
        Ok(answer) => Ok(shown_answer(answer, numbers.dense())),
        Err(fault) => Err(fault),
    }
}

/// Judges a deletion of the file. It takes no memory for at most 16 literals.
fn take_deletion(
    p: &mut Parts,
    numbers: &mut Numbers,
    lits: &[Lit],
) -> Result<Option<Rule>, AllocError>
    requires { IsBetweenLines p.old.engine p.old.events }
    ensures judged { IfOk result (λ r. JudgedThrough numbers.old.vars numbers.new.vars (state_of p.old) (state_of p.new) (steps.Delete lits.now) r) }
    ensures found { IfOk result (λ r. IfNone r (FindsThrough true numbers.old.vars (state_of p.old) (steps.Delete lits.now) p.new.named p.new.hints)) }
    ensures vars { numbers.new.vars ≡ numbers.old.vars }
    ensures inside { IsBetweenLines p.new.engine p.new.events }
    ensures next { p.new.next ≤ p.old.next + 1 }
    ensures short { length lits.now ≤ 16 → IsOk result }
{
    match numbers.find(lits) {
        Ok(true) => {}
        Ok(false) => return Ok(Some(Rule::NotActive(1))),
        Err(_) => return Err(AllocError),
    }
    match judge_deletion(p, numbers.lits()) {
        Ok(answer) => Ok(shown_answer(answer, numbers.dense())),
        Err(fault) => Err(fault),
    }
}

/// Judges a weakening of the file.
fn take_weakening(
    p: &mut Parts,
    numbers: &mut Numbers,
    lits: &[Lit],
) -> Result<Option<Rule>, AllocError>
    requires { IsBetweenLines p.old.engine p.old.events }
    ensures judged { IfOk result (λ r. JudgedThrough numbers.old.vars numbers.new.vars (state_of p.old) (state_of p.new) (steps.Weaken lits.now) r) }
    ensures found { IfOk result (λ r. IfNone r (FindsThrough true numbers.old.vars (state_of p.old) (steps.Weaken lits.now) p.new.named p.new.hints)) }
    ensures vars { numbers.new.vars ≡ numbers.old.vars }
    ensures inside { IsBetweenLines p.new.engine p.new.events }
    ensures next { p.new.next ≤ p.old.next + 1 }
{
    match numbers.find(lits) {
        Ok(true) => {}
        Ok(false) => return Ok(Some(Rule::NotActive(1))),
        Err(_) => return Err(AllocError),
    }
    match judge_weakening(p, numbers.lits()) {
        Ok(answer) => Ok(shown_answer(answer, numbers.dense())),
        Err(fault) => Err(fault),
    }
}

/// Judges a restoring of the file.
fn take_restoring(
    p: &mut Parts,
    numbers: &mut Numbers,
    lits: &[Lit],
) -> Result<Option<Rule>, AllocError>
    requires { IsBetweenLines p.old.engine p.old.events }
    ensures judged { IfOk result (λ r. JudgedThrough numbers.old.vars numbers.new.vars (state_of p.old) (state_of p.new) (steps.Restore lits.now) r) }
    ensures found { IfOk result (λ r. IfNone r (FindsThrough true numbers.old.vars (state_of p.old) (steps.Restore lits.now) p.new.named p.new.hints)) }
    ensures vars { numbers.new.vars ≡ numbers.old.vars }
    ensures inside { IsBetweenLines p.new.engine p.new.events }
    ensures next { p.new.next ≤ p.old.next + 1 }
{
    match numbers.find(lits) {
        Ok(true) => {}
        Ok(false) => return Ok(Some(Rule::NotWeakened(1))),
        Err(_) => return Err(AllocError),
    }
    match judge_restoring(p, numbers.lits()) {
        Ok(answer) => Ok(shown_answer(answer, numbers.dense())),
        Err(fault) => Err(fault),
    }
}

/// Judges a status of the file. It takes no memory.
fn take_status(p: &mut Parts, numbers: &Numbers, word: StatusWord) -> Option<Rule>
    requires { IsBetweenLines p.old.engine p.old.events }
    ensures judged { JudgedThrough numbers.now.vars numbers.now.vars (state_of p.old) (state_of p.new) (steps.Event (events.Status word)) result }
    ensures inside { IsBetweenLines p.new.engine p.new.events }
    ensures next { p.new.next ≤ p.old.next + 1 }
{
    let answer = judge_status(p, word);
    shown_answer(answer, numbers.dense())
}

/// Judges an event of the file.
fn judge_event(
    p: &mut Parts,
    numbers: &mut Numbers,
    event: &Event,
    wanted: bool,
) -> Result<Option<Rule>, AllocError>
    requires inside { IsBetweenLines p.old.engine p.old.events }
    requires next { p.old.next < 2 ^ 63 }
    ensures found { IfOk result (λ r. IfNone r (FindsThrough wanted numbers.old.vars (state_of p.old) (steps.Event event.now) p.new.named p.new.hints)) }
    ensures judged { IfOk result (λ r. JudgedThrough numbers.old.vars numbers.new.vars (state_of p.old) (state_of p.new) (steps.Event event.now) r) }
    ensures continues { Continues numbers.old.vars numbers.new.vars }
    ensures inside { IsBetweenLines p.new.engine p.new.events }
    ensures next { p.new.next ≤ p.old.next + 1 }
    ensures frugal { IsTrue (is_frugal (steps.Event event.now)) → wanted ≡ false → IsOk result }
{
    match event {
        Event::Input(lits) => take_input(p, numbers, lits.as_slice()),
        Event::Query(lits) => take_query(p, numbers, lits.as_slice()),
        Event::Status(word) => Ok(take_status(p, numbers, *word)),
        Event::Model(lits) => take_model(p, numbers, lits.as_slice()),
        Event::Core(lits) => take_core(p, numbers, lits.as_slice(), wanted),
        // Parts of a model or of a core have no place in a proof.
        Event::Values(_) => Ok(Some(Rule::Order)),
        Event::Failed(_) => Ok(Some(Rule::Order)),
    }
}

/// Judges a step of the file. The id that it names is kept where it takes a clause or gives one back; hints are found where they are
/// wanted.
fn judge(
    p: &mut Parts,
    numbers: &mut Numbers,
    step: &Step,
    wanted: bool,
) -> Result<Option<Rule>, AllocError>
    requires inside { IsBetweenLines p.old.engine p.old.events }
    requires next { p.old.next < 2 ^ 63 }
    ensures found { IfOk result (λ r. IfNone r (FindsThrough wanted numbers.old.vars (state_of p.old) step.now p.new.named p.new.hints)) }
    ensures judged { IfOk result (λ r. JudgedThrough numbers.old.vars numbers.new.vars (state_of p.old) (state_of p.new) step.now r) }
    ensures continues { Continues numbers.old.vars numbers.new.vars }
    ensures inside { IsBetweenLines p.new.engine p.new.events }
    ensures next { p.new.next ≤ p.old.next + 1 }
    ensures frugal { IsTrue (is_frugal step.now) → wanted ≡ false → IsOk result }
{
    match step {
        Step::Event(event) => judge_event(p, numbers, event, wanted),
        Step::Lemma(lits) => take_lemma(p, numbers, lits.as_slice(), wanted),
        Step::Delete(lits) => take_deletion(p, numbers, lits.as_slice()),
        Step::Weaken(lits) => take_weakening(p, numbers, lits.as_slice()),
        Step::Restore(lits) => take_restoring(p, numbers, lits.as_slice()),
    }
}

/// Keeps the literals of a query as the file has them. An error leaves all as it was.
fn keep_asked(asked: &mut Vec<Lit>, step: &Step) -> Result<(), AllocError>
    ensures ok { OnOk result (asked.new.items ≡ asked_after asked.old.items step.now) }
    ensures err { OnErr result (asked.new.items ≡ asked.old.items) }
    ensures frugal { IsTrue (is_frugal step.now) → IsOk result }
{
    match step {
        Step::Event(Event::Query(lits)) => refill(asked, lits.as_slice()),
        _ => Ok(()),
    }
}

/// Judges a step of the file, and keeps the literals of a query.
fn judge_and_keep(
    p: &mut Parts,
    numbers: &mut Numbers,
    asked: &mut Vec<Lit>,
    step: &Step,
    wanted: bool,
) -> Result<Option<Rule>, AllocError>
    requires inside { IsBetweenLines p.old.engine p.old.events }
    requires known { IsTrue (are_known numbers.old.vars asked.old.items) }
    requires next { p.old.next < 2 ^ 63 }
    ensures judged { IfOk result (λ r. JudgedThrough numbers.old.vars numbers.new.vars (state_of p.old) (state_of p.new) step.now r) }
    ensures found { IfOk result (λ r. IfNone r (FindsThrough wanted numbers.old.vars (state_of p.old) step.now p.new.named p.new.hints)) }
    ensures asked { IfOk result (λ r. IfNone r (asked.new.items ≡ asked_after asked.old.items step.now)) }
    ensures known { IsTrue (are_known numbers.new.vars asked.new.items) }
    ensures inside { IsBetweenLines p.new.engine p.new.events }
    ensures next { p.new.next ≤ p.old.next + 1 }
    ensures frugal { IsTrue (is_frugal step.now) → wanted ≡ false → IsOk result }
{
    match judge(p, numbers, step, wanted) {
        Ok(None) => {}
        Ok(Some(rule)) => return Ok(Some(rule)),
        Err(fault) => return Err(fault),
    }
    match keep_asked(asked, step) {
        Ok(()) => Ok(None),
        Err(fault) => Err(fault),
    }
}

/// Judges a proof without ids by itself, step by step.
///
/// Contracts see whether it is live; the variables in the order in which they came; its clauses by the ids that it gave, each
/// active or weakened with its literal set, the next id, and what its events say (the phase, the assumptions, the inputs), all of
/// these over the variables' numbers; and the last query's literals as the file has them. It stands for a list of steps where
/// these are what the steps leave: inputs and lemmas give ids from 1 on, a deletion and a weakening name the least active id of
/// the clause's set, and a restoring the least weakened one.
#[derive(Drop)]
pub struct IdrupSide {
    parts: Parts,
    numbers: Numbers,
    asked: Vec<Lit>,
    live: bool,
}

impl Model for IdrupSide {
    ghost use Rattle.std.specs.Prelude.{◌≤◌};
    ghost use Rattle.std.specs.Coded.{codes};
    ghost use Rattle.side_laws.specs.ClauseStates.{clauses_code};
    ghost use Rattle.pair_matcher.specs.Sides.{IdrupView};
    ghost use Rattle.pair_matcher.specs.Inside.{clauses_of_engine, IsReady};

    ghost Value = { IdrupView };

    ghost coded = { Prim.hlevel (codes, clauses_code) };

    ghost view = { λ s. record { live = s.live; clauses = clauses_of_engine s.parts.engine; next = s.parts.next; events = s.parts.events; vars = s.numbers.vars; asked = s.asked.items } };

    ghost invariant = { λ s. IsReady s.parts.engine s.parts.events s.numbers.vars s.asked.items };
}

impl IdrupSide {
    /// The side before the first step.
    pub fn new(alloc: Global) -> Result<IdrupSide, AllocError>
        ensures live { IfOk result (λ s. s.live ≡ true) }
        ensures next { IfOk result (λ s. s.next ≡ 1) }
        ensures stands { IfOk result (λ s. StandsFor s []) }
        ensures ok { IsOk result }
    {
        let parts = Parts {
            events: Events::new(alloc),
            engine: Engine::new(alloc),
            negations: Vec::new(alloc),
            next: 1,
            named: 0,
            hints: Ids::new(alloc),
            tracer: Tracer::new(alloc),
            alloc,
        };
        let numbers = Numbers::new(alloc);
        let asked = Vec::new(alloc);
        Ok(IdrupSide {
            parts,
            numbers,
            asked,
            live: true,
        })
    }

    /// The first own rule that the step breaks, or `None`. After `None` the side is live and stands for the steps so far
    /// with this one at their end; after a rule, or where memory is wanting, it isn't live and is given up. A status takes no
    /// memory, and neither does a core or a deletion of at most 16 literals.
    #[tactic(auto, using(crate::proofs::Translating::step_stands, crate::proofs::Translating::step_named))]
    pub fn step(&mut self, step: &Step) -> Result<Option<Rule>, AllocError>
        requires live { IsTrue self.old.live }
        requires next { self.old.next < 2 ^ 63 }
        ensures rule { IfOk result (λ r. (ps : List Step) → StandsFor self.old ps → r ≡ first_rule (own_faults ps step.now)) }
        ensures stands { IfOk result (λ r. IfNone r ((ps : List Step) → StandsFor self.old ps → StandsFor self.new (ps ++ step.now ∷ []))) }
        ensures known { IfOk result (λ r. IfNone r (IsTrue (is_known_step self.new.vars step.now))) }
        // An input and a lemma name the next id, a deletion and a weakening the least active id of the clause's set, a restoring
        // the least weakened one; of all ids the step changes this one alone.
        ensures named { IfOk result (λ r. IfNone r (ChangesNamedAlone self.old self.new step.now)) }
        ensures live { IfOk result (λ r. self.new.live ≡ is_none r) }
        ensures err { OnErr result (self.new.live ≡ false) }
        ensures next { self.new.next ≤ self.old.next + 1 }
        ensures frugal { IsTrue (is_frugal step.now) → IsOk result }
    {
        let judged = judge_and_keep(
            &mut self.parts,
            &mut self.numbers,
            &mut self.asked,
            step,
            false,
        );
        self.live = matches!(judged, Ok(None));
        judged
    }

    /// As `step`; where no rule is broken the answer is the step with ids and hints that this one becomes. An input and a lemma
    /// take the next id, a deletion and a weakening name the least active id of the clause's set, and a restoring the least
    /// weakened one. Hints close, name active clauses alone and none twice. Literals keep the file's order and repeats.
    pub fn step_with(&mut self, step: &Step) -> Result<Converted, AllocError>
        requires live { IsTrue self.old.live }
        requires next { self.old.next < 2 ^ 63 }
        ensures rule { IfOk result (λ c. (ps : List Step) → StandsFor self.old ps → rule_broken c ≡ first_rule (own_faults ps step.now)) }
        ensures stands { IfOk result (λ c. IfNone (rule_broken c) ((ps : List Step) → StandsFor self.old ps → StandsFor self.new (ps ++ step.now ∷ []))) }
        ensures line { IfOk result (λ c. IfLine c (Becomes self.old step.now)) }
        ensures known { IfOk result (λ c. IfNone (rule_broken c) (IsTrue (is_known_step self.new.vars step.now))) }
        ensures named { IfOk result (λ c. IfNone (rule_broken c) (ChangesNamedAlone self.old self.new step.now)) }
        ensures live { IfOk result (λ c. self.new.live ≡ is_none (rule_broken c)) }
        ensures err { OnErr result (self.new.live ≡ false) }
        ensures next { self.new.next ≤ self.old.next + 1 }
    {
        self.live = false;
        let next = self.parts.next;
        match judge_and_keep(
            &mut self.parts,
            &mut self.numbers,
            &mut self.asked,
            step,
            true,
        ) {
            Ok(None) => {}
            Ok(Some(rule)) => return Ok(Converted::Broken(rule)),
            Err(fault) => return Err(fault),
        }
        let parts = &mut self.parts;
        let converted = line_of(parts.alloc, step, next, parts.named, &mut parts.hints)?;
        self.live = matches!(converted, Converted::Line(_));
        Ok(converted)
    }

    /// The literals of the last query as the file has them, in its order and with its repeats; none before the first query.
    pub fn assumed(&self) -> &[Lit]
        ensures value { result.now ≡ self.now.asked }
        ensures known { IsTrue (are_known self.now.vars self.now.asked) }
    {
        self.asked.as_slice()
    }

    /// The numbers of the file's variables, in the order in which they came.
    pub fn dense(&self) -> &Dense
        ensures { result.now ≡ self.now.vars }
    {
        self.numbers.dense()
    }

    /// Unfinished exactly where a query is open.
    pub fn finish(&self) -> Option<Rule>
        ensures { (ps : List Step) → StandsFor self.now ps → result ≡ first_rule (broken_unless (is_idle (phase (events_of ps))) Rule.Unfinished) }
    {
        end_rule(self.parts.events.phase())
    }
}
