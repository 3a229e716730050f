// The side of a proof with ids. It numbers the file's variables in the order in which they come, and all that it keeps is over these
// numbers; a core gives no number, and finds the room for hints that was made when its variables got theirs. It keeps the clauses
// by id and what the events say, and checks hints over the active clauses.

ghost use Rattle.std.specs.Prelude.{◌≡◌, ◌≤◌, List, [], ◌∷◌, ◌++◌, true, false, length, IsTrue, IfOk, IfNone, IsOk, OnOk, OnErr, is_none};
ghost use Rattle.lits.specs.Numbering.{are_known, dense_lits};
ghost use Rattle.numbered_lits.specs.Numbers.{Continues, AreNumbers};
ghost use Rattle.numbering_laws.specs.Dense.{is_known_id_step};
ghost use Rattle.session_rules.specs.declared.LStep.{LStep};
ghost use Rattle.session_rules.specs.declared.LStep.TheVariants as lsteps;
ghost use Rattle.session_rules.specs.History.{phase, broken_unless};
ghost use Rattle.session_rules.specs.Logic.{hints_fail};
ghost use Rattle.session_rules.specs.Own.{active_clause, id_events_of, own_id_faults};
ghost use Rattle.session_rules.specs.Pair.{is_idle};
ghost use Rattle.session_events.specs.State.{AreReserved};
ghost use Rattle.side_laws.specs.ClauseStates.{clauses_of_store};
ghost use Rattle.hint_check.specs.Hints.{end_of};
ghost use Rattle.pair_matcher.specs.Sides.{StandsForIds, AreAfterIds, AreAfterIdsThrough, JudgedId, JudgedIdThrough, first_rule, asked_after_id, is_frugal_with_ids};
ghost use Rattle.pair_matcher.specs.Inside.{HasHintRoom, AreBelow, state_of_ids};

use crate::literals::{end_rule, negate, refill, shown_answer};
use crate::strangers::first_stranger;
use crate::turns::{delete_each, restore_each, weaken_each};
use clause_store::{Store, StoreFault};
use hint_check::{HintCheck, HintEnd};
use lits::{Dense, Lit};
use numbered_lits::Numbers;
use session_events::{Events, Kind};
use session_rules::{Id, LStep, Rule, StatusWord};
use std::alloc::{AllocError, Global};
use std::marker::Model;

/// What a side is made of.
#[derive(Drop)]
struct Parts {
    events: Events,
    store: Store,
    hints: HintCheck,
    negations: Vec<Lit>,
}

/// Translates the literals of a line that may name new variables, and reserves all numbers.
fn number(p: &mut Parts, numbers: &mut Numbers, lits: &[Lit]) -> Result<(), AllocError>
    requires { HasHintRoom p.old.store p.old.events p.old.hints }
    ensures lits { OnOk result (numbers.new.lits ≡ dense_lits numbers.new.vars lits.now) }
    ensures known { OnOk result (IsTrue (are_known numbers.new.vars lits.now)) }
    ensures continues { Continues numbers.old.vars numbers.new.vars }
    ensures reserved { OnOk result (AreReserved p.new.events numbers.new.lits) }
    ensures stands { (ps : List LStep) → AreAfterIds (state_of_ids p.old) ps → AreAfterIds (state_of_ids p.new) ps }
    ensures inside { HasHintRoom p.new.store p.new.events p.new.hints }
    ensures room { OnOk result (length numbers.new.vars ≤ p.new.hints) }
{
    numbers.number(lits)?;
    reserve(p, numbers)
}

/// Reserves all numbers of variables.
fn reserve(p: &mut Parts, numbers: &Numbers) -> Result<(), AllocError>
    requires inside { HasHintRoom p.old.store p.old.events p.old.hints }
    requires numbers { AreNumbers numbers.now.vars numbers.now.lits }
    ensures reserved { OnOk result (AreReserved p.new.events numbers.now.lits) }
    ensures stands { (ps : List LStep) → AreAfterIds (state_of_ids p.old) ps → AreAfterIds (state_of_ids p.new) ps }
    ensures inside { HasHintRoom p.new.store p.new.events p.new.hints }
    ensures room { OnOk result (length numbers.now.vars ≤ p.new.hints) }
{
    let count = numbers.count();
    p.hints.reserve(count)?;
    p.events.reserve(count)?;
    Ok(())
}

/// Judges an input.
fn judge_input(p: &mut Parts, id: Id, lits: &[Lit]) -> Result<Option<Rule>, AllocError>
    requires inside { HasHintRoom p.old.store p.old.events p.old.hints }
    requires reserved { AreReserved p.old.events lits.now }
    ensures judged { IfOk result (λ r. JudgedId (state_of_ids p.old) (state_of_ids p.new) (lsteps.Input id lits.now) r) }
    ensures inside { HasHintRoom p.new.store p.new.events p.new.hints }
    ensures room { p.new.hints ≡ p.old.hints }
{
    if let Some(rule) = p.events.order_rule(Kind::Input) {
        return Ok(Some(rule));
    }
    match p.store.add(id, lits) {
        Ok(_) => {}
        Err(StoreFault::IdTaken) => return Ok(Some(Rule::IdTaken)),
        Err(_) => return Err(AllocError),
    }
    p.events.take_input(lits)?;
    Ok(None)
}

/// Judges a query.
fn judge_query(p: &mut Parts, lits: &[Lit]) -> Result<Option<Rule>, AllocError>
    requires inside { HasHintRoom p.old.store p.old.events p.old.hints }
    requires reserved { AreReserved p.old.events lits.now }
    ensures judged { IfOk result (λ r. JudgedId (state_of_ids p.old) (state_of_ids p.new) (lsteps.Query lits.now) r) }
    ensures inside { HasHintRoom p.new.store p.new.events p.new.hints }
    ensures room { p.new.hints ≡ p.old.hints }
{
    if let Some(rule) = p.events.order_rule(Kind::Query) {
        return Ok(Some(rule));
    }
    p.events.take_query(lits)?;
    Ok(None)
}

/// Judges a status. It takes no memory.
fn judge_status(p: &mut Parts, word: StatusWord) -> Option<Rule>
    requires { HasHintRoom p.old.store p.old.events p.old.hints }
    ensures judged { JudgedId (state_of_ids p.old) (state_of_ids p.new) (lsteps.Status word) result }
    ensures inside { HasHintRoom p.new.store p.new.events p.new.hints }
    ensures room { p.new.hints ≡ p.old.hints }
{
    if let Some(rule) = p.events.order_rule(Kind::Status) {
        return Some(rule);
    }
    p.events.take_status(word);
    None
}

/// Judges a model.
fn judge_model(p: &mut Parts, m: &[Lit]) -> Option<Rule>
    requires inside { HasHintRoom p.old.store p.old.events p.old.hints }
    requires reserved { AreReserved p.old.events m.now }
    ensures judged { JudgedId (state_of_ids p.old) (state_of_ids p.new) (lsteps.Model m.now) result }
    ensures inside { HasHintRoom p.new.store p.new.events p.new.hints }
    ensures room { p.new.hints ≡ p.old.hints }
{
    if let Some(rule) = p.events.order_rule(Kind::Model) {
        return Some(rule);
    }
    if let Some(rule) = p.events.model_rule(m) {
        return Some(rule);
    }
    p.events.take_model();
    None
}

/// Judges a core. It takes no memory.
fn judge_core(p: &mut Parts, u: &[Lit], hints: &[Id]) -> Option<Rule>
    requires inside { HasHintRoom p.old.store p.old.events p.old.hints }
    requires room { AreBelow u.now p.old.hints }
    ensures judged { JudgedId (state_of_ids p.old) (state_of_ids p.new) (lsteps.Core u.now hints.now) result }
    ensures inside { HasHintRoom p.new.store p.new.events p.new.hints }
    ensures room { p.new.hints ≡ p.old.hints }
{
    if let Some(rule) = p.events.order_rule(Kind::Core) {
        return Some(rule);
    }
    match p.hints.run(&p.store, u, hints) {
        HintEnd::Closed => {}
        HintEnd::Fails { position } => return Some(Rule::Hint(position)),
    }
    if let Some(rule) = p.events.core_rule(u) {
        return Some(rule);
    }
    p.events.take_core();
    None
}

/// Judges a lemma. Its hints are followed before it is added, since it is no hint of its own.
fn judge_lemma(
    p: &mut Parts,
    id: Id,
    lits: &[Lit],
    hints: &[Id],
) -> Result<Option<Rule>, AllocError>
    requires inside { HasHintRoom p.old.store p.old.events p.old.hints }
    requires reserved { AreReserved p.old.events lits.now }
    ensures judged { IfOk result (λ r. JudgedId (state_of_ids p.old) (state_of_ids p.new) (lsteps.Lemma id lits.now hints.now) r) }
    ensures inside { HasHintRoom p.new.store p.new.events p.new.hints }
    ensures room { p.new.hints ≡ p.old.hints }
{
    negate(&mut p.negations, lits)?;
    let end = p.hints.run(&p.store, p.negations.as_slice(), hints);
    match p.store.add(id, lits) {
        Ok(_) => {}
        Err(StoreFault::IdTaken) => return Ok(Some(Rule::IdTaken)),
        Err(_) => return Err(AllocError),
    }
    match end {
        HintEnd::Closed => Ok(None),
        HintEnd::Fails { position } => Ok(Some(Rule::Hint(position))),
    }
}

/// Judges a deletion. It takes no memory.
fn judge_deletion(p: &mut Parts, ids: &[Id]) -> Option<Rule>
    requires { HasHintRoom p.old.store p.old.events p.old.hints }
    ensures judged { JudgedId (state_of_ids p.old) (state_of_ids p.new) (lsteps.Delete ids.now) result }
    ensures inside { HasHintRoom p.new.store p.new.events p.new.hints }
    ensures room { p.new.hints ≡ p.old.hints }
{
    match delete_each(&mut p.store, ids) {
        Some(place) => Some(Rule::NotActive(place)),
        None => None,
    }
}

/// Judges a weakening.
fn judge_weakening(p: &mut Parts, ids: &[Id]) -> Result<Option<Rule>, AllocError>
    requires { HasHintRoom p.old.store p.old.events p.old.hints }
    ensures judged { IfOk result (λ r. JudgedId (state_of_ids p.old) (state_of_ids p.new) (lsteps.Weaken ids.now) r) }
    ensures inside { HasHintRoom p.new.store p.new.events p.new.hints }
    ensures room { p.new.hints ≡ p.old.hints }
{
    match weaken_each(&mut p.store, ids) {
        Ok(Some(place)) => Ok(Some(Rule::NotActive(place))),
        Ok(None) => Ok(None),
        Err(fault) => Err(fault),
    }
}

/// Judges a restoring.
fn judge_restoring(p: &mut Parts, ids: &[Id]) -> Result<Option<Rule>, AllocError>
    requires { HasHintRoom p.old.store p.old.events p.old.hints }
    ensures judged { IfOk result (λ r. JudgedId (state_of_ids p.old) (state_of_ids p.new) (lsteps.Restore ids.now) r) }
    ensures inside { HasHintRoom p.new.store p.new.events p.new.hints }
    ensures room { p.new.hints ≡ p.old.hints }
{
    match restore_each(&mut p.store, ids) {
        Ok(Some(place)) => Ok(Some(Rule::NotWeakened(place))),
        Ok(None) => Ok(None),
        Err(fault) => Err(fault),
    }
}

/// Judges an input of the file.
fn take_input(
    p: &mut Parts,
    numbers: &mut Numbers,
    id: Id,
    lits: &[Lit],
) -> Result<Option<Rule>, AllocError>
    requires { HasHintRoom p.old.store p.old.events p.old.hints }
    ensures judged { IfOk result (λ r. JudgedIdThrough numbers.old.vars numbers.new.vars (state_of_ids p.old) (state_of_ids p.new) (lsteps.Input id lits.now) r) }
    ensures continues { Continues numbers.old.vars numbers.new.vars }
    ensures inside { HasHintRoom p.new.store p.new.events p.new.hints }
    ensures room { OnOk result (length numbers.new.vars ≤ p.new.hints) }
{
    number(p, numbers, lits)?;
    match judge_input(p, id, numbers.lits()) {
        Ok(answer) => Ok(shown_answer(answer, numbers.dense())),
        Err(fault) => Err(fault),
    }
}

/// Judges a lemma of the file.
fn take_lemma(
    p: &mut Parts,
    numbers: &mut Numbers,
    id: Id,
    lits: &[Lit],
    hints: &[Id],
) -> Result<Option<Rule>, AllocError>
    requires { HasHintRoom p.old.store p.old.events p.old.hints }
    ensures judged { IfOk result (λ r. JudgedIdThrough numbers.old.vars numbers.new.vars (state_of_ids p.old) (state_of_ids p.new) (lsteps.Lemma id lits.now hints.now) r) }
    ensures continues { Continues numbers.old.vars numbers.new.vars }
    ensures inside { HasHintRoom p.new.store p.new.events p.new.hints }
    ensures room { OnOk result (length numbers.new.vars ≤ p.new.hints) }
{
    number(p, numbers, lits)?;
    match judge_lemma(p, id, numbers.lits(), hints) {
        Ok(answer) => Ok(shown_answer(answer, numbers.dense())),
        Err(fault) => Err(fault),
    }
}

/// Judges a query of the file.
fn take_query(
    p: &mut Parts,
    numbers: &mut Numbers,
    lits: &[Lit],
) -> Result<Option<Rule>, AllocError>
    requires { HasHintRoom p.old.store p.old.events p.old.hints }
    ensures judged { IfOk result (λ r. JudgedIdThrough numbers.old.vars numbers.new.vars (state_of_ids p.old) (state_of_ids p.new) (lsteps.Query lits.now) r) }
    ensures continues { Continues numbers.old.vars numbers.new.vars }
    ensures inside { HasHintRoom p.new.store p.new.events p.new.hints }
    ensures room { OnOk result (length numbers.new.vars ≤ p.new.hints) }
{
    number(p, numbers, lits)?;
    match judge_query(p, numbers.lits()) {
        Ok(answer) => Ok(shown_answer(answer, numbers.dense())),
        Err(fault) => Err(fault),
    }
}

/// Judges a model of the file.
fn take_model(
    p: &mut Parts,
    numbers: &mut Numbers,
    lits: &[Lit],
) -> Result<Option<Rule>, AllocError>
    requires { HasHintRoom p.old.store p.old.events p.old.hints }
    ensures judged { IfOk result (λ r. JudgedIdThrough numbers.old.vars numbers.new.vars (state_of_ids p.old) (state_of_ids p.new) (lsteps.Model lits.now) r) }
    ensures continues { Continues numbers.old.vars numbers.new.vars }
    ensures inside { HasHintRoom p.new.store p.new.events p.new.hints }
    ensures room { OnOk result (length numbers.new.vars ≤ p.new.hints) }
{
    number(p, numbers, lits)?;
    let answer = judge_model(p, numbers.lits());
    Ok(shown_answer(answer, numbers.dense()))
}

/// Follows the hints of a core that has a literal without a number. Such a literal is in no clause, so the others are followed
/// alone, unless two without a number are opposite. It takes no memory for at most 16 literals.
fn follow_strange(
    p: &mut Parts,
    numbers: &mut Numbers,
    u: &[Lit],
    hints: &[Id],
) -> Result<HintEnd, AllocError>
    requires inside { HasHintRoom p.old.store p.old.events p.old.hints }
    requires room { length numbers.old.vars ≤ p.old.hints }
    ensures end { IfOk result (λ end. (ps : List LStep) → AreAfterIdsThrough numbers.old.vars (state_of_ids p.old) ps
        → end ≡ end_of (hints_fail (active_clause ps) u.now hints.now)) }
    ensures vars { numbers.new.vars ≡ numbers.old.vars }
    ensures kept { state_of_ids p.new ≡ state_of_ids p.old }
    ensures inside { HasHintRoom p.new.store p.new.events p.new.hints }
    ensures room { p.new.hints ≡ p.old.hints }
    ensures short { length u.now ≤ 16 → IsOk result }
{
    match numbers.find_known(u) {
        Ok(true) => Ok(HintEnd::Closed),
        Ok(false) => Ok(p.hints.run(&p.store, numbers.lits(), hints)),
        Err(_) => Err(AllocError),
    }
}

/// Judges a core of the file that has a literal without a number. It takes no memory for at most 16 literals.
fn judge_strange_core(
    p: &mut Parts,
    numbers: &mut Numbers,
    u: &[Lit],
    hints: &[Id],
) -> Result<Option<Rule>, AllocError>
    requires inside { HasHintRoom p.old.store p.old.events p.old.hints }
    requires room { length numbers.old.vars ≤ p.old.hints }
    requires strange { are_known numbers.old.vars u.now ≡ false }
    ensures judged { IfOk result (λ r. JudgedIdThrough numbers.old.vars numbers.new.vars (state_of_ids p.old) (state_of_ids p.new) (lsteps.Core u.now hints.now) r) }
    ensures vars { numbers.new.vars ≡ numbers.old.vars }
    ensures inside { HasHintRoom p.new.store p.new.events p.new.hints }
    ensures room { p.new.hints ≡ p.old.hints }
    ensures short { length u.now ≤ 16 → IsOk result }
{
    if let Some(rule) = p.events.order_rule(Kind::Core) {
        return Ok(Some(rule));
    }
    match follow_strange(p, numbers, u, hints) {
        Ok(HintEnd::Closed) => {}
        Ok(HintEnd::Fails { position }) => return Ok(Some(Rule::Hint(position))),
        Err(fault) => return Err(fault),
    }
    match numbers.find(u) {
        Ok(_) => Ok(Some(first_stranger(&mut p.events, numbers, u))),
        Err(fault) => Err(fault),
    }
}

/// Judges a core of the file. It takes no memory for at most 16 literals.
fn take_core(
    p: &mut Parts,
    numbers: &mut Numbers,
    u: &[Lit],
    hints: &[Id],
) -> Result<Option<Rule>, AllocError>
    requires inside { HasHintRoom p.old.store p.old.events p.old.hints }
    requires room { length numbers.old.vars ≤ p.old.hints }
    ensures judged { IfOk result (λ r. JudgedIdThrough numbers.old.vars numbers.new.vars (state_of_ids p.old) (state_of_ids p.new) (lsteps.Core u.now hints.now) r) }
    ensures vars { numbers.new.vars ≡ numbers.old.vars }
    ensures inside { HasHintRoom p.new.store p.new.events p.new.hints }
    ensures room { p.new.hints ≡ p.old.hints }
    ensures short { length u.now ≤ 16 → IsOk result }
{
    match numbers.find(u) {
        Ok(true) => {
            let answer = judge_core(p, numbers.lits(), hints);
            Ok(shown_answer(answer, numbers.dense()))
        }
        Ok(false) => judge_strange_core(p, numbers, u, hints),
        Err(fault) => Err(fault),
    }
}

/// Judges a status of the file. It takes no memory.
fn take_status(p: &mut Parts, numbers: &Numbers, word: StatusWord) -> Option<Rule>
    requires { HasHintRoom p.old.store p.old.events p.old.hints }
    ensures judged { JudgedIdThrough numbers.now.vars numbers.now.vars (state_of_ids p.old) (state_of_ids p.new) (lsteps.Status word) result }
    ensures inside { HasHintRoom p.new.store p.new.events p.new.hints }
    ensures room { p.new.hints ≡ p.old.hints }
{
    let answer = judge_status(p, word);
    shown_answer(answer, numbers.dense())
}

/// Judges a deletion of the file. It takes no memory.
fn take_deletion(p: &mut Parts, numbers: &Numbers, ids: &[Id]) -> Option<Rule>
    requires { HasHintRoom p.old.store p.old.events p.old.hints }
    ensures judged { JudgedIdThrough numbers.now.vars numbers.now.vars (state_of_ids p.old) (state_of_ids p.new) (lsteps.Delete ids.now) result }
    ensures inside { HasHintRoom p.new.store p.new.events p.new.hints }
    ensures room { p.new.hints ≡ p.old.hints }
{
    let answer = judge_deletion(p, ids);
    shown_answer(answer, numbers.dense())
}

/// Judges a weakening of the file.
fn take_weakening(p: &mut Parts, numbers: &Numbers, ids: &[Id]) -> Result<Option<Rule>, AllocError>
    requires { HasHintRoom p.old.store p.old.events p.old.hints }
    ensures judged { IfOk result (λ r. JudgedIdThrough numbers.now.vars numbers.now.vars (state_of_ids p.old) (state_of_ids p.new) (lsteps.Weaken ids.now) r) }
    ensures inside { HasHintRoom p.new.store p.new.events p.new.hints }
    ensures room { p.new.hints ≡ p.old.hints }
{
    match judge_weakening(p, ids) {
        Ok(answer) => Ok(shown_answer(answer, numbers.dense())),
        Err(fault) => Err(fault),
    }
}

/// Judges a restoring of the file.
fn take_restoring(p: &mut Parts, numbers: &Numbers, ids: &[Id]) -> Result<Option<Rule>, AllocError>
    requires { HasHintRoom p.old.store p.old.events p.old.hints }
    ensures judged { IfOk result (λ r. JudgedIdThrough numbers.now.vars numbers.now.vars (state_of_ids p.old) (state_of_ids p.new) (lsteps.Restore ids.now) r) }
    ensures inside { HasHintRoom p.new.store p.new.events p.new.hints }
    ensures room { p.new.hints ≡ p.old.hints }
{
    match judge_restoring(p, ids) {
        Ok(answer) => Ok(shown_answer(answer, numbers.dense())),
        Err(fault) => Err(fault),
    }
}

/// Judges a step of the file.
fn judge(p: &mut Parts, numbers: &mut Numbers, step: &LStep) -> Result<Option<Rule>, AllocError>
    requires inside { HasHintRoom p.old.store p.old.events p.old.hints }
    requires room { length numbers.old.vars ≤ p.old.hints }
    ensures judged { IfOk result (λ r. JudgedIdThrough numbers.old.vars numbers.new.vars (state_of_ids p.old) (state_of_ids p.new) step.now r) }
    ensures continues { Continues numbers.old.vars numbers.new.vars }
    ensures inside { HasHintRoom p.new.store p.new.events p.new.hints }
    ensures room { OnOk result (length numbers.new.vars ≤ p.new.hints) }
    ensures frugal { IsTrue (is_frugal_with_ids step.now) → IsOk result }
{
    match step {
        LStep::Input { id, lits } => take_input(p, numbers, *id, lits.as_slice()),
        LStep::Lemma { id, lits, hints } => {
            take_lemma(p, numbers, *id, lits.as_slice(), hints.as_slice())
        }
        LStep::Delete(ids) => Ok(take_deletion(p, numbers, ids.as_slice())),
        LStep::Weaken(ids) => take_weakening(p, numbers, ids.as_slice()),
        LStep::Restore(ids) => take_restoring(p, numbers, ids.as_slice()),
        LStep::Query(lits) => take_query(p, numbers, lits.as_slice()),
        LStep::Status(word) => Ok(take_status(p, numbers, *word)),
        LStep::Model(lits) => take_model(p, numbers, lits.as_slice()),
        LStep::Core { lits, hints } => take_core(p, numbers, lits.as_slice(), hints.as_slice()),
    }
}

/// Keeps the literals of a query as the file has them. An error leaves all as it was.
fn keep_asked(asked: &mut Vec<Lit>, step: &LStep) -> Result<(), AllocError>
    ensures ok { OnOk result (asked.new.items ≡ asked_after_id asked.old.items step.now) }
    ensures err { OnErr result (asked.new.items ≡ asked.old.items) }
    ensures frugal { IsTrue (is_frugal_with_ids step.now) → IsOk result }
{
    match step {
        LStep::Query(lits) => refill(asked, lits.as_slice()),
        _ => Ok(()),
    }
}

/// Judges a step of the file, and keeps the literals of a query.
fn judge_and_keep(
    p: &mut Parts,
    numbers: &mut Numbers,
    asked: &mut Vec<Lit>,
    step: &LStep,
) -> Result<Option<Rule>, AllocError>
    requires inside { HasHintRoom p.old.store p.old.events p.old.hints }
    requires room { length numbers.old.vars ≤ p.old.hints }
    requires known { IsTrue (are_known numbers.old.vars asked.old.items) }
    ensures judged { IfOk result (λ r. JudgedIdThrough numbers.old.vars numbers.new.vars (state_of_ids p.old) (state_of_ids p.new) step.now r) }
    ensures asked { IfOk result (λ r. IfNone r (asked.new.items ≡ asked_after_id asked.old.items step.now)) }
    ensures known { IsTrue (are_known numbers.new.vars asked.new.items) }
    ensures inside { HasHintRoom p.new.store p.new.events p.new.hints }
    ensures room { OnOk result (length numbers.new.vars ≤ p.new.hints) }
    ensures frugal { IsTrue (is_frugal_with_ids step.now) → IsOk result }
{
    match judge(p, numbers, step) {
        Ok(None) => {}
        Ok(Some(rule)) => return Ok(Some(rule)),
        Err(fault) => return Err(fault),
    }
    match keep_asked(asked, step) {
        Ok(()) => Ok(None),
        Err(fault) => Err(fault),
    }
}

/// Judges a proof with ids by itself, step by step.
///
/// Contracts see whether it is live; the variables in the order in which they came; its clauses by id, each active or weakened
/// with its literal set, and what its events say (the phase, the assumptions, the inputs), both over the variables' numbers; and
/// the last query's literals as the file has them. It stands for a list of steps where these are what the steps leave.
#[derive(Drop)]
pub struct LidrupSide {
    parts: Parts,
    numbers: Numbers,
    asked: Vec<Lit>,
    live: bool,
}

impl Model for LidrupSide {
    ghost use Rattle.side_laws.specs.ClauseStates.{clauses_of_store};
    ghost use Rattle.pair_matcher.specs.Sides.{LidrupView};
    ghost use Rattle.pair_matcher.specs.Inside.{IsReadyForIds};
    ghost use Rattle.std.specs.Coded.{codes};
    ghost use Rattle.side_laws.specs.ClauseStates.{clauses_code};

    ghost Value = { LidrupView };

    ghost coded = { Prim.hlevel (codes, clauses_code) };

    ghost view = { λ s. record { live = s.live; clauses = clauses_of_store s.parts.store; events = s.parts.events; vars = s.numbers.vars; asked = s.asked.items } };

    ghost invariant = { λ s. IsReadyForIds s.parts.store s.parts.events s.parts.hints s.numbers.vars s.asked.items s.live };
}

impl LidrupSide {
    /// The side before the first step.
    pub fn new(alloc: Global) -> Result<LidrupSide, AllocError>
        ensures live { IfOk result (λ s. s.live ≡ true) }
        ensures stands { IfOk result (λ s. StandsForIds s []) }
        ensures ok { IsOk result }
    {
        let parts = Parts {
            events: Events::new(alloc),
            store: Store::without_index(alloc),
            hints: HintCheck::new(alloc),
            negations: Vec::new(alloc),
        };
        let numbers = Numbers::new(alloc);
        let asked = Vec::new(alloc);
        Ok(LidrupSide {
            parts,
            numbers,
            asked,
            live: true,
        })
    }

    /// The first own rule that the step breaks, or `None`. After `None` the side is live and stands for the steps so far
    /// with this one at their end; after a rule, or where memory is wanting, it isn't live and is given up. A status and a
    /// deletion take no memory, and neither does a core of at most 16 literals.
    #[tactic(auto, using(crate::proofs::TranslatingIds::id_step_stands))]
    pub fn step(&mut self, step: &LStep) -> Result<Option<Rule>, AllocError>
        requires live { IsTrue self.old.live }
        ensures rule { IfOk result (λ r. (ps : List LStep) → StandsForIds self.old ps → r ≡ first_rule (own_id_faults ps step.now)) }
        ensures stands { IfOk result (λ r. IfNone r ((ps : List LStep) → StandsForIds self.old ps → StandsForIds self.new (ps ++ step.now ∷ []))) }
        ensures known { IfOk result (λ r. IfNone r (IsTrue (is_known_id_step self.new.vars step.now))) }
        ensures live { IfOk result (λ r. self.new.live ≡ is_none r) }
        ensures err { OnErr result (self.new.live ≡ false) }
        ensures frugal { IsTrue (is_frugal_with_ids step.now) → IsOk result }
    {
        let judged = judge_and_keep(&mut self.parts, &mut self.numbers, &mut self.asked, step);
        self.live = matches!(judged, Ok(None));
        judged
    }

    /// The literals of the last query as the file has them, in its order and with its repeats; none before the first query.
    pub fn assumed(&self) -> &[Lit]
        ensures value { result.now ≡ self.now.asked }
        ensures known { IsTrue (are_known self.now.vars self.now.asked) }
    {
        self.asked.as_slice()
    }

    /// The numbers of the file's variables, in the order in which they came.
    pub fn dense(&self) -> &Dense
        ensures { result.now ≡ self.now.vars }
    {
        self.numbers.dense()
    }

    /// Unfinished exactly where a query is open.
    pub fn finish(&self) -> Option<Rule>
        ensures { (ps : List LStep) → StandsForIds self.now ps → result ≡ first_rule (broken_unless (is_idle (phase (id_events_of ps))) Rule.Unfinished) }
    {
        end_rule(self.parts.events.phase())
    }
}
