// The resolvents of a variable: each that is no tautology and whose set no irredundant clause has is told and added.
ghost use Rattle.std.specs.Prelude.{◌≡◌, ℕ, ◌+◌, ◌<◌, ◌≤◌, ◌^◌, [], ◌∷◌, List, length, true, false, Contains, OnOk, IfOk, IfErr};
ghost use Rattle.lits.specs.Clause.{is_tautology, same_set};
ghost use Rattle.clause_store.specs.Clauses.{IsOnce};
ghost use Rattle.propagation.specs.Clauses.{literals_at};
ghost use Rattle.resolvents.specs.Held.{AreReserved};
ghost use Rattle.restore.specs.Resolution.{holds, holds_negated, without};
ghost use Rattle.elimination.specs.Steps.{standing};
ghost use Rattle.elimination.specs.Databases.{IsDatabase, BreaksOff, irredundant_of};
ghost use Rattle.elimination.specs.Resolving.{IsJudged, ResolvesEach, IsFirst, IsSecond, IsHeld};

use crate::database::Database;
use crate::fault::BoardFault;
use crate::pairs::lits_of;
use lits::Lit;
use resolvents::Resolver;
use session_rules::{Id, Log};
use std::alloc::{AllocError, Global};

/// Where resolvents are made: the first clause, the resolvent, and the resolvent again with marks.
#[derive(Drop)]
pub struct Workbench {
    pub(crate) first: Resolver,
    pub(crate) second: Resolver,
    pub(crate) resolvent: Vec<Lit>,
}

/// Makes the resolvent of the clause that is held with another, and answers whether it is to be told.
///
/// `AllocError` means out of memory.
fn is_new(
    clauses: &Database,
    bench: &mut Workbench,
    var: u32,
    against: Id,
) -> Result<bool, AllocError>
    requires sound { IsDatabase clauses.now }
    requires against { Contains clauses.now.irredundant against }
    requires once { IsOnce bench.old.first.clause }
    requires clean { is_tautology bench.old.first.clause ≡ false }
    requires wider { 0 < length (without var bench.old.first.clause) }
    requires within { AreReserved clauses.now.engine.vars bench.old.first.clause }
    requires first_room { clauses.now.engine.vars ≤ bench.old.first.reserved }
    requires second_room { clauses.now.engine.vars ≤ bench.old.second.reserved }
    ensures judged { IfOk result (λ b. IsJudged b var (irredundant_of clauses.now) bench.old.first.clause (literals_at clauses.now.engine.clauses against) bench.new.resolvent.items) }
    ensures first { bench.new.first ≡ bench.old.first }
    ensures second { bench.new.second.reserved ≡ bench.old.second.reserved }
{
    let store = clauses.engine.store();
    let other = lits_of(store, against);
    if bench.first.is_tautology_with(var, other) {
        return Ok(false);
    }
    bench.first.resolve(var, other, &mut bench.resolvent)?;
    bench.second.hold(&bench.resolvent)?;
    Ok(!clauses.knows(&bench.second))
}

/// Resolves the clause that is held, which is that of the first id, with the second one. Where their resolvent is no tautology
/// and no irredundant clause has its set, it is told with both as its hints, and added.
///
/// After a fault the clauses are given up.
fn add_resolvent<L: Log>(
    clauses: &mut Database,
    bench: &mut Workbench,
    var: u32,
    first: Id,
    second: Id,
    log: &mut L,
) -> Result<(), BoardFault>
    requires sound { IsDatabase clauses.old }
    requires first { IsFirst var clauses.old first }
    requires second { IsSecond var clauses.old second }
    requires held { IsHeld clauses.old first bench.old.first.clause }
    requires first_room { clauses.old.engine.vars ≤ bench.old.first.reserved }
    requires second_room { clauses.old.engine.vars ≤ bench.old.second.reserved }
    requires room { clauses.old.next_id + L.room log.old ≤ 2 ^ 63 }
    ensures each { OnOk result (ResolvesEach L.takes var log.old clauses.old (first ∷ []) (second ∷ []) clauses.new log.new) }
    ensures held { bench.new.first ≡ bench.old.first }
    ensures second { bench.new.second.reserved ≡ bench.old.second.reserved }
    ensures room { OnOk result (clauses.new.next_id + L.room log.new ≤ 2 ^ 63) }
    ensures broken { IfErr result (λ e. BreaksOff L.takes L.refuses (standing clauses.old.engine.clauses) log.old e log.new) }
{
    let _ = clauses.engine.level();
    let Ok(new) = is_new(clauses, bench, var, second) else {
        return Err(BoardFault::Memory);
    };
    if !new {
        return Ok(());
    }
    if let Err(fault) = clauses.tell_lemma(&bench.resolvent, &[first, second], log) {
        return Err(fault);
    }
    Ok(())
}

/// Resolves the clause that is held, which is that of the first id, with each of the others.
///
/// After a fault the clauses are given up.
fn resolve_with<L: Log>(
    clauses: &mut Database,
    bench: &mut Workbench,
    var: u32,
    first: Id,
    seconds: &[Id],
    log: &mut L,
) -> Result<(), BoardFault>
    requires sound { IsDatabase clauses.old }
    requires first { IsFirst var clauses.old first }
    requires seconds { (j : ℕ) → Contains seconds.now j → IsSecond var clauses.old j }
    requires held { IsHeld clauses.old first bench.old.first.clause }
    requires first_room { clauses.old.engine.vars ≤ bench.old.first.reserved }
    requires second_room { clauses.old.engine.vars ≤ bench.old.second.reserved }
    requires room { clauses.old.next_id + L.room log.old ≤ 2 ^ 63 }
    ensures each { OnOk result (ResolvesEach L.takes var log.old clauses.old (first ∷ []) seconds.now clauses.new log.new) }
    ensures first { bench.new.first.reserved ≡ bench.old.first.reserved }
    ensures second { bench.new.second.reserved ≡ bench.old.second.reserved }
    ensures room { OnOk result (clauses.new.next_id + L.room log.new ≤ 2 ^ 63) }
    ensures broken { IfErr result (λ e. BreaksOff L.takes L.refuses (standing clauses.old.engine.clauses) log.old e log.new) }
{
    for second in seconds {
        if let Err(fault) = add_resolvent(clauses, bench, var, first, *second, log) {
            return Err(fault);
        }
    }
    Ok(())
}

/// Resolves each of the first clauses, which hold a variable, with each of the second ones, which hold its negation. Each
/// resolvent that is no tautology and whose set no irredundant clause has is told with its two clauses as hints, and added.
///
/// After a fault the clauses are given up.
pub(crate) fn resolve_all<L: Log>(
    clauses: &mut Database,
    bench: &mut Workbench,
    var: u32,
    firsts: &[Id],
    seconds: &[Id],
    log: &mut L,
) -> Result<(), BoardFault>
    requires sound { IsDatabase clauses.old }
    requires firsts { (i : ℕ) → Contains firsts.now i → IsFirst var clauses.old i }
    requires seconds { (j : ℕ) → Contains seconds.now j → IsSecond var clauses.old j }
    requires first_room { clauses.old.engine.vars ≤ bench.old.first.reserved }
    requires second_room { clauses.old.engine.vars ≤ bench.old.second.reserved }
    requires room { clauses.old.next_id + L.room log.old ≤ 2 ^ 63 }
    ensures each { OnOk result (ResolvesEach L.takes var log.old clauses.old firsts.now seconds.now clauses.new log.new) }
    ensures first { bench.new.first.reserved ≡ bench.old.first.reserved }
    ensures second { bench.new.second.reserved ≡ bench.old.second.reserved }
    ensures room { OnOk result (clauses.new.next_id + L.room log.new ≤ 2 ^ 63) }
    ensures broken { IfErr result (λ e. BreaksOff L.takes L.refuses (standing clauses.old.engine.clauses) log.old e log.new) }
{
    for first in firsts {
        if hold_clause(clauses, bench, *first).is_err() {
            return Err(BoardFault::Memory);
        }
        if let Err(fault) = resolve_with(clauses, bench, var, *first, seconds, log) {
            return Err(fault);
        }
    }
    Ok(())
}

/// Holds an irredundant clause as the first one of pairs.
///
/// `AllocError` means out of memory.
fn hold_clause(clauses: &Database, bench: &mut Workbench, id: Id) -> Result<(), AllocError>
    requires sound { IsDatabase clauses.now }
    requires there { Contains clauses.now.irredundant id }
    requires room { clauses.now.engine.vars ≤ bench.old.first.reserved }
    ensures held { OnOk result (IsHeld clauses.now id bench.new.first.clause) }
    ensures first { bench.new.first.reserved ≡ bench.old.first.reserved }
    ensures second { bench.new.second ≡ bench.old.second }
{
    let store = clauses.engine.store();
    bench.first.hold(lits_of(store, id))?;
    Ok(())
}
