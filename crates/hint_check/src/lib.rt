//! The hint rule: whether the clauses that a proof names refute literals, in the order in which it names them.
//!
//! From literals that are true, the named clauses are taken one after another: one that is false closes, one with a single
//! literal that isn't false makes this literal true, and any other fails. So a run costs one pass over the named clauses,
//! and nothing is searched for.
//!
//! Which literals are true lies in a table by literal code. To empty it before each run would cost a pass over all
//! variables, however short the hints are. So each run has a number, the table has for each literal the last run in which it
//! was true, and what it has from earlier runs means nothing. Once in 2^32 - 1 runs the numbers are used up, and the table is
//! emptied.
#![tactic(auto)]

ghost use Rattle.std.specs.Prelude.{◌≡◌, ℕ, ◌+◌, ◌*◌, ◌<◌, ◌≤◌, List, [], ◌∷◌, length, max, Contains, Bool, true, false, IsTrue, nat_eq, Some, None, OnOk, OnErr, IsOk, slice_index, ◌↔◌};
ghost use Rattle.lits.specs.Literal.{max_var, var, neg};
ghost use Rattle.session_rules.specs.Logic as logic;
ghost use Rattle.std.specs.FinMap as finmap;
ghost use Rattle.clause_store.specs.Clauses.{ClauseEntry, IsSlot, slot_at, lits_at};
ghost use Rattle.hint_check.specs.Hints.{active_at, end_of, AreWithin, IsLeftOf};
ghost use Rattle.hint_check.specs.Runs.{AreTrueIn, NoneLater};

use clause_store::{Slot, Store};
use lits::Lit;
use session_rules::Left;
use std::alloc::{AllocError, Global};
use std::marker::Model;

/// How hints end: they close, or fail at a position, counted from 1. Hints that all go through fail behind the last.
#[derive(Clone, Copy, PartialEq, Eq, Debug)]
pub enum HintEnd {
    Closed,
    Fails { position: u64 },
}

/// Runs of the hint rule. Contracts see the greatest reserved variable.
#[derive(Drop)]
pub struct HintCheck {
    // for each literal code the number of the last run in which the literal was true
    last_true: Vec<u32>,
    // that of the last run
    run_number: u32,
    vars: u32,
}

impl Model for HintCheck {
    ghost use Rattle.std.specs.Prelude.{ℕ};
    ghost use Rattle.hint_check.specs.Runs.{IsTable};

    ghost Value = { ℕ };

    ghost view = { λ h. h.vars };

    ghost invariant = { λ h. IsTable h.last_true.items h.run_number h.vars };
}

/// Whether a literal is true in a run.
fn is_true(last_true: &[u32], run_number: u32, l: Lit) -> bool
    requires { l < length last_true.now }
    ensures { result ≡ nat_eq (slice_index last_true.now l) run_number }
{
    last_true[l.code() as usize] == run_number
}

/// The number of the next run, in which no literal is true yet.
fn next_run(last_true: &mut [u32], run_number: u32) -> u32
    requires { NoneLater last_true.old run_number }
    ensures clean { AreTrueIn last_true.new result [] }
    ensures below { NoneLater last_true.new result }
{
    if run_number < u32::MAX {
        return run_number + 1;
    }
    for m in last_true.iter_mut() {
        *m = 0;
    }
    1
}

/// Makes each literal of a list true.
fn make_true(last_true: &mut [u32], run_number: u32, start: &[Lit])
    requires within { (l : ℕ) → Contains start.now l → l < length last_true.old }
    requires clean { AreTrueIn last_true.old run_number [] }
    requires below { NoneLater last_true.old run_number }
    ensures marked { AreTrueIn last_true.new run_number start.now }
    ensures below { NoneLater last_true.new run_number }
{
    for l in start {
        last_true[l.code() as usize] = run_number;
    }
}

/// Whether two literals of a list are opposite, which are the true ones.
fn are_opposite(last_true: &[u32], run_number: u32, start: &[Lit]) -> bool
    requires within { (l : ℕ) → Contains start.now l → neg l < length last_true.now }
    requires marked { AreTrueIn last_true.now run_number start.now }
    ensures { result ≡ logic.is_tautology start.now }
{
    for l in start {
        if is_true(last_true, run_number, l.neg()) {
            return true;
        }
    }
    false
}

/// What is left of a clause.
fn left_of(last_true: &[u32], run_number: u32, lits: &[Lit]) -> Left
    requires within { (l : ℕ) → Contains lits.now l → neg l < length last_true.now }
    ensures left { (trues : List ℕ) → AreTrueIn last_true.now run_number trues
        → result ≡ logic.left trues lits.now }
    ensures known { IsLeftOf result lits.now }
{
    let mut met: Option<Lit> = None;
    for l in lits {
        if !is_true(last_true, run_number, l.neg()) {
            match met {
                None => met = Some(*l),
                Some(m) => {
                    if m != *l {
                        return Left::Open;
                    }
                }
            }
        }
    }
    match met {
        None => Left::Falsified,
        Some(m) => Left::UnitLiteral(m),
    }
}

/// What is left of a clause of two literals.
fn left_of_two(last_true: &[u32], run_number: u32, x: Lit, y: Lit) -> Left
    requires x { neg x < length last_true.now }
    requires y { neg y < length last_true.now }
    ensures left { (trues : List ℕ) → AreTrueIn last_true.now run_number trues
        → result ≡ logic.left trues (x ∷ y ∷ []) }
    ensures known { IsLeftOf result (x ∷ y ∷ []) }
{
    if is_true(last_true, run_number, x.neg()) {
        if is_true(last_true, run_number, y.neg()) {
            return Left::Falsified;
        }
        return Left::UnitLiteral(y);
    }
    if is_true(last_true, run_number, y.neg()) {
        return Left::UnitLiteral(x);
    }
    if x == y {
        return Left::UnitLiteral(x);
    }
    Left::Open
}

/// What is left of the clause at a slot. A list of two is judged without a loop.
fn left_at(last_true: &[u32], run_number: u32, store: &Store, slot: Slot) -> Left
    requires slot { IsSlot store.now slot }
    requires within { (id l : ℕ) → slot_at store.now id ≡ Some slot → Contains (lits_at store.now id) l
        → neg l < length last_true.now }
    ensures left { (id : ℕ) → slot_at store.now id ≡ Some slot → (trues : List ℕ)
        → AreTrueIn last_true.now run_number trues → result ≡ logic.left trues (lits_at store.now id) }
    ensures known { (id : ℕ) → slot_at store.now id ≡ Some slot → IsLeftOf result (lits_at store.now id) }
{
    let lits = store.lits(slot);
    if lits.len() == 2 {
        let (x, y) = store.pair(slot);
        return left_of_two(last_true, run_number, x, y);
    }
    left_of(last_true, run_number, lits)
}

/// Takes the hints in order.
fn follow(last_true: &mut [u32], run_number: u32, store: &Store, hints: &[u64]) -> HintEnd
    requires within { AreWithin store.now (length last_true.old) }
    requires below { NoneLater last_true.old run_number }
    ensures end { (trues : List ℕ) → AreTrueIn last_true.old run_number trues
        → result ≡ end_of (logic.hints_fail_from (active_at store.now) 1 trues hints.now) }
    ensures below { NoneLater last_true.new run_number }
{
    for (i, id) in hints.iter().enumerate() {
        let Some(slot) = store.find(*id) else {
            return HintEnd::Fails {
                position: i as u64 + 1,
            };
        };
        match left_at(last_true, run_number, store, slot) {
            Left::Falsified => return HintEnd::Closed,
            Left::Open => {
                return HintEnd::Fails {
                    position: i as u64 + 1,
                };
            }
            Left::UnitLiteral(l) => last_true[l.code() as usize] = run_number,
        }
    }
    HintEnd::Fails {
        position: hints.len() as u64 + 1,
    }
}

/// A run over a table that has room for the store and the list.
fn run_over(
    last_true: &mut [u32],
    run_number: &mut u32,
    store: &Store,
    start: &[Lit],
    hints: &[u64],
) -> HintEnd
    requires start { (l : ℕ) → Contains start.now l → (l < length last_true.old) × (neg l < length last_true.old) }
    requires store { AreWithin store.now (length last_true.old) }
    requires below { NoneLater last_true.old run_number.old }
    ensures end { result ≡ end_of (logic.hints_fail (active_at store.now) start.now hints.now) }
    ensures below { NoneLater last_true.new run_number.new }
{
    let own = next_run(last_true, *run_number);
    *run_number = own;
    make_true(last_true, own, start);
    if are_opposite(last_true, own, start) {
        return HintEnd::Closed;
    }
    follow(last_true, own, store, hints)
}

impl HintCheck {
    /// No variable is reserved.
    pub fn new(alloc: Global) -> HintCheck
        ensures { result ≡ 0 }
    {
        HintCheck {
            last_true: Vec::new(alloc),
            run_number: 0,
            vars: 0,
        }
    }

    /// Makes room for the variables up to this one. Where memory is wanting nothing changes; what is reserved already needs
    /// none.
    pub fn reserve(&mut self, vars: u32) -> Result<(), AllocError>
        requires { vars ≤ max_var }
        ensures ok { OnOk result (self.new ≡ max self.old vars) }
        ensures err { OnErr result (self.new ≡ self.old) }
        ensures enough { vars ≤ self.old → IsOk result }
    {
        if vars <= self.vars {
            return Ok(());
        }
        self.last_true.resize(2 * vars as usize, 0)?;
        self.vars = vars;
        Ok(())
    }

    /// The end of the hint rule over the active clauses of a store, from these literals, with these ids. The variables of
    /// the store and of the literals are reserved. It takes no memory.
    pub fn run(&mut self, store: &Store, start: &[Lit], hints: &[u64]) -> HintEnd
        requires start { (l : ℕ) → Contains start.now l → var l ≤ self.old }
        requires store { (id l : ℕ) (h : ClauseEntry) → finmap.get store.now id ≡ Some h → Contains h.literals l
            → var l ≤ self.old }
        ensures end { result ≡ end_of (logic.hints_fail (active_at store.now) start.now hints.now) }
        ensures reserved { self.new ≡ self.old }
    {
        run_over(
            &mut self.last_true,
            &mut self.run_number,
            store,
            start,
            hints,
        )
    }
}
