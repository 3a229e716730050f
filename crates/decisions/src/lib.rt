//! What a search decides next: the free variable with the best score, in the phase in which it was last.
//!
//! A variable that propagation assigns stays among those that are looked at, since to take it out and to put it back would cost
//! more than to pass over it when its turn comes. So what is promised is this: a variable that isn't looked at is assigned. It is
//! looked at again when it leaves the trail, and keeps the sign that it had there as its phase (K. Pipatsrisawat and A. Darwiche,
//! 2007). Scores rise by an amount that grows, so that variables of late conflicts come first (N. Eén and N. Sörensson, 2003).
#![tactic(auto)]

ghost use Rattle.std.specs.Prelude.{◌≡◌, ℕ, ◌<◌, ◌≤◌, ◌⊎◌, OnOk, length, max};
ghost use Rattle.lits.specs.Literal.{var};
ghost use Rattle.decisions.specs.Candidates.{IsCandidate, IsReserved, Picks};

use decide_order::Order;
use lits::{Lit, MAX_VAR};
use propagation::Engine;
use std::alloc::{AllocError, Global};
use std::marker::Model;

/// The amount by which a score rises at first.
const FIRST: u64 = 1 << 16;

/// An amount beyond which all scores are scaled down.
const MOST: u64 = 1 << 48;

/// Which variables are looked at, with scores and phases that contracts don't see.
#[derive(Drop)]
pub struct Decisions {
    order: Order,
    // for each variable from 1 on, whether it is decided as true
    phases: Vec<bool>,
    amount: u64,
}

impl Model for Decisions {
    ghost use Rattle.decisions.specs.Candidates.{DecisionsView, decisions_code};
    ghost use Rattle.decisions.specs.Inside.{AreDecisions};

    ghost Value = { DecisionsView };

    ghost coded = { decisions_code };

    ghost view = { λ d. record { reserved = d.order.reserved; candidates = d.order.members } };

    ghost invariant = { λ d. AreDecisions d.order d.phases.items d.amount };
}

impl Decisions {
    /// No variable is reserved.
    pub fn new(alloc: Global) -> Decisions
        ensures reserved { result.reserved ≡ 0 }
    {
        Decisions {
            order: Order::new(alloc),
            phases: Vec::new(alloc),
            amount: FIRST,
        }
    }

    /// Reserves the variables up to this one. New ones aren't looked at yet; their phase is false.
    ///
    /// `AllocError` means out of memory; then at most the greatest reserved variable is another one.
    pub fn reserve(&mut self, vars: u32) -> Result<(), AllocError>
        requires { vars ≤ MAX_VAR }
        ensures ok { OnOk result (self.new.reserved ≡ max self.old.reserved vars) }
        ensures candidates { self.new.candidates ≡ self.old.candidates }
        ensures grows { self.old.reserved ≤ self.new.reserved }
    {
        if vars as usize > self.phases.len() {
            self.phases.resize(vars as usize, false)?;
        }
        self.order.reserve(vars)
    }

    /// Looks at a variable again, and keeps the literal's sign as its phase.
    pub fn release(&mut self, l: Lit)
        requires { IsReserved self.old (var l) }
        ensures reserved { self.new.reserved ≡ self.old.reserved }
        ensures released { IsCandidate self.new (var l) }
        ensures others { (v : ℕ) → IsCandidate self.old v → IsCandidate self.new v }
        ensures only { (v : ℕ) → IsCandidate self.new v → IsCandidate self.old v ⊎ (v ≡ var l) }
    {
        let v = l.var();
        self.phases[(v - 1) as usize] = l.positive();
        self.order.insert(v);
    }

    /// Raises the score of a literal's variable by the present amount.
    pub fn raise(&mut self, l: Lit)
        requires { IsReserved self.old (var l) }
        ensures { self.new ≡ self.old }
    {
        self.order.raise(l.var(), self.amount);
    }

    /// Makes the amount greater by a twentieth; where it is very great, all scores and the amount are divided alike.
    pub fn grow(&mut self)
        ensures { self.new ≡ self.old }
    {
        self.amount += self.amount / 20;
        if self.amount > MOST {
            self.order.scale(32);
            self.amount = FIRST;
        }
    }

    /// Picks the free variable with the best score among those that are looked at, in its phase; none where none of them is free.
    pub fn pick(&mut self, engine: &Engine) -> Option<Lit>
        ensures { Picks engine.now self.old self.new result }
    {
        'best: while let Some(v) = self.order.take_best() {
            let l = phase_of(&self.phases, v);
            if engine.value(l).is_none() {
                return Some(l);
            }
        }
        None
    }
}

/// The literal of a variable in its phase.
fn phase_of(phases: &[bool], v: u32) -> Lit
    requires positive { 0 < v }
    requires within { v ≤ length phases.now }
    requires limit { v ≤ MAX_VAR }
    ensures { var result ≡ v }
{
    let first = 2 * (v - 1);
    let code = if phases[(v - 1) as usize] {
        first
    } else {
        first + 1
    };
    Lit::from_code(code)
}
