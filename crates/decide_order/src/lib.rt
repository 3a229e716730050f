//! Which variable is decided next: a set of variables with scores that gives its best member.
//!
//! `Order` is a binary heap (J. W. J. Williams, 1964) that knows the place of each variable, as MiniSat's (N. Eén and
//! N. Sörensson, 2003). The greatest score is at the top, and the least variable of these.
#![tactic(auto)]

ghost use Rattle.std.specs.Prelude.{◌≡◌, ◌+◌, ◌-◌, ◌^◌, ◌<◌, ◌≤◌, min, IfSome, IfNone, OnOk, OnErr, IsOk};
ghost use Rattle.std.specs.FinSet as set;
ghost use Rattle.decide_order.specs.Ranked.{IsReserved, IsMember, IsBest, score, empty, with_reserved, with_score, with_member, without_member, scaled};

mod heap;
mod placed;

use heap::{heapify, rise, scale_each, sink};
use lits::MAX_VAR;
use placed::PlacedList;
use std::alloc::{AllocError, Global};
use std::marker::Model;

/// A set of variables with scores.
///
/// Contracts see the greatest reserved variable, the finite map of the scores of the variables from 1 up to it, and the
/// set of members. A variable is reserved where it is from 1 up to the greatest reserved one.
#[derive(Drop)]
pub struct Order {
    scores: Vec<u64>,
    placed: PlacedList,
}

impl Model for Order {
    ghost use Rattle.decide_order.specs.Ranked.{Ranked, ranked_code};

    ghost Value = { Ranked };

    ghost coded = { ranked_code };

    ghost use Rattle.decide_order.specs.Shown.{shown};
    ghost use Rattle.decide_order.specs.Heap.{IsOrder};

    ghost view = { λ o. shown o.scores.items o.placed };

    ghost invariant = { λ o. IsOrder o.scores.items o.placed };
}

impl Order {
    /// An order with no reserved variable. It takes no memory.
    pub fn new(alloc: Global) -> Order
        ensures { result ≡ empty }
    {
        Order {
            scores: Vec::new(alloc),
            placed: PlacedList::new(alloc),
        }
    }

    /// Reserves the variables up to this one. New ones have the score 0 and are no members.
    ///
    /// `AllocError` means want of memory, and then nothing is changed. What is reserved already needs no memory.
    pub fn reserve(&mut self, vars: u32) -> Result<(), AllocError>
        requires { vars ≤ MAX_VAR }
        ensures ok { OnOk result (self.new ≡ with_reserved self.old vars) }
        ensures err { OnErr result (self.new ≡ self.old) }
        ensures enough { vars ≤ self.old.reserved → IsOk result }
    {
        let before = self.scores.len();
        if vars as usize <= before {
            return Ok(());
        }
        self.scores.resize(vars as usize, 0)?;
        match self.placed.reserve(vars) {
            Ok(()) => Ok(()),
            Err(e) => {
                self.scores.truncate(before);
                Err(e)
            }
        }
    }

    /// Makes a variable a member; a member stays one. It takes no memory.
    pub fn insert(&mut self, var: u32)
        requires { IsReserved self.old var }
        ensures inserted { self.new ≡ with_member self.old var }
        ensures member { IsMember self.old var → self.new ≡ self.old }
    {
        if self.placed.has(var) {
            return;
        }
        let last = self.placed.len();
        self.placed.push(var);
        rise(&self.scores, &mut self.placed, last);
    }

    /// Adds an amount to a variable's score, which stays at 2^64 - 1 where the sum would be greater. It takes no memory.
    pub fn raise(&mut self, var: u32, by: u64)
        requires { IsReserved self.old var }
        ensures { self.new ≡ with_score self.old var (min (score self.old var + by) (2 ^ 64 - 1)) }
    {
        let row = (var - 1) as usize;
        let score = self.scores[row];
        self.scores[row] = score.saturating_add(by);
        if let Some(place) = self.placed.place_of(var) {
            rise(&self.scores, &mut self.placed, place);
        }
    }

    /// A variable's score.
    pub fn score(&self, var: u32) -> u64
        requires { IsReserved self.now var }
        ensures { result ≡ score self.now var }
    {
        self.scores[(var - 1) as usize]
    }

    /// Gives a variable a score that isn't greater than its own.
    fn lower(&mut self, var: u32, to: u64)
        requires reserved { IsReserved self.old var }
        requires less { to ≤ score self.old var }
        ensures { self.new ≡ with_score self.old var to }
    {
        let row = (var - 1) as usize;
        self.scores[row] = to;
        if let Some(place) = self.placed.place_of(var) {
            sink(&self.scores, &mut self.placed, 0, place);
        }
    }

    /// Gives a variable another score, whether it is a member or not. It takes no memory.
    pub fn set(&mut self, var: u32, to: u64)
        requires { IsReserved self.old var }
        ensures { self.new ≡ with_score self.old var to }
    {
        let score = self.score(var);
        if score < to {
            self.raise(var, to - score);
        } else {
            self.lower(var, to);
        }
    }

    /// Divides each score by 2^bits downwards, of members and of others. It takes no memory.
    pub fn scale(&mut self, bits: u32)
        requires { bits < 64 }
        ensures { self.new ≡ scaled self.old bits }
    {
        scale_each(&mut self.scores, bits);
        heapify(&self.scores, &mut self.placed);
    }

    /// Takes out the member with the greatest score, and the least variable of these; `None` exactly where there is no
    /// member. It takes no memory.
    pub fn take_best(&mut self) -> Option<u32>
        ensures best { IfSome result (λ v. IsBest self.old v) }
        ensures reserved { IfSome result (λ v. IsReserved self.old v) }
        ensures taken { IfSome result (λ v. self.new ≡ without_member self.old v) }
        ensures none { IfNone result (self.old.members ≡ set.empty) }
        ensures unchanged { IfNone result (self.new ≡ self.old) }
    {
        if self.placed.len() == 0 {
            return None;
        }
        let best = self.placed.take_first();
        sink(&self.scores, &mut self.placed, 0, 0);
        Some(best)
    }
}
