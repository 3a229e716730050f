// A list of distinct variables that knows the place of each, so that a heap finds a variable without a search.
ghost use Rattle.std.specs.Prelude.{◌≡◌, ℕ, ◌||◌, nat_eq, ◌+◌, ◌<◌, ◌≤◌, ◌++◌, ◌∷◌, [], length, max, slice_index, swap, false, IfSome, IfNone, OnOk, OnErr};
ghost use Rattle.decide_order.specs.Placed.{has};

use lits::MAX_VAR;
use std::alloc::{AllocError, Global};
use std::marker::Model;

/// Distinct variables in a row. Contracts see the greatest variable that may be put in, and the list.
#[derive(Drop)]
pub struct PlacedList {
    // the list, and behind it free rows, one for each other variable
    rows: Vec<u32>,
    // for each variable from 1 on its place plus one, or 0
    places: Vec<u32>,
    count: usize,
}

impl Model for PlacedList {
    ghost use Rattle.std.specs.Prelude.{take, length};
    ghost use Rattle.lits.specs.Literal.{max_var};
    ghost use Rattle.decide_order.specs.Placed.{Placed, IsPlaced};

    ghost Value = { Placed };

    ghost view = { λ p. record { reserved = length p.places.items; items = take p.count p.rows.items } };

    ghost invariant = { λ p. IsPlaced p.rows.items p.places.items p.count max_var };
}

impl PlacedList {
    /// The empty list, in which no variable may be put.
    pub fn new(alloc: Global) -> PlacedList
        ensures reserved { result.reserved ≡ 0 }
        ensures items { result.items ≡ [] }
    {
        PlacedList {
            rows: Vec::new(alloc),
            places: Vec::new(alloc),
            count: 0,
        }
    }

    /// Makes room for the variables up to this one.
    pub fn reserve(&mut self, vars: u32) -> Result<(), AllocError>
        requires more { self.old.reserved ≤ vars }
        requires limit { vars ≤ MAX_VAR }
        ensures ok { OnOk result (self.new.reserved ≡ vars) }
        ensures items { self.new.items ≡ self.old.items }
        ensures err { OnErr result (self.new ≡ self.old) }
    {
        let before = self.rows.len();
        self.rows.resize(vars as usize, 0)?;
        match self.places.resize(vars as usize, 0) {
            Ok(()) => Ok(()),
            Err(e) => {
                self.rows.truncate(before);
                Err(e)
            }
        }
    }

    /// How many variables the list has.
    pub fn len(&self) -> usize
        ensures len { result ≡ length self.now.items }
        ensures room { result ≤ self.now.reserved }
        ensures limit { self.now.reserved ≤ MAX_VAR }
        ensures positive { (j : ℕ) → j < length self.now.items → 0 < slice_index self.now.items j }
    {
        self.count
    }

    /// The variable at a place.
    pub fn at(&self, place: usize) -> u32
        requires { place < length self.now.items }
        ensures value { result ≡ slice_index self.now.items place }
        ensures positive { 0 < result }
        ensures reserved { result ≤ self.now.reserved }
    {
        self.rows[place]
    }

    /// Whether the list has a variable.
    pub fn has(&self, var: u32) -> bool
        requires positive { 0 < var }
        requires reserved { var ≤ self.now.reserved }
        ensures { result ≡ has self.now.items var }
    {
        if self.places[(var - 1) as usize] == 0 {
            return false;
        }
        true
    }

    /// The place of a variable, where the list has it.
    pub fn place_of(&self, var: u32) -> Option<usize>
        requires positive { 0 < var }
        requires reserved { var ≤ self.now.reserved }
        ensures within { IfSome result (λ i. i < length self.now.items) }
        ensures at { IfSome result (λ i. slice_index self.now.items i ≡ var) }
        ensures alone { IfSome result (λ i. (j : ℕ) → j < length self.now.items → slice_index self.now.items j ≡ var → j ≡ i) }
        ensures none { IfNone result (has self.now.items var ≡ false) }
        ensures variables { (j : ℕ) → j < length self.now.items → 0 < slice_index self.now.items j }
    {
        let place = self.places[(var - 1) as usize];
        if place == 0 {
            return None;
        }
        Some((place - 1) as usize)
    }

    /// Adds a variable at the end.
    pub fn push(&mut self, var: u32)
        requires positive { 0 < var }
        requires reserved { var ≤ self.old.reserved }
        requires new { has self.old.items var ≡ false }
        ensures items { self.new.items ≡ self.old.items ++ var ∷ [] }
        ensures reserved { self.new.reserved ≡ self.old.reserved }
    {
        self.rows[self.count] = var;
        self.count += 1;
        self.places[(var - 1) as usize] = self.count as u32;
    }

    /// Takes off the last variable.
    pub fn pop(&mut self) -> u32
        requires { 0 < length self.old.items }
        ensures items { self.old.items ≡ self.new.items ++ result ∷ [] }
        ensures gone { has self.new.items result ≡ false }
        ensures positive { 0 < result }
        ensures within { result ≤ self.old.reserved }
        ensures reserved { self.new.reserved ≡ self.old.reserved }
    {
        self.count -= 1;
        let var = self.rows[self.count];
        self.places[(var - 1) as usize] = 0;
        var
    }

    /// Takes out the first variable; the last one takes its place.
    pub fn take_first(&mut self) -> u32
        requires { 0 < length self.old.items }
        ensures first { result ≡ slice_index self.old.items 0 }
        ensures positive { 0 < result }
        ensures within { result ≤ self.old.reserved }
        ensures count { length self.old.items ≡ length self.new.items + 1 }
        ensures rest { (j : ℕ) → 0 < j → j < length self.new.items → slice_index self.new.items j ≡ slice_index self.old.items j }
        ensures same { (v : ℕ) → has self.old.items v ≡ (has self.new.items v || nat_eq result v) }
        ensures gone { has self.new.items result ≡ false }
        ensures reserved { self.new.reserved ≡ self.old.reserved }
    {
        let last = self.len() - 1;
        if last > 0 {
            self.swap(0, last);
        }
        self.pop()
    }

    /// Exchanges the variables at two places.
    pub fn swap(&mut self, low: usize, high: usize)
        requires order { low < high }
        requires within { high < length self.old.items }
        ensures items { self.new.items ≡ swap self.old.items low high }
        ensures reserved { self.new.reserved ≡ self.old.reserved }
    {
        let first = self.rows[low];
        let second = self.rows[high];
        self.rows[low] = second;
        self.rows[high] = first;
        self.places[(second - 1) as usize] = (low + 1) as u32;
        self.places[(first - 1) as usize] = (high + 1) as u32;
    }
}
