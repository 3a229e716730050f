//! The pool as a plain list, against which a test measures the pool.
use lit_pool::{Slot, Which};
use lits::Lit;
use std::alloc::{AllocError, Global};

#[derive(Drop)]
struct Stored {
    lits: Vec<Lit>,
    one: Option<Slot>,
    two: Option<Slot>,
}

/// Entries by their numbers. A number is never handed out again.
#[derive(Drop)]
pub(crate) struct Plain {
    rows: Vec<Option<Stored>>,
    live: u64,
}

impl Plain {
    pub(crate) fn new(alloc: Global) -> Plain {
        Plain {
            rows: Vec::new(alloc),
            live: 0,
        }
    }

    pub(crate) fn count(&self) -> u64 {
        self.live
    }

    pub(crate) fn add(&mut self, lits: &[Lit]) -> Result<usize, AllocError> {
        let alloc = *self.rows.allocator();
        let number = self.rows.len();
        let lits = Vec::from_slice(alloc, lits)?;
        self.rows.push(Some(Stored {
            lits,
            one: None,
            two: None,
        }))?;
        self.live = self.live.saturating_add(1);
        Ok(number)
    }

    pub(crate) fn lits(&self, number: usize) -> &[Lit] {
        if number >= self.rows.len() {
            return &[];
        }
        match &self.rows[number] {
            Some(row) => &row.lits,
            None => &[],
        }
    }

    pub(crate) fn pair(&self, number: usize) -> Option<(Lit, Lit)> {
        let lits = self.lits(number);
        if lits.len() < 2 {
            return None;
        }
        Some((lits[0], lits[1]))
    }

    pub(crate) fn swap(&mut self, number: usize, a: usize, b: usize) {
        if number >= self.rows.len() {
            return;
        }
        let row = &mut self.rows[number];
        if let Some(row) = row {
            if a < row.lits.len() && b < row.lits.len() {
                row.lits.swap(a, b);
            }
        }
    }

    pub(crate) fn link(&self, number: usize, which: Which) -> Option<Slot> {
        if number >= self.rows.len() {
            return None;
        }
        match &self.rows[number] {
            Some(row) => match which {
                Which::One => row.one,
                Which::Two => row.two,
            },
            None => None,
        }
    }

    pub(crate) fn set_link(&mut self, number: usize, which: Which, to: Option<Slot>) {
        if number >= self.rows.len() {
            return;
        }
        let row = &mut self.rows[number];
        if let Some(row) = row {
            match which {
                Which::One => row.one = to,
                Which::Two => row.two = to,
            }
        }
    }

    pub(crate) fn free(&mut self, number: usize) {
        if number < self.rows.len() {
            self.rows[number] = None;
            self.live = self.live.saturating_sub(1);
        }
    }
}
