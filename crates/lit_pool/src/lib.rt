//! Lists of literals with two links each, named by slots. A clause store keeps its clauses in one pool. The links are for lists
//! of entries that callers thread through them; the pool threads its freed pieces so. Contracts see a finite map from each
//! live slot to its entry, so each call says in one equation what becomes of one entry and that all others stay.
//!
//! All entries lie in one table of words, as the clauses of MiniSat do (N. Eén and N. Sörensson, version 2.2, 2010), and a slot
//! of 32 bits says where its entry begins there. So a visit of a clause reads its length, its links and its first literals in
//! one line of the processor's cache. With a vector of its own for each clause, a name would take twice the bits, a short
//! clause twice the memory, and each visit would wait for memory twice.
//!
//! An entry never moves while it is live, so its slot stays its name. What is freed is a piece of the table, and serves later
//! entries: pieces are listed by their sizes, one of a greater size is split where none of the due size is free, and pieces
//! that lie side by side are joined before the table would grow (a survey of such schemes is P. R. Wilson's and others', 1995).
//! Without the sizes an entry would look for its piece; without the splitting and joining, a pool that lost most of its entries
//! would take new memory for those of other lengths.
#![tactic(auto)]

ghost use Rattle.std.specs.Prelude.{◌≡◌, ◌+◌, ◌*◌, ◌^◌, ◌<◌, ◌≤◌, [], ◌∷◌, length, swap, slice_index, IfOk, IfSome, IfNone, OnErr, IsTrue, ◌↔◌, Some, None, true, false};
ghost use Rattle.std.specs.FinMap as map;
ghost use Rattle.lit_pool.specs.Entry.{IsLive, lits_at, link_at, new_entry, with_swap, with_link};
ghost use Rattle.lit_pool.specs.Limit.{slots_end};
ghost use Rattle.lit_pool.specs.Pieces.{most_literals};

mod block;
mod freed;
mod kind;
mod piece;
mod pieces;
mod words;

use crate::freed::{Freed, Size, size_for, size_within};
use crate::kind::Kind;
use crate::piece::UNIT;
use crate::words::Words;
use lits::Lit;
use std::alloc::{AllocError, Global};
use std::marker::Model;

/// The name of an entry: a number, which may name another entry once this one is freed.
#[derive(Clone, Copy, PartialEq, Eq, Debug)]
pub struct Slot {
    number: u32,
}

impl Model for Slot {
    ghost use Rattle.std.specs.Prelude.{ℕ, ◌<◌};
    ghost use Rattle.lit_pool.specs.Limit.{slots_end};

    ghost Value = { ℕ };

    ghost view = { λ s. s.number };

    ghost invariant = { λ s. s.number < slots_end };

    ghost inverse = { λ n. record { number = n } };
}

/// Each slot is below this number, which as a link's word stands for no slot. It is the greatest code of a literal, since
/// links are words of the pool, and those are literals. A slot counts units of 32 bytes, so this many are 137 GB.
const SLOTS_END: u32 = 4_294_967_293;

/// No entry has more literals: a word that tells their number is the code of a literal. So many take 16 GiB.
const MOST_LITERALS: usize = 4_294_967_292;

impl Slot {
    /// The slot as a number.
    #[inline(always)]
    pub fn number(self) -> u64
        ensures { result ≡ self }
    {
        self.number as u64
    }

    /// The slot of this number, which may be that of no entry. For those who keep slots as numbers of their own.
    #[inline(always)]
    pub fn from_number(number: u32) -> Slot
        requires { number < slots_end }
        ensures { result ≡ number }
    {
        Slot { number }
    }
}

/// One of an entry's two links.
#[derive(Clone, Copy, PartialEq, Eq, Debug)]
pub enum Which {
    One,
    Two,
}

/// The entries. Contracts see the map from each live slot to its entry.
#[derive(Drop)]
pub struct Pool {
    words: Words,
    kinds: Vec<Kind>,
    freed: Freed,
    // how many units were freed since pieces were joined
    loose: usize,
    live: u64,
}

impl Model for Pool {
    ghost use Rattle.std.specs.Ordering.{nat_cmp};
    ghost use Rattle.std.specs.FinMap as map;
    ghost use Rattle.std.specs.Coded.{coded_ℕ};
    ghost use Rattle.lit_pool.specs.Entry.{Entry, entry_code};

    ghost Value = { map.FinMap nat_cmp Entry };

    ghost coded = { map.code coded_ℕ entry_code };

    ghost use Rattle.lit_pool.specs.Pieces.{live_pieces, IsPool};

    ghost view = { λ p. live_pieces p.words p.kinds.items };

    ghost invariant = { λ p. IsPool p.words p.kinds.items p.live };
}

impl Pool {
    /// A pool with no entry.
    pub fn new(alloc: Global) -> Pool
        ensures { result ≡ map.empty }
    {
        Pool {
            words: Words::new(alloc),
            kinds: Vec::new(alloc),
            freed: Freed::new(),
            loose: 0,
            live: 0,
        }
    }

    /// How many entries are live.
    pub fn count(&self) -> u64
        ensures { result ≡ map.len self.now }
    {
        self.live
    }

    /// Whether a slot is that of a live entry.
    pub fn is_live(&self, s: Slot) -> bool
        ensures { IsTrue result ↔ IsLive self.now s }
    {
        pieces::is_live(&self.kinds, s)
    }

    /// Adds an entry of these literals, in their order, with no links, at a slot that wasn't live. Where memory is
    /// wanting the pool stays as it was.
    pub fn add(&mut self, lits: &[Lit]) -> Result<Slot, AllocError>
        ensures fresh { IfOk result (λ s. map.get self.old s ≡ None) }
        ensures ok { IfOk result (λ s. self.new ≡ map.insert self.old s (new_entry lits.now)) }
        ensures err { OnErr result (self.new ≡ self.old) }
    {
        if lits.len() > MOST_LITERALS {
            return Err(AllocError);
        }
        let size = size_for(lits.len());
        if let Some(s) = self.reuse(size, lits) {
            return Ok(s);
        }
        if self.is_worth_joining(size.units) {
            self.join();
            if let Some(s) = self.reuse(size, lits) {
                return Ok(s);
            }
        }
        self.push(size.units, lits)
    }

    /// The literals of a live entry in their order.
    #[inline(always)]
    pub fn lits(&self, s: Slot) -> &[Lit]
        requires live { IsLive self.now s }
        ensures { result.now ≡ lits_at self.now s }
    {
        piece::lits(&self.words, s)
    }

    /// The literal at a place of a live entry's list, counted from 0.
    #[inline(always)]
    pub fn at(&self, s: Slot, i: usize) -> Lit
        requires live { IsLive self.now s }
        requires within { i < length (lits_at self.now s) }
        ensures { result ≡ slice_index (lits_at self.now s) i }
    {
        piece::at(&self.words, s, i)
    }

    /// The first two literals of a live entry, which has two or more.
    #[inline(always)]
    pub fn pair(&self, s: Slot) -> (Lit, Lit)
        requires live { IsLive self.now s }
        requires two { 2 ≤ length (lits_at self.now s) }
        ensures { (result.0 ≡ slice_index (lits_at self.now s) 0) × (result.1 ≡ slice_index (lits_at self.now s) 1) }
    {
        piece::pair(&self.words, s)
    }

    /// Exchanges two places of a live entry's list, counted from 0. All else stays.
    #[inline(always)]
    pub fn swap(&mut self, s: Slot, a: usize, b: usize)
        requires live { IsLive self.old s }
        requires a_in_bounds { a < length (lits_at self.old s) }
        requires b_in_bounds { b < length (lits_at self.old s) }
        ensures { self.new ≡ with_swap self.old s a b }
    {
        piece::swap(&mut self.words, s, a, b);
    }

    /// One of a live entry's links.
    #[inline(always)]
    pub fn link(&self, s: Slot, which: Which) -> Option<Slot>
        requires live { IsLive self.now s }
        ensures { result ≡ link_at self.now s which }
    {
        piece::link(&self.words, s, which)
    }

    /// Sets one of a live entry's links, to any slot or to none. All else stays.
    #[inline(always)]
    pub fn set_link(&mut self, s: Slot, which: Which, to: Option<Slot>)
        requires live { IsLive self.old s }
        ensures { self.new ≡ with_link self.old s which to }
    {
        piece::set_link(&mut self.words, s, which, to);
    }

    /// Takes a live entry out. Its slot may be handed out again.
    pub fn free(&mut self, s: Slot)
        requires live { IsLive self.old s }
        ensures { self.new ≡ map.remove self.old s }
    {
        let units = piece::units(&self.words, s);
        let size = size_within(units);
        pieces::vacate(&mut self.words, &mut self.kinds, s, self.freed.last(size));
        self.freed.set_last(size, Some(s));
        self.loose = self.loose.saturating_add(units);
        self.live -= 1;
    }

    /// Whether the words would be moved for so many units more, and half of the units were freed since pieces were joined. So
    /// the joining takes no more time than the frees before it did.
    fn is_worth_joining(&self, units: usize) -> bool {
        let count = self.kinds.len();
        let end = count.saturating_add(units).saturating_mul(UNIT);
        self.loose >= count / 2 && !self.words.has_places(end)
    }

    /// Joins the freed pieces that lie side by side.
    fn join(&mut self)
        ensures { self.new ≡ self.old }
    {
        pieces::join_all(&mut self.words, &mut self.kinds, &mut self.freed);
        self.loose = 0;
    }

    /// Puts an entry into a freed piece: the one that was freed last among those of this size, or of the next greater size
    /// that has one, whose units beyond the size become a freed piece of their own. There may be none.
    fn reuse(&mut self, size: Size, lits: &[Lit]) -> Option<Slot>
        requires few { length lits.now ≤ most_literals }
        requires room { length lits.now + 4 ≤ 8 * size.units }
        ensures fresh { IfSome result (λ s. map.get self.old s ≡ None) }
        ensures some { IfSome result (λ s. self.new ≡ map.insert self.old s (new_entry lits.now)) }
        ensures none { IfNone result (self.new ≡ self.old) }
    {
        let from = self.freed.size_from(size.number);
        let Some(s) = self.freed.last(from) else {
            return None;
        };
        if !pieces::has_units(&self.words, &self.kinds, s, size.units) {
            return None;
        }
        let next = piece::link(&self.words, s, Which::One);
        self.freed.set_last(from, next);
        pieces::trim(
            &mut self.words,
            &mut self.kinds,
            &mut self.freed,
            s,
            size.units,
        );
        pieces::occupy(&mut self.words, &mut self.kinds, s, lits);
        self.live += 1;
        Some(s)
    }

    /// Puts an entry into a new piece of so many units behind the others.
    fn push(&mut self, units: usize, lits: &[Lit]) -> Result<Slot, AllocError>
        requires few { length lits.now ≤ most_literals }
        requires room { length lits.now + 4 ≤ 8 * units }
        requires limit { units ≤ 536870912 }
        ensures fresh { IfOk result (λ s. map.get self.old s ≡ None) }
        ensures ok { IfOk result (λ s. self.new ≡ map.insert self.old s (new_entry lits.now)) }
        ensures err { OnErr result (self.new ≡ self.old) }
    {
        let s = pieces::append(&mut self.words, &mut self.kinds, units)?;
        pieces::occupy(&mut self.words, &mut self.kinds, s, lits);
        self.live += 1;
        Ok(s)
    }
}
