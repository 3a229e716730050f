//! A growing table of literals side by side in one block of raw memory, as words that their user lays out as it likes.
//! The block is made longer by a new one with the words of the old one at its front.
ghost use Rattle.std.specs.Prelude.{◌≡◌, ◌+◌, ◌-◌, ◌<◌, ◌≤◌, ◌^◌, [], ◌++◌, length, drop, replicate, slice_index, slice_set, IfOk, OnOk, OnErr};
ghost use Rattle.std.specs.List.{slice_range};

use crate::block::{Block, Lease, Room};
use lits::Lit;
use std::alloc::{AllocError, Global};
use std::marker::Model;

// How many words the first block has places for, or more.
const LEAST_ROOM: usize = 1024;

// No block has places for more words. All slots together name fewer.
const MOST_ROOM: usize = 1_099_511_627_775;

/// A block, with the right to give it back.
pub(crate) struct Held {
    pub(crate) block: Block,
    pub(crate) lease: Lease<Global>,
    pub(crate) alloc: Global,
    ghost same: { (lease.alloc ≡ alloc) × (lease.at ≡ block.at) × (lease.len ≡ block.len) },
}

impl Drop for Held {
    fn drop(self) {
        let Held {
            block,
            lease,
            alloc,
        } = self;
        block.free(lease, &alloc);
    }
}

/// Words. Contracts see the list of them.
#[derive(Drop)]
pub(crate) struct Words {
    // The words are the first `used` items. All items after them are the default literal.
    held: Option<Held>,
    used: usize,
    alloc: Global,
}

impl Model for Words {
    ghost use Rattle.std.specs.Prelude.{ℕ, List};
    ghost use Rattle.std.specs.Coded.{coded_list, coded_ℕ};

    ghost Value = { List ℕ };

    ghost coded = { coded_list coded_ℕ };

    ghost use Rattle.lit_pool.specs.Words.{words_of, ArePlaced};

    ghost view = { words_of };

    ghost invariant = { ArePlaced };
}

impl Words {
    ghost use Rattle.lit_pool.specs.Words.{items_of};

    /// No word.
    pub(crate) fn new(alloc: Global) -> Words
        ensures { result ≡ [] }
    {
        Words {
            held: None,
            used: 0,
            alloc,
        }
    }

    /// How many words there are.
    #[inline(always)]
    pub(crate) fn len(&self) -> usize
        ensures { result ≡ length self.now }
    {
        self.used
    }

    /// Recalls that the places are numbers of the machine. It does nothing.
    #[inline(always)]
    pub(crate) fn recall_limit(&self)
        ensures { length self.now < 2 ^ 64 }
    {
        let _used = self.used;
    }

    /// The word at a place.
    #[inline(always)]
    pub(crate) fn at(&self, i: usize) -> Lit
        requires { i < length self.now }
        ensures { result ≡ slice_index self.now i }
    {
        match &self.held {
            Some(held) => held.block.lits()[i],
            None => unreachable!(),
        }
    }

    /// Puts a word at a place.
    #[inline(always)]
    pub(crate) fn put(&mut self, i: usize, x: Lit)
        requires { i < length self.old }
        ensures { self.new ≡ slice_set self.old i x }
    {
        match &mut self.held {
            Some(held) => held.block.put(i, x),
            None => unreachable!(),
        }
    }

    /// So many words from a place on.
    #[inline(always)]
    pub(crate) fn part(&self, from: usize, count: usize) -> &[Lit]
        requires { from + count ≤ length self.now }
        ensures { result.now ≡ slice_range self.now from (from + count) }
    {
        &self.all()[from..from + count]
    }

    /// Whether the block has places for so many words.
    pub(crate) fn has_places(&self, end: usize) -> bool {
        end <= Words::places(&self.held)
    }

    /// Makes the table so long, where it is shorter, by words of the default literal. Where memory is wanting it stays.
    pub(crate) fn extend_to(&mut self, end: usize) -> Result<(), AllocError>
        requires { end < 2 ^ 40 }
        ensures ok { OnOk result (self.new ≡ self.old ++ replicate (end - length self.old) 0) }
        ensures err { OnErr result (self.new ≡ self.old) }
    {
        if end <= self.used {
            return Ok(());
        }
        if end > Words::places(&self.held) {
            self.held = Some(self.longer(end)?);
        }
        self.used = end;
        Ok(())
    }

    /// A block with these words and more places, `end` or more in all.
    #[cold]
    fn longer(&self, end: usize) -> Result<Held, AllocError>
        requires longer { length self.now < end }
        requires limit { end < 2 ^ 40 }
        ensures places { IfOk result (λ held. end ≤ length held.block.items) }
        ensures items { IfOk result (λ held. held.block.items ≡ self.now ++ replicate (length held.block.items - length self.now) 0) }
    {
        let room = end.max(2 * self.used).max(LEAST_ROOM).min(MOST_ROOM);
        filled(self.alloc, room, self.all())
    }

    /// How many places a block has.
    fn places(held: &Option<Held>) -> usize
        ensures places { result ≡ length (items_of held.now) }
        ensures limit { result < 2 ^ 40 }
    {
        match held {
            Some(held) => held.block.lits().len(),
            None => 0,
        }
    }

    /// All words.
    #[inline(always)]
    fn all(&self) -> &[Lit]
        ensures { result.now ≡ self.now }
    {
        match &self.held {
            Some(held) => &held.block.lits()[..self.used],
            None => &[],
        }
    }
}

/// Puts a list at a block's front. What lies behind it stays.
fn write(block: &mut Block, words: &[Lit])
    requires { length words.now ≤ length block.old.items }
    ensures at { (block.new.at ≡ block.old.at) × (block.new.len ≡ block.old.len) }
    ensures items { block.new.items ≡ words.now ++ drop (length words.now) block.old.items }
{
    let mut i = 0;
    while i < words.len() {
        block.put(i, words[i]);
        i += 1;
    }
}

/// A block with places for `room` words, the first of which are given. The others are the default literal.
fn filled(alloc: Global, room: usize, words: &[Lit]) -> Result<Held, AllocError>
    requires long { length words.now ≤ room }
    requires limit { room < 2 ^ 40 }
    ensures { IfOk result (λ h. h.block.items ≡ words.now ++ replicate (room - length words.now) 0) }
{
    match Room::new(&alloc, room) {
        Some((memory, lease)) => {
            let mut held = Held {
                block: memory.filled(Lit::default()),
                lease,
                alloc,
            };
            write(&mut held.block, words);
            Ok(held)
        }
        None => Err(AllocError),
    }
}
