//! Reading and writing the entry of a piece: its head has four words, the number of places for literals, the number of
//! literals and the two links, and the literals follow. So a visit of an entry finds all of it side by side.
ghost use Rattle.std.specs.Prelude.{◌≡◌, ◌+◌, ◌*◌, ◌-◌, ◌/◌, ◌<◌, ◌≤◌, length, slice_index, slice_set, swap};
ghost use Rattle.lit_pool.specs.Entry.{new_entry, link_of, relinked};
ghost use Rattle.lit_pool.specs.Pieces.{IsWithin, entry_in, len_in, room_in, most_literals, link_of_word, word_of_link, place_of_link};

use crate::words::Words;
use crate::{SLOTS_END, Slot, Which};
use lits::Lit;

/// How many words a unit has.
pub(crate) const UNIT: usize = 8;

/// How many words a head has.
pub(crate) const HEAD: usize = 4;

/// The place of a piece's first word.
#[inline(always)]
fn base(s: Slot) -> usize
    ensures { result ≡ 8 * s }
{
    UNIT * s.number as usize
}

/// The word of a link.
#[inline(always)]
fn word_of(link: Option<Slot>) -> Lit
    ensures word { result ≡ word_of_link link }
    ensures back { link_of_word result ≡ link }
{
    match link {
        Some(s) => Lit::from_code(s.number),
        None => Lit::from_code(SLOTS_END),
    }
}

/// The link that a word says.
#[inline(always)]
fn link_in(word: Lit) -> Option<Slot>
    ensures { result ≡ link_of_word word }
{
    let number = word.code();
    if number < SLOTS_END {
        Some(Slot { number })
    } else {
        None
    }
}

/// The place of a link's word in a head.
#[inline(always)]
fn place_of(which: Which) -> usize
    ensures { result ≡ place_of_link which }
{
    match which {
        Which::One => 2,
        Which::Two => 3,
    }
}

/// How many places for literals a piece has.
#[inline(always)]
pub(crate) fn room(words: &Words, s: Slot) -> usize
    requires { 8 * s + 4 ≤ length words.now }
    ensures room { result ≡ room_in words.now s }
    ensures limit { result ≤ 4294967293 }
{
    words.at(base(s)).code() as usize
}

/// How many units a piece has.
#[inline(always)]
pub(crate) fn units(words: &Words, s: Slot) -> usize
    requires { 8 * s + 4 ≤ length words.now }
    ensures units { result ≡ (room_in words.now s + 4) / 8 }
    ensures limit { result ≤ 536870912 }
{
    (room(words, s) + HEAD) / UNIT
}

/// Says how many units a piece has.
pub(crate) fn set_units(words: &mut Words, s: Slot, units: usize)
    requires within { 8 * s < length words.old }
    requires some { 1 ≤ units }
    requires limit { units ≤ 536870912 }
    ensures { words.new ≡ slice_set words.old (8 * s) (8 * units - 4) }
{
    words.put(base(s), Lit::from_code((UNIT * units - HEAD) as u32));
}

/// How many literals an entry has.
#[inline(always)]
pub(crate) fn len(words: &Words, s: Slot) -> usize
    requires { 8 * s + 4 ≤ length words.now }
    ensures { result ≡ len_in words.now s }
{
    words.at(base(s) + 1).code() as usize
}

/// The literals of an entry.
#[inline(always)]
pub(crate) fn lits(words: &Words, s: Slot) -> &[Lit]
    requires { 8 * s + 4 + len_in words.now s ≤ length words.now }
    ensures { result.now ≡ (entry_in words.now s).lits }
{
    words.part(base(s) + HEAD, len(words, s))
}

/// The literal at a place of an entry's list.
#[inline(always)]
pub(crate) fn at(words: &Words, s: Slot, i: usize) -> Lit
    requires within { 8 * s + 4 + len_in words.now s ≤ length words.now }
    requires place { i < len_in words.now s }
    ensures { result ≡ slice_index (entry_in words.now s).lits i }
{
    words.recall_limit();
    words.at(base(s) + HEAD + i)
}

/// The first two literals of an entry that has so many.
#[inline(always)]
pub(crate) fn pair(words: &Words, s: Slot) -> (Lit, Lit)
    requires within { 8 * s + 4 + len_in words.now s ≤ length words.now }
    requires two { 2 ≤ len_in words.now s }
    ensures { (result.0 ≡ slice_index (entry_in words.now s).lits 0) × (result.1 ≡ slice_index (entry_in words.now s).lits 1) }
{
    let at = base(s) + HEAD;
    (words.at(at), words.at(at + 1))
}

/// One of the links of an entry.
#[inline(always)]
pub(crate) fn link(words: &Words, s: Slot, which: Which) -> Option<Slot>
    requires { 8 * s + 4 ≤ length words.now }
    ensures { result ≡ link_of (entry_in words.now s) which }
{
    link_in(words.at(base(s) + place_of(which)))
}

/// Sets one of the links of an entry.
#[inline(always)]
pub(crate) fn set_link(words: &mut Words, s: Slot, which: Which, to: Option<Slot>)
    requires { 8 * s + 4 ≤ length words.old }
    ensures within { IsWithin s words.old words.new }
    ensures entry { entry_in words.new s ≡ relinked (entry_in words.old s) which to }
{
    words.put(base(s) + place_of(which), word_of(to));
}

/// Exchanges two literals of an entry.
#[inline(always)]
pub(crate) fn swap(words: &mut Words, s: Slot, a: usize, b: usize)
    requires within { 8 * s + 4 + room_in words.old s ≤ length words.old }
    requires fits { len_in words.old s ≤ room_in words.old s }
    requires a_in_bounds { a < len_in words.old s }
    requires b_in_bounds { b < len_in words.old s }
    ensures within { IsWithin s words.old words.new }
    ensures entry { entry_in words.new s ≡ record (entry_in words.old s) { lits = swap (entry_in words.old s).lits a b } }
{
    words.recall_limit();
    let at = base(s) + HEAD;
    let x = words.at(at + a);
    let y = words.at(at + b);
    words.put(at + a, y);
    words.put(at + b, x);
}

/// Makes a piece that of an entry of these literals with no links.
pub(crate) fn fill(words: &mut Words, s: Slot, lits: &[Lit])
    requires within { 8 * s + 4 + room_in words.old s ≤ length words.old }
    requires fits { length lits.now ≤ room_in words.old s }
    requires few { length lits.now ≤ most_literals }
    ensures within { IsWithin s words.old words.new }
    ensures entry { entry_in words.new s ≡ new_entry lits.now }
{
    let at = base(s);
    words.put(at + 1, Lit::from_code(lits.len() as u32));
    words.put(at + 2, Lit::from_code(SLOTS_END));
    words.put(at + 3, Lit::from_code(SLOTS_END));
    let mut i = 0;
    while i < lits.len() {
        words.put(at + HEAD + i, lits[i]);
        i += 1;
    }
}
