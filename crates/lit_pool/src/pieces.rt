//! The pieces of a pool's words: which units begin one, and what becomes of the entries where a piece is added, taken into use
//! or freed.
ghost use Rattle.std.specs.Prelude.{◌≡◌, ℕ, ◌+◌, ◌*◌, ◌<◌, ◌≤◌, length, IfOk, IsTrue, None, true, false};
ghost use Rattle.std.specs.FinMap as map;
ghost use Rattle.lit_pool.specs.Entry.{new_entry};
ghost use Rattle.lit_pool.specs.Limit.{slots_end};
ghost use Rattle.lit_pool.specs.Pieces.{ArePieces, live_pieces, kind_at, room_in, most_literals};
ghost use Rattle.lit_pool.specs.Pieces as pieces;
ghost use Rattle.lit_pool.specs.declared.kind.Kind.TheVariants.{Freed};

use crate::freed::{Freed as Lists, MOST_UNITS, size_within};
use crate::kind::Kind;
use crate::piece::{self, UNIT};
use crate::words::Words;
use crate::{SLOTS_END, Slot, Which};
use lits::Lit;
use std::alloc::AllocError;

/// What a unit is.
fn kind_of(kinds: &Vec<Kind>, s: Slot) -> Kind
    ensures { result ≡ kind_at kinds.now.items s }
{
    let at = s.number as usize;
    if at < kinds.len() {
        kinds[at]
    } else {
        Kind::Inside
    }
}

/// Whether a piece with an entry begins at a slot.
pub(crate) fn is_live(kinds: &Vec<Kind>, s: Slot) -> bool
    ensures { result ≡ pieces.is_live (kind_at kinds.now.items s) }
{
    match kind_of(kinds, s) {
        Kind::Live => true,
        Kind::Freed => false,
        Kind::Inside => false,
    }
}

/// Whether a piece without an entry begins at a slot that has so many units.
pub(crate) fn has_units(words: &Words, kinds: &Vec<Kind>, s: Slot, units: usize) -> bool
    requires { ArePieces words.now kinds.now.items }
    ensures { IsTrue result → (kind_at kinds.now.items s ≡ Freed) × (8 * units ≤ room_in words.now s + 4) }
{
    match kind_of(kinds, s) {
        Kind::Freed => units <= piece::units(words, s),
        Kind::Live => false,
        Kind::Inside => false,
    }
}

/// Adds a piece of so many units without an entry.
pub(crate) fn append(
    words: &mut Words,
    kinds: &mut Vec<Kind>,
    units: usize,
) -> Result<Slot, AllocError>
    requires pieces { ArePieces words.old kinds.old.items }
    requires some { 1 ≤ units }
    requires limit { units ≤ 536870912 }
    ensures pieces { ArePieces words.new kinds.new.items }
    ensures same { live_pieces words.new kinds.new.items ≡ live_pieces words.old kinds.old.items }
    ensures freed { IfOk result (λ s. kind_at kinds.new.items s ≡ Freed) }
    ensures room { IfOk result (λ s. room_in words.new s + 4 ≡ 8 * units) }
{
    let end = kinds.len();
    if end >= SLOTS_END as usize {
        return Err(AllocError);
    }
    let s = Slot { number: end as u32 };
    words.extend_to(UNIT * (end + units))?;
    kinds.resize(end + units, Kind::Inside)?;
    piece::set_units(words, s, units);
    kinds[end] = Kind::Freed;
    Ok(s)
}

/// Makes the units of a piece without an entry beyond so many another one, and tells where it begins.
fn split(words: &mut Words, kinds: &mut Vec<Kind>, s: Slot, units: usize) -> Slot
    requires pieces { ArePieces words.old kinds.old.items }
    requires freed { kind_at kinds.old.items s ≡ Freed }
    requires some { 1 ≤ units }
    requires more { 8 * units + 8 ≤ room_in words.old s + 4 }
    requires limit { s + units < slots_end }
    ensures place { result ≡ s + units }
    ensures pieces { ArePieces words.new kinds.new.items }
    ensures same { live_pieces words.new kinds.new.items ≡ live_pieces words.old kinds.old.items }
    ensures freed { kind_at kinds.new.items s ≡ Freed }
    ensures rest { kind_at kinds.new.items result ≡ Freed }
    ensures room { room_in words.new s + 4 ≡ 8 * units }
{
    let whole = piece::units(words, s);
    let rest = Slot {
        number: s.number + units as u32,
    };
    piece::set_units(words, s, units);
    piece::set_units(words, rest, whole - units);
    kinds[rest.number as usize] = Kind::Freed;
    rest
}

/// Sets the first link of a piece without an entry, which the lists of freed pieces use.
fn chain(words: &mut Words, kinds: &Vec<Kind>, s: Slot, next: Option<Slot>)
    requires pieces { ArePieces words.old kinds.now.items }
    requires freed { kind_at kinds.now.items s ≡ Freed }
    ensures pieces { ArePieces words.new kinds.now.items }
    ensures same { live_pieces words.new kinds.now.items ≡ live_pieces words.old kinds.now.items }
    ensures rooms { (q : ℕ) → kind_at kinds.now.items q ≡ Freed → room_in words.new q ≡ room_in words.old q }
{
    piece::set_link(words, s, Which::One, next);
}

/// Leaves a piece without an entry so many units. What it has beyond becomes another one, which is listed as freed.
pub(crate) fn trim(
    words: &mut Words,
    kinds: &mut Vec<Kind>,
    freed: &mut Lists,
    s: Slot,
    units: usize,
)
    requires pieces { ArePieces words.old kinds.old.items }
    requires freed { kind_at kinds.old.items s ≡ Freed }
    requires some { 1 ≤ units }
    requires room { 8 * units ≤ room_in words.old s + 4 }
    ensures pieces { ArePieces words.new kinds.new.items }
    ensures same { live_pieces words.new kinds.new.items ≡ live_pieces words.old kinds.old.items }
    ensures freed { kind_at kinds.new.items s ≡ Freed }
    ensures room { 8 * units ≤ room_in words.new s + 4 }
{
    let whole = piece::units(words, s);
    if whole > units && s.number as usize + units < SLOTS_END as usize {
        let size = size_within(whole - units);
        let rest = split(words, kinds, s, units);
        chain(words, kinds, rest, freed.last(size));
        freed.set_last(size, Some(rest));
    }
}

/// Joins a piece without an entry with the one that follows it, if that has none either. Tells whether it did.
fn join_next(words: &mut Words, kinds: &mut Vec<Kind>, s: Slot) -> bool
    requires pieces { ArePieces words.old kinds.old.items }
    requires freed { kind_at kinds.old.items s ≡ Freed }
    ensures pieces { ArePieces words.new kinds.new.items }
    ensures same { live_pieces words.new kinds.new.items ≡ live_pieces words.old kinds.old.items }
    ensures freed { kind_at kinds.new.items s ≡ Freed }
    ensures more { IsTrue result → room_in words.old s < room_in words.new s }
{
    let units = piece::units(words, s);
    let next = s.number as usize + units;
    if units == 0 || next >= SLOTS_END as usize {
        return false;
    }
    let next = Slot {
        number: next as u32,
    };
    if !has_units(words, kinds, next, 1) {
        return false;
    }
    let both = units + piece::units(words, next);
    if both > MOST_UNITS {
        return false;
    }
    piece::set_units(words, s, both);
    kinds[next.number as usize] = Kind::Inside;
    true
}

/// Joins a piece without an entry with all that follow it up to the next entry.
fn join_from(words: &mut Words, kinds: &mut Vec<Kind>, s: Slot)
    requires pieces { ArePieces words.old kinds.old.items }
    requires freed { kind_at kinds.old.items s ≡ Freed }
    ensures pieces { ArePieces words.new kinds.new.items }
    ensures same { live_pieces words.new kinds.new.items ≡ live_pieces words.old kinds.old.items }
    ensures freed { kind_at kinds.new.items s ≡ Freed }
{
    for _ in 0..kinds.len() {
        if !join_next(words, kinds, s) {
            return;
        }
    }
}

/// Lists a piece without an entry as freed, with the units of those that follow it.
fn gather(words: &mut Words, kinds: &mut Vec<Kind>, freed: &mut Lists, s: Slot)
    requires pieces { ArePieces words.old kinds.old.items }
    requires freed { kind_at kinds.old.items s ≡ Freed }
    ensures pieces { ArePieces words.new kinds.new.items }
    ensures same { live_pieces words.new kinds.new.items ≡ live_pieces words.old kinds.old.items }
{
    join_from(words, kinds, s);
    let size = size_within(piece::units(words, s));
    chain(words, kinds, s, freed.last(size));
    freed.set_last(size, Some(s));
}

/// Joins pieces without an entry that lie side by side, and lists those that there are then.
pub(crate) fn join_all(words: &mut Words, kinds: &mut Vec<Kind>, freed: &mut Lists)
    requires pieces { ArePieces words.old kinds.old.items }
    ensures pieces { ArePieces words.new kinds.new.items }
    ensures same { live_pieces words.new kinds.new.items ≡ live_pieces words.old kinds.old.items }
{
    *freed = Lists::new();
    for at in 0..kinds.len().min(SLOTS_END as usize) {
        let s = Slot { number: at as u32 };
        if has_units(words, kinds, s, 0) {
            gather(words, kinds, freed, s);
        }
    }
}

/// Puts an entry of these literals with no links into a piece without one.
pub(crate) fn occupy(words: &mut Words, kinds: &mut Vec<Kind>, s: Slot, lits: &[Lit])
    requires pieces { ArePieces words.old kinds.old.items }
    requires freed { kind_at kinds.old.items s ≡ Freed }
    requires room { length lits.now ≤ room_in words.old s }
    requires few { length lits.now ≤ most_literals }
    ensures pieces { ArePieces words.new kinds.new.items }
    ensures fresh { map.get (live_pieces words.old kinds.old.items) s ≡ None }
    ensures filled { live_pieces words.new kinds.new.items ≡ map.insert (live_pieces words.old kinds.old.items) s (new_entry lits.now) }
{
    piece::fill(words, s, lits);
    kinds[s.number as usize] = Kind::Live;
}

/// Takes the entry out of a piece. The first link is what is given, which the lists of freed pieces use.
pub(crate) fn vacate(words: &mut Words, kinds: &mut Vec<Kind>, s: Slot, next: Option<Slot>)
    requires pieces { ArePieces words.old kinds.old.items }
    requires live { pieces.is_live (kind_at kinds.old.items s) ≡ true }
    ensures pieces { ArePieces words.new kinds.new.items }
    ensures cleared { live_pieces words.new kinds.new.items ≡ map.remove (live_pieces words.old kinds.old.items) s }
{
    kinds[s.number as usize] = Kind::Freed;
    piece::set_link(words, s, Which::One, next);
}
