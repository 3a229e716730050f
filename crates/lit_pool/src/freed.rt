//! The sizes of pieces, and the pieces that were freed. Those of one size are listed one after another: the first link of
//! each is the one that was freed before it. The pool tests each piece that a list gives, so nothing need be known of the
//! lists.
//!
//! A size is a number of units: 1, 2, 3 and so on up to 8, and then twice as many each time. A new piece has the units of its
//! size. What is left of a piece that was split may have more, and is listed with the greatest size that isn't above.
ghost use Rattle.std.specs.Prelude.{◌+◌, ◌*◌, ◌≤◌, ◌<◌};
ghost use Rattle.lit_pool.specs.Pieces.{most_literals};

use crate::Slot;

// How many sizes there are; the greatest is that of the longest list.
const SIZES: usize = 34;

/// The greatest number of units of a piece.
pub(crate) const MOST_UNITS: usize = 536_870_912;

/// A size of pieces, and how many units it has.
#[derive(Clone, Copy)]
pub(crate) struct Size {
    pub(crate) number: usize,
    pub(crate) units: usize,
}

/// The piece that was freed last, for each size.
#[derive(Drop)]
pub(crate) struct Freed {
    last: [Option<Slot>; SIZES],
    // the bit of each size that has such a piece
    some: u64,
}

impl Freed {
    pub(crate) fn new() -> Freed {
        Freed {
            last: [None; SIZES],
            some: 0,
        }
    }

    /// The least size from this one on of which a piece is free, or a number that is none's.
    pub(crate) fn size_from(&self, size: usize) -> usize {
        if size >= SIZES {
            return SIZES;
        }
        size + (self.some >> size).trailing_zeros() as usize
    }

    /// The piece of this size that was freed last.
    pub(crate) fn last(&self, size: usize) -> Option<Slot> {
        if size < SIZES { self.last[size] } else { None }
    }

    /// Puts a piece in place of the one of this size that was freed last.
    pub(crate) fn set_last(&mut self, size: usize, to: Option<Slot>) {
        if size < SIZES {
            self.last[size] = to;
            let bit = 1 << size;
            self.some = if to.is_some() {
                self.some | bit
            } else {
                self.some & !bit
            };
        }
    }
}

/// The least size of a piece that has places for so many literals behind its head.
pub(crate) fn size_for(count: usize) -> Size
    requires { count ≤ most_literals }
    ensures room { count + 4 ≤ 8 * result.units }
    ensures limit { result.units ≤ 536870912 }
{
    let least = count / 8 + if count % 8 > 4 { 2 } else { 1 };
    if least <= 8 {
        return Size {
            number: least - 1,
            units: least,
        };
    }
    let mut number = 8;
    let mut units = 16;
    while units < least {
        units = (2 * units).min(MOST_UNITS);
        number += 1;
    }
    Size { number, units }
}

/// The greatest size that has no more units than these.
pub(crate) fn size_within(units: usize) -> usize {
    if units <= 8 {
        return units.saturating_sub(1);
    }
    let mut number = 7;
    let mut left = units / 16;
    while left > 0 && number < SIZES {
        left /= 2;
        number += 1;
    }
    number
}
