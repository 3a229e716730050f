// Bytes that are held back, so that a sink is written to in few calls.
ghost use Rattle.std.specs.Prelude.{◌≡◌, ◌+◌, ◌<◌, ◌≤◌, [], ◌∷◌, ◌++◌, length, decimal, OnOk, OnErr};
ghost use Rattle.line_writing.specs.Held.{Puts};

use crate::writing::digits::digit_count;
use itoa::write_digits;
use outside::{Failed, Sink, put};
use std::marker::Model;

// How many bytes are held back at most.
pub(super) const SIZE: usize = 2_048;

// How many bytes a number takes at most, with the space before it and its sign.
pub(super) const LONGEST: usize = 22;

// Seen as the list of the bytes that are held.
#[derive(Drop)]
pub(super) struct Held {
    bytes: [u8; SIZE],
    len: usize,
}

impl Model for Held {
    ghost use Rattle.std.specs.Prelude.{ℕ, ◌≤◌, List, take};
    ghost use Rattle.line_writing.specs.declared.writing.held.TheConstants.{SIZE};

    ghost Value = { List ℕ };

    ghost view = { λ h. take h.len h.bytes };

    ghost invariant = { λ h. h.len ≤ SIZE };
}

impl Held {
    // Nothing is held.
    pub(super) fn new() -> Held
        ensures { result ≡ [] }
    {
        Held {
            bytes: [0; SIZE],
            len: 0,
        }
    }

    // How many bytes more can be held.
    pub(super) fn free(&self) -> usize
        ensures { result + length self.now ≡ SIZE }
    {
        SIZE - self.len
    }

    // The bytes that are held.
    pub(super) fn as_slice(&self) -> &[u8]
        ensures { result.now ≡ self.now }
    {
        &self.bytes[..self.len]
    }

    // Lets go of all bytes.
    pub(super) fn clear(&mut self)
        ensures { self.new ≡ [] }
    {
        self.len = 0;
    }

    // Holds a byte more.
    pub(super) fn push(&mut self, byte: u8)
        requires { length self.old < SIZE }
        ensures { self.new ≡ self.old ++ byte ∷ [] }
    {
        self.bytes[self.len] = byte;
        self.len += 1;
    }

    // Holds the digits of a number more.
    pub(super) fn push_number(&mut self, n: u64)
        requires { length self.old + 20 ≤ SIZE }
        ensures { self.new ≡ self.old ++ decimal n }
    {
        let end = self.len + digit_count(n);
        let _start = write_digits(n, &mut self.bytes, end);
        self.len = end;
    }
}

// Hands all that is held on to the sink.
pub(super) fn pass_on<K: Sink>(sink: &mut K, held: &mut Held) -> Result<(), Failed>
    ensures puts { Puts K.written K.finished K.faults sink.old sink.new held.old held.new [] result }
    ensures empty { OnOk result (held.new ≡ []) }
{
    put(sink, held.as_slice())?;
    held.clear();
    Ok(())
}

// Sees to it that a number, with the space before it and its sign, can be held.
pub(super) fn make_room<K: Sink>(sink: &mut K, held: &mut Held) -> Result<(), Failed>
    ensures puts { Puts K.written K.finished K.faults sink.old sink.new held.old held.new [] result }
    ensures space { OnOk result (length held.new + LONGEST ≤ SIZE) }
{
    if held.free() < LONGEST {
        pass_on(sink, held)?;
    }
    Ok(())
}
