// A source over pieces in memory, some of whose calls fail: it stands for any way in which a file's bytes may come.
ghost use Rattle.std.specs.Prelude.{◌≡◌, ◌<◌, ◌≤◌, [], min, length, map, take, drop};
ghost use Rattle.std.specs.Io.{ReadsAtMost};
ghost use Rattle.std.specs.Io.KnownBytes.{ReadConsumes};
ghost use Rattle.std.specs.List.{concat};
ghost use Rattle.outside.specs.Faults.{HasCause};
ghost use Rattle.outside.specs.Memory.{first_piece, taken_off, without_empty, left_from};

use crate::calls::counts_as_failing;
use crate::{Failed, Source};
use std::marker::Model;

/// Gives the bytes of its pieces, one piece after the other. A call gives at most the rest of the first piece that
/// isn't used up. The calls with the numbers in `failing`, counted from 1, fail and give nothing.
#[derive(Drop)]
pub struct MemorySource {
    pieces: Vec<Vec<u8>>,
    next: usize,
    used: usize,
    failing: Vec<u64>,
    calls: u64,
    faults: u64,
}

impl Model for MemorySource {
    ghost use Rattle.std.specs.Prelude.{◌≤◌, length, drop};
    ghost use Rattle.outside.specs.Memory.{SourceState, left_from};

    ghost Value = { SourceState };

    ghost view = { λ s. record { pieces = left_from s.used (drop s.next s.pieces.items); failing = s.failing.items; calls = s.calls; faults = s.faults } };

    ghost invariant = { λ s. s.next ≤ length s.pieces.items };
}

impl MemorySource {
    /// A source of the pieces joined. An empty piece is passed over, and the numbers may stand in any order.
    pub fn new(pieces: Vec<Vec<u8>>, failing: Vec<u64>) -> MemorySource
        ensures state { result ≡ record { pieces = without_empty (map (λ piece. piece.items) pieces.items); failing = failing.items; calls = 0; faults = 0 } }
        ensures bytes { concat result.pieces ≡ concat (map (λ piece. piece.items) pieces.items) }
    {
        MemorySource {
            pieces,
            next: 0,
            used: 0,
            failing,
            calls: 0,
            faults: 0,
        }
    }
}

// Goes to the next piece that isn't used up, and copies from it what `buf` has room for.
fn copy_piece(pieces: &[Vec<u8>], next: &mut usize, used: &mut usize, buf: &mut [u8]) -> usize
    requires { next.old ≤ length pieces.now }
    ensures next { next.new ≤ length pieces.now }
    ensures count { result ≡ min (length (first_piece (left_from used.old (drop next.old pieces.now)))) (length buf.old) }
    ensures copied { take result buf.new ≡ take result (first_piece (left_from used.old (drop next.old pieces.now))) }
    ensures pieces { left_from used.new (drop next.new pieces.now) ≡ taken_off result (left_from used.old (drop next.old pieces.now)) }
    ensures end { result ≡ 0 → 0 < length buf.old → left_from used.new (drop next.new pieces.now) ≡ [] }
{
    while *next < pieces.len() {
        let piece = pieces[*next].as_slice();
        if *used < piece.len() {
            let unused = &piece[*used..];
            let count = unused.len().min(buf.len());
            buf[..count].copy_from_slice(&unused[..count]);
            *used += count;
            return count;
        }
        *next += 1;
        *used = 0;
    }
    0
}

impl Source for MemorySource {
    ghost use Rattle.std.specs.Prelude.{Some};
    ghost use Rattle.std.specs.List.{concat};
    ghost use Rattle.outside.specs.Memory.{Gave};

    ghost left = { λ s. Some (concat s.pieces) };

    ghost faults = { λ s. s.faults };

    fn read(&mut self, buf: &mut [u8]) -> Result<usize, Failed>
        ensures bound { ReadsAtMost result buf.new }
        ensures bytes { ReadConsumes (Some (concat self.old.pieces)) (Some (concat self.new.pieces)) result buf.new }
        ensures cause { HasCause self.old.faults self.new.faults result }

        // Which outcome comes, and all that the call leaves.
        ensures outcome { Gave self.old self.new buf.new result }
    {
        if counts_as_failing(&self.failing, &mut self.calls) {
            self.faults = self.faults.saturating_add(1);
            return Err(Failed);
        }
        Ok(copy_piece(&self.pieces, &mut self.next, &mut self.used, buf))
    }
}
