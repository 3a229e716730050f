// A sink in memory, some of whose calls fail and that takes a bounded part of each piece: it stands for any way in
// which a file may take what is written.
ghost use Rattle.std.specs.Prelude.{◌≡◌, ◌≤◌, ◌<◌, ◌-◌, ℕ, max, min, true, false, List, [], ◌++◌, length, take, Bool, IfOk, OnOk, OnErr, if◌then◌else◌, ◌==◌};
ghost use Rattle.std.specs.Io.{WritesAtMost};
ghost use Rattle.std.specs.Io.KnownBytes.{Keeps, WriteAppends};
ghost use Rattle.outside.specs.Faults.{HasCause};
ghost use Rattle.outside.specs.Streams.{Becomes};
ghost use Rattle.outside.specs.Memory.{Wrote, Finished};

use crate::calls::counts_as_failing;
use crate::{Failed, Sink};
use std::alloc::{AllocError, Global};
use std::marker::Model;

/// Holds what was written to it. A write takes at most `most` bytes. The calls of `write` and `finish` are counted
/// together from 1, and those with the numbers in `failing` fail. A write that is to take more than the room that was
/// reserved may fail for want of memory; such a failure is counted twice, as a fault and as a fault of memory.
#[derive(Drop)]
pub struct MemorySink {
    bytes: Vec<u8>,
    finished: bool,
    spare: usize,
    most: usize,
    failing: Vec<u64>,
    calls: u64,
    faults: u64,
    memory_faults: u64,
}

impl Model for MemorySink {
    ghost use Rattle.std.specs.Prelude.{◌≤◌, ◌+◌, vec_len, vec_capacity};
    ghost use Rattle.outside.specs.Memory.{SinkState};

    ghost Value = { SinkState };

    ghost view = { λ s. record { written = s.bytes.items; finished = s.finished; spare = s.spare; most = s.most; failing = s.failing.items; calls = s.calls; faults = s.faults; memory_faults = s.memory_faults } };

    ghost invariant = { λ s. (vec_len s.bytes + s.spare ≤ vec_capacity s.bytes) × (1 ≤ s.most) };
}

impl MemorySink {
    /// An empty sink without reserved room, not finished. `most` is at least 1; the numbers may stand in any order.
    pub fn new(alloc: Global, most: usize, failing: Vec<u64>) -> MemorySink
        requires { 1 ≤ most }
        ensures { result ≡ record { written = []; finished = false; spare = 0; most = most; failing = failing.items; calls = 0; faults = 0; memory_faults = 0 } }
    {
        MemorySink {
            bytes: Vec::new(alloc),
            finished: false,
            spare: 0,
            most,
            failing,
            calls: 0,
            faults: 0,
            memory_faults: 0,
        }
    }

    /// Makes room, so that writes of so many bytes together ask for no memory. What was reserved before counts.
    ///
    /// # Errors
    ///
    /// Want of memory leaves the sink as it was.
    pub fn reserve(&mut self, bytes: usize) -> Result<(), AllocError>
        ensures ok { OnOk result (self.new ≡ record self.old { spare = max self.old.spare bytes }) }
        ensures err { OnErr result (self.new ≡ self.old) }
    {
        self.bytes.reserve(bytes)?;
        self.spare = self.spare.max(bytes);
        Ok(())
    }

    /// What was written, whatever failed since.
    pub fn bytes(&self) -> &[u8]
        ensures { result.now ≡ self.now.written }
    {
        self.bytes.as_slice()
    }

    /// How often a write failed for want of memory.
    pub fn memory_faults(&self) -> u64
        ensures { result ≡ self.now.memory_faults }
    {
        self.memory_faults
    }
}

impl Sink for MemorySink {
    ghost use Rattle.std.specs.Prelude.{Some};

    ghost written = { λ s. Some s.written };

    ghost finished = { λ s. Some s.finished };

    ghost faults = { λ s. s.faults };

    fn write(&mut self, piece: &[u8]) -> Result<usize, Failed>
        ensures bound { WritesAtMost result piece.now }
        ensures progress { IfOk result (λ n. 0 < length piece.now → 1 ≤ n) }
        ensures bytes { WriteAppends (Some self.old.written) (Some self.new.written) result piece.now }
        ensures reopened { IfOk result (λ n. 1 ≤ n → Becomes (Some self.old.finished) (Some self.new.finished) false) }
        ensures cause { HasCause self.old.faults self.new.faults result }

        // Which outcome comes, and all that the call leaves.
        ensures outcome { Wrote self.old self.new piece.now result }
    {
        if counts_as_failing(&self.failing, &mut self.calls) {
            self.faults = self.faults.saturating_add(1);
            return Err(Failed);
        }
        let count = self.most.min(piece.len());
        if self.bytes.extend_from_slice(&piece[..count]).is_err() {
            self.faults = self.faults.saturating_add(1);
            self.memory_faults = self.memory_faults.saturating_add(1);
            return Err(Failed);
        }
        self.spare = self.spare.saturating_sub(count);
        if count > 0 {
            self.finished = false;
        }
        Ok(count)
    }

    fn finish(&mut self) -> Result<(), Failed>
        ensures bytes { Keeps (Some self.old.written) (Some self.new.written) }
        ensures finished { OnOk result (Becomes (Some self.old.finished) (Some self.new.finished) true) }
        ensures cause { HasCause self.old.faults self.new.faults result }

        // Which outcome comes, and all that the call leaves.
        ensures outcome { Finished self.old self.new result }
    {
        if counts_as_failing(&self.failing, &mut self.calls) {
            self.faults = self.faults.saturating_add(1);
            return Err(Failed);
        }
        self.finished = true;
        Ok(())
    }
}
