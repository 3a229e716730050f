// A sink of bytes, as a file that is made anew. What it holds is known where it tells it, and a failure is tied to its
// count of faults, so a caller above can say why it stopped.
ghost use Rattle.std.specs.Prelude.{ℕ, ◌<◌, ◌≤◌, Bool, true, false, List, length, IfOk, OnOk};
ghost use Rattle.std.specs.declared.option.Option.{Option};
ghost use Rattle.std.specs.Io.{WritesAtMost};
ghost use Rattle.std.specs.Io.KnownBytes.{Keeps, WriteAppends};
ghost use Rattle.outside.specs.Faults.{HasCause};
ghost use Rattle.outside.specs.Streams.{Becomes};

use crate::Failed;

/// Where bytes go.
pub trait Sink {
    /// The bytes that were written, where the sink tells them.
    ghost written: { Self → Option (List ℕ) };

    /// Whether it was finished and no byte was written since, where the sink tells it.
    ghost finished: { Self → Option Bool };

    /// How often the sink has failed, up to the end of a u64. It never falls.
    ghost faults: { Self → ℕ };

    /// Writes some bytes from the front of `piece`, at least one of a piece that isn't empty, and answers how many.
    ///
    /// # Errors
    ///
    /// `Failed` comes only where the count of faults rose or stands at its end. Then no byte was written.
    fn write(&mut self, piece: &[u8]) -> Result<usize, Failed>
        ensures bound { WritesAtMost result piece.now }
        ensures progress { IfOk result (λ n. 0 < length piece.now → 1 ≤ n) }
        ensures bytes { WriteAppends (written self.old) (written self.new) result piece.now }
        ensures reopened { IfOk result (λ n. 1 ≤ n → Becomes (finished self.old) (finished self.new) false) }
        ensures cause { HasCause (faults self.old) (faults self.new) result };

    /// Ends the writing: what was held back is passed on. A later write opens it again.
    ///
    /// # Errors
    ///
    /// `Failed` comes only where the count of faults rose or stands at its end. What was written stays.
    fn finish(&mut self) -> Result<(), Failed>
        ensures bytes { Keeps (written self.old) (written self.new) }
        ensures finished { OnOk result (Becomes (finished self.old) (finished self.new) true) }
        ensures cause { HasCause (faults self.old) (faults self.new) result };
}
