// A source of bytes, as a file that is read from its start. What it gives is known where it tells its bytes, and a
// failure is tied to its count of faults, so a caller above can say why it stopped.
ghost use Rattle.std.specs.Prelude.{ℕ, List};
ghost use Rattle.std.specs.declared.option.Option.{Option};
ghost use Rattle.std.specs.Io.{ReadsAtMost};
ghost use Rattle.std.specs.Io.KnownBytes.{ReadConsumes};
ghost use Rattle.outside.specs.Faults.{HasCause};

/// A read, a write or a finish failed. The source or sink has counted it as a fault.
#[derive(Clone, Copy, Debug, PartialEq, Eq)]
pub struct Failed;

/// Where bytes come from.
pub trait Source {
    /// The bytes still to come, where the source tells them.
    ghost left: { Self → Option (List ℕ) };

    /// How often the source has failed, up to the end of a u64. It never falls.
    ghost faults: { Self → ℕ };

    /// Reads some bytes into the front of `buf`, at most its length, and answers how many. 0 for a buffer that isn't
    /// empty is the end, and then no byte is left.
    ///
    /// # Errors
    ///
    /// `Failed` comes only where the count of faults rose or stands at its end. Then no byte was taken.
    fn read(&mut self, buf: &mut [u8]) -> Result<usize, Failed>
        ensures bound { ReadsAtMost result buf.new }
        ensures bytes { ReadConsumes (left self.old) (left self.new) result buf.new }
        ensures cause { HasCause (faults self.old) (faults self.new) result };
}
