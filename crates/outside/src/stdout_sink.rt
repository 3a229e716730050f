// The standard output. Nothing is known of what it holds; what is known is its count of faults.
ghost use Rattle.std.specs.Prelude.{◌≡◌, ◌<◌, ◌≤◌, None, length, true, false, IfOk, OnOk};
ghost use Rattle.std.specs.Io.{WritesAtMost};
ghost use Rattle.std.specs.Io.KnownBytes.{Keeps, WriteAppends};
ghost use Rattle.outside.specs.Faults.{HasCause};
ghost use Rattle.outside.specs.Files.{counted};
ghost use Rattle.outside.specs.Streams.{Becomes};

use crate::{Failed, Sink};
use std::marker::Model;

/// Writes to the standard output. Each piece is passed on at once, so a line is best gathered before. As with files, it is
/// tested and not proved that a write answers how many bytes were taken.
#[derive(Drop)]
pub struct StdoutSink<'a, P: Print> {
    print: &'a P,
    faults: u64,
}

impl<'a, P: Print> Model for StdoutSink<'a, P> {
    ghost use Rattle.std.specs.Prelude.{ℕ};

    ghost Value = { ℕ };

    ghost view = { λ s. s.faults };
}

impl<'a, P: Print> StdoutSink<'a, P> {
    /// The standard output of this runtime.
    pub fn new(print: &'a P) -> StdoutSink<'a, P>
        ensures { result ≡ 0 }
    {
        StdoutSink { print, faults: 0 }
    }
}

impl<'a, P: Print> Sink for StdoutSink<'a, P> {
    ghost written = { λ s. None };

    ghost finished = { λ s. None };

    ghost faults = { λ s. s };

    /// A write that takes nothing of a piece that isn't empty counts as a failure.
    fn write(&mut self, piece: &[u8]) -> Result<usize, Failed>
        ensures bound { WritesAtMost result piece.now }
        ensures progress { IfOk result (λ n. 0 < length piece.now → 1 ≤ n) }
        ensures bytes { WriteAppends None None result piece.now }
        ensures reopened { IfOk result (λ n. 1 ≤ n → Becomes None None false) }
        ensures cause { HasCause self.old self.new result }
        ensures counted { self.new ≡ counted self.old result }
    {
        match self.print.write_some(piece) {
            Ok(count) if count > 0 || piece.is_empty() => Ok(count),
            _ => {
                self.faults = self.faults.saturating_add(1);
                Err(Failed)
            }
        }
    }

    /// Nothing is held back, so there is nothing left to do.
    fn finish(&mut self) -> Result<(), Failed>
        ensures bytes { Keeps None None }
        ensures finished { OnOk result (Becomes None None true) }
        ensures cause { HasCause self.old self.new result }
        ensures counted { self.new ≡ counted self.old result }
    {
        Ok(())
    }
}
