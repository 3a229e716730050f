// A file that is made anew. Nothing is known of what it holds; what is known is its count of faults, and what it does
// without a path.
ghost use Rattle.std.specs.Prelude.{◌≡◌, ◌<◌, ◌≤◌, None, Err, false, length, true, IfOk, OnOk, is_some};
ghost use Rattle.std.specs.Io.{WritesAtMost};
ghost use Rattle.std.specs.Io.KnownBytes.{Keeps, WriteAppends};
ghost use Rattle.outside.specs.Faults.{HasCause};
ghost use Rattle.outside.specs.Files.{Called};
ghost use Rattle.outside.specs.Streams.{Becomes};

use crate::{Failed, Sink};
use std::alloc::Global;
use std::fs::File;
use std::io;
use std::io::{BufWriter, Write};
use std::marker::Model;
use std::rt::Files;

// How many bytes are held back at most before they go to the file.
const HELD: usize = 65_536;

/// A file to write, which is made anew at the first use, or a sink that always fails where there is no path. Bytes are
/// held back and go to the file in large parts, so a fault of the file may come at a later write or at `finish`; the
/// rest goes to the file at `finish`, or when the sink is dropped.
///
/// No clause can say what a file holds. So one thing is tested and not proved: that a write answers how many bytes were
/// taken, and not how many there were.
#[derive(Drop)]
pub struct FileSink<'a, R: Files> {
    alloc: Global,
    files: &'a R,
    path: Option<&'a str>,
    file: Option<BufWriter<R::File>>,
    faults: u64,
}

impl<'a, R: Files> Model for FileSink<'a, R> {
    ghost use Rattle.std.specs.Prelude.{is_some};
    ghost use Rattle.outside.specs.Files.{FileState};

    ghost Value = { FileState };

    ghost view = { λ s. record { named = is_some s.path; faults = s.faults } };
}

impl<'a, R: Files> FileSink<'a, R> {
    /// The file at this path, which isn't made yet. The memory for what is held back is asked for at the first use, and
    /// a want of it counts as a fault.
    pub fn new(alloc: Global, files: &'a R, path: Option<&'a str>) -> FileSink<'a, R>
        ensures { result ≡ record { named = is_some path.entry; faults = 0 } }
    {
        FileSink {
            alloc,
            files,
            path,
            file: None,
            faults: 0,
        }
    }
}

// Makes the file if that wasn't done yet.
fn make<R: Files>(
    alloc: Global,
    files: &R,
    path: &str,
    file: &mut Option<BufWriter<R::File>>,
) -> io::Result<()> {
    if file.is_none() {
        let made = File::create(files, path)?;
        *file = Some(BufWriter::with_capacity(alloc, HELD, made)?);
    }
    Ok(())
}

// Takes some bytes from the front of `piece`.
fn write_some<R: Files>(
    alloc: Global,
    files: &R,
    path: &str,
    file: &mut Option<BufWriter<R::File>>,
    piece: &[u8],
) -> io::Result<usize>
    ensures { WritesAtMost result piece.now }
{
    make(alloc, files, path, file)?;
    match file {
        Some(open) => open.write(piece),
        None => Ok(0),
    }
}

// Passes on all that is held back.
fn flush_all<R: Files>(
    alloc: Global,
    files: &R,
    path: &str,
    file: &mut Option<BufWriter<R::File>>,
) -> io::Result<()> {
    make(alloc, files, path, file)?;
    match file {
        Some(open) => open.flush(),
        None => Ok(()),
    }
}

impl<'a, R: Files> Sink for FileSink<'a, R> {
    ghost written = { λ s. None };

    ghost finished = { λ s. None };

    ghost faults = { λ s. s.faults };

    /// A write that takes nothing of a piece that isn't empty counts as a failure.
    fn write(&mut self, piece: &[u8]) -> Result<usize, Failed>
        ensures bound { WritesAtMost result piece.now }
        ensures progress { IfOk result (λ n. 0 < length piece.now → 1 ≤ n) }
        ensures bytes { WriteAppends None None result piece.now }
        ensures reopened { IfOk result (λ n. 1 ≤ n → Becomes None None false) }
        ensures cause { HasCause self.old.faults self.new.faults result }
        ensures absent { self.old.named ≡ false → result ≡ Err (record {}) }
        ensures counted { Called self.old self.new result }
    {
        if let Some(path) = self.path {
            match write_some(self.alloc, self.files, path, &mut self.file, piece) {
                Ok(count) if count > 0 || piece.is_empty() => return Ok(count),
                _ => {}
            }
        }
        self.faults = self.faults.saturating_add(1);
        Err(Failed)
    }

    /// Passes on all that is held back. A file to which nothing was written is made too.
    fn finish(&mut self) -> Result<(), Failed>
        ensures bytes { Keeps None None }
        ensures finished { OnOk result (Becomes None None true) }
        ensures cause { HasCause self.old.faults self.new.faults result }
        ensures absent { self.old.named ≡ false → result ≡ Err (record {}) }
        ensures counted { Called self.old self.new result }
    {
        if let Some(path) = self.path {
            if flush_all(self.alloc, self.files, path, &mut self.file).is_ok() {
                return Ok(());
            }
        }
        self.faults = self.faults.saturating_add(1);
        Err(Failed)
    }
}
