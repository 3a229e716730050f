// A file that is read from its start. Nothing is known of its bytes; what is known is its count of faults, and what it
// does without a path.
ghost use Rattle.std.specs.Prelude.{◌≡◌, ℕ, None, Ok, false, is_some};
ghost use Rattle.std.specs.Io.{ReadsAtMost};
ghost use Rattle.std.specs.Io.KnownBytes.{ReadConsumes};
ghost use Rattle.outside.specs.Faults.{HasCause};
ghost use Rattle.outside.specs.Files.{Called};

use crate::{Failed, Source};
use std::fs::File;
use std::io;
use std::io::Read;
use std::marker::Model;
use std::rt::Files;

/// A file to read, or nothing where there is no path. The file is opened at the first read. Each read goes to the file
/// as it is, so the reader above should ask for large parts.
///
/// No clause can say what a file holds. So one thing is tested and not proved: that a read answers how many bytes it got,
/// and not how many it was asked for.
#[derive(Drop)]
pub struct FileSource<'a, R: Files> {
    files: &'a R,
    path: Option<&'a str>,
    file: Option<R::File>,
    faults: u64,
}

impl<'a, R: Files> Model for FileSource<'a, R> {
    ghost use Rattle.std.specs.Prelude.{is_some};
    ghost use Rattle.outside.specs.Files.{FileState};

    ghost Value = { FileState };

    ghost view = { λ s. record { named = is_some s.path; faults = s.faults } };
}

impl<'a, R: Files> FileSource<'a, R> {
    /// The file at this path, which isn't looked at yet. Without a path the source is at its end at once.
    pub fn new(files: &'a R, path: Option<&'a str>) -> FileSource<'a, R>
        ensures { result ≡ record { named = is_some path.entry; faults = 0 } }
    {
        FileSource {
            files,
            path,
            file: None,
            faults: 0,
        }
    }
}

// Reads from the file, which is opened if it isn't open yet.
fn read_some<R: Files>(
    files: &R,
    path: &str,
    file: &mut Option<R::File>,
    buf: &mut [u8],
) -> io::Result<usize>
    ensures { ReadsAtMost result buf.new }
{
    if let Some(open) = file {
        return open.read(buf);
    }
    let mut opened = File::open(files, path)?;
    let result = opened.read(buf);
    *file = Some(opened);
    result
}

impl<'a, R: Files> Source for FileSource<'a, R> {
    ghost left = { λ s. None };

    ghost faults = { λ s. s.faults };

    fn read(&mut self, buf: &mut [u8]) -> Result<usize, Failed>
        ensures bound { ReadsAtMost result buf.new }
        ensures bytes { ReadConsumes None None result buf.new }
        ensures cause { HasCause self.old.faults self.new.faults result }
        ensures absent { self.old.named ≡ false → result ≡ Ok 0 }
        ensures counted { Called self.old self.new result }
    {
        let Some(path) = self.path else {
            return Ok(0);
        };
        match read_some(self.files, path, &mut self.file, buf) {
            Ok(count) => Ok(count),
            Err(_) => {
                self.faults = self.faults.saturating_add(1);
                Err(Failed)
            }
        }
    }
}
