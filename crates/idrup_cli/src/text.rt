// A line that is gathered in a small buffer, so that it can be written at once.
ghost use Rattle.std.specs.Prelude.{◌≡◌, ◌+◌, ◌≤◌, [], ◌++◌, length, decimal};
ghost use Rattle.lits.specs.Word.{literal_text};

use itoa::Buffer;
use lits::Lit;
use std::marker::Model;

// How many bytes a line has at most.
pub(crate) const SIZE: usize = 128;

// Seen as the list of its bytes.
#[derive(Drop)]
pub(crate) struct Line {
    bytes: [u8; SIZE],
    len: usize,
}

impl Model for Line {
    ghost use Rattle.std.specs.Prelude.{ℕ, ◌≤◌, List, take};
    ghost use Rattle.idrup_cli.specs.declared.text.TheConstants.{SIZE};

    ghost Value = { List ℕ };

    ghost view = { λ l. take l.len l.bytes };

    ghost invariant = { λ l. l.len ≤ SIZE };
}

impl Line {
    // No bytes yet.
    pub(crate) fn new() -> Line
        ensures { result ≡ [] }
    {
        Line {
            bytes: [0; SIZE],
            len: 0,
        }
    }

    pub(crate) fn as_slice(&self) -> &[u8]
        ensures { result.now ≡ self.now }
    {
        &self.bytes[..self.len]
    }

    pub(crate) fn push(&mut self, text: &[u8])
        requires { length self.old + length text.now ≤ SIZE }
        ensures bytes { self.new ≡ self.old ++ text.now }
        ensures size { length self.new ≡ length self.old + length text.now }
    {
        let end = self.len + text.len();
        self.bytes[self.len..end].copy_from_slice(text);
        self.len = end;
    }

    // In decimal.
    pub(crate) fn push_number(&mut self, n: u64)
        requires { length self.old + 20 ≤ SIZE }
        ensures bytes { self.new ≡ self.old ++ decimal n }
        ensures size { length self.new ≤ length self.old + 20 }
    {
        let mut buffer = Buffer::new();
        self.push(buffer.format(n).as_bytes());
    }

    // As the number that is written for it.
    pub(crate) fn push_literal(&mut self, l: Lit)
        requires { length self.old + 21 ≤ SIZE }
        ensures bytes { self.new ≡ self.old ++ literal_text l }
        ensures size { length self.new ≤ length self.old + 21 }
    {
        if !l.positive() {
            self.push(b"-");
        }
        self.push_number(l.var() as u64);
    }
}
