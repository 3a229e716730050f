// How a line is written. Its length is counted first, by comparisons alone, and nothing is written where the room is
// too small. Then its bytes are gathered in a small buffer, which goes to the sink when it is full and at the end: a
// short line is one write, and a long one is few.
ghost use Rattle.std.specs.Prelude.{◌≡◌, ◌+◌, ◌≤◌, ◌-◌, ◌∷◌, ◌++◌, [], codes, length};
ghost use Rattle.std.specs.Option.{SomeIff};
ghost use Rattle.session_rules.specs.Spelling.{line_text, status_text};
ghost use Rattle.lits.specs.Word.{literal_text};
ghost use Rattle.lits.specs.Numbering.{file_lit};
ghost use Rattle.line_writing.specs.Held.{line_bytes, list_text, part_text, Puts};
ghost use Rattle.line_writing.specs.Writing.{line_words, writer, WritesLine};

mod digits;
mod held;
mod numeral;

use held::{Held, make_room, pass_on};
use lits::{Dense, Lit};
use numeral::Numeral;
use outside::{Failed, Sink};
use session_rules::{Id, StatusWord, WriteFault};

/// A part of a line behind its letter.
#[derive(Clone, Copy)]
pub enum Part<'a> {
    /// A word as it stands.
    Word(&'a [u8]),
    /// An id, with no 0 behind it.
    Id(Id),
    /// A list of literals and the 0 at its end.
    Lits(&'a [Lit]),
    /// A list of literals over the numbers of variables, with the variables in place of their numbers, and the 0 at its end.
    /// A number that no variable has is written as 1.
    Numbered(&'a Dense, &'a [Lit]),
    /// A list of ids and the 0 at its end.
    Ids(&'a [Id]),
}

/// The word of a status line.
pub fn status_word(status: StatusWord) -> &'static [u8]
    ensures { result.now ≡ status_text status }
{
    match status {
        StatusWord::Satisfiable => b"SATISFIABLE",
        StatusWord::Unsatisfiable => b"UNSATISFIABLE",
        StatusWord::Unknown => b"UNKNOWN",
    }
}

/// Writes the line of a letter and parts, and takes its length off the room, which is counted in bytes. It takes no
/// memory.
///
/// # Errors
///
/// `Exhausted` comes exactly where the line is longer than the room, and then nothing is written. `Write` comes only
/// where the sink's count of faults rose or stands at its end; then a first part of the line, maybe none, was written.
/// The room stays with both.
pub fn write_parts<K: Sink>(
    sink: &mut K,
    room: &mut u64,
    letter: u8,
    parts: &[Part],
) -> Result<(), WriteFault>
    ensures { let at = writer K.written K.finished K.faults in
        WritesLine (line_text (line_words letter parts.now))
        (at sink.old room.old) (at sink.new room.new) result }
{
    let Some(left) = room_behind_line(*room, parts) else {
        return Err(WriteFault::Exhausted);
    };
    match put_line(sink, letter, parts) {
        Ok(()) => {
            *room = left;
            Ok(())
        }
        Err(Failed) => Err(WriteFault::Write),
    }
}

// What is left of the room behind a line, if the line fits.
fn room_behind_line(room: u64, parts: &[Part]) -> Option<u64>
    ensures { let size = length (line_bytes 0 parts.now) in
        SomeIff result (size ≤ room) (room - size) }
{
    let mut left = room.checked_sub(2)?;
    for part in parts {
        left = room_behind_part(left, part)?;
    }
    Some(left)
}

// What is left of the room behind a part and the spaces before its words, if it fits.
fn room_behind_part(room: u64, part: &Part) -> Option<u64>
    ensures { let size = length (part_text part.now) in
        SomeIff result (size ≤ room) (room - size) }
{
    match part {
        Part::Word(word) => room.checked_sub(1)?.checked_sub(word.len() as u64),
        Part::Id(id) => room.checked_sub(1 + id.length()),
        Part::Lits(lits) => room_behind_list(room, lits),
        Part::Numbered(dense, lits) => room_behind_numbered(room, dense, lits),
        Part::Ids(ids) => room_behind_list(room, ids),
    }
}

// What is left of the room behind a list, its 0 and the spaces before its words, if they fit.
fn room_behind_list<W: Numeral>(room: u64, items: &[W]) -> Option<u64>
    ensures { let size = length (list_text W.text items.now) in
        SomeIff result (size ≤ room) (room - size) }
{
    let mut left = room.checked_sub(2)?;
    for item in items {
        left = left.checked_sub(1 + item.length())?;
    }
    Some(left)
}

// The literal with the variable in place of its number.
fn with_variable(dense: &Dense, l: Lit) -> Lit
    ensures { result ≡ file_lit dense.now l }
{
    if l.var() <= dense.count() {
        dense.file_lit(l)
    } else {
        Lit::from_code(l.code() % 2)
    }
}

// What is left of the room behind a list of literals over numbers, its 0 and the spaces before its words, if they fit.
fn room_behind_numbered(room: u64, dense: &Dense, items: &[Lit]) -> Option<u64>
    ensures { let size = length (list_text (λ l. literal_text (file_lit dense.now l)) items.now) in
        SomeIff result (size ≤ room) (room - size) }
{
    let mut left = room.checked_sub(2)?;
    for item in items {
        left = left.checked_sub(1 + with_variable(dense, *item).length())?;
    }
    Some(left)
}

// Puts a whole line to the sink.
fn put_line<K: Sink>(sink: &mut K, letter: u8, parts: &[Part]) -> Result<(), Failed>
    ensures { Puts K.written K.finished K.faults sink.old sink.new [] [] (line_bytes letter parts.now) result }
{
    let mut held = Held::new();
    held.push(letter);
    for part in parts {
        put_part(sink, &mut held, part)?;
    }
    put_byte(sink, &mut held, b'\n')?;
    pass_on(sink, &mut held)?;
    Ok(())
}

// Puts the words of a part, each behind a space.
fn put_part<K: Sink>(sink: &mut K, held: &mut Held, part: &Part) -> Result<(), Failed>
    ensures { Puts K.written K.finished K.faults sink.old sink.new held.old held.new (part_text part.now) result }
{
    match part {
        Part::Word(word) => put_word(sink, held, word),
        Part::Id(id) => put_numeral(sink, held, id),
        Part::Lits(lits) => put_list(sink, held, lits),
        Part::Numbered(dense, lits) => put_numbered(sink, held, dense, lits),
        Part::Ids(ids) => put_list(sink, held, ids),
    }
}

// Puts a list and the 0 at its end.
fn put_list<K: Sink, W: Numeral>(sink: &mut K, held: &mut Held, items: &[W]) -> Result<(), Failed>
    ensures { Puts K.written K.finished K.faults sink.old sink.new held.old held.new
        (list_text W.text items.now) result }
{
    for item in items {
        put_numeral(sink, held, item)?;
    }
    put_end(sink, held)
}

// Puts a list of literals over numbers and the 0 at its end.
fn put_numbered<K: Sink>(
    sink: &mut K,
    held: &mut Held,
    dense: &Dense,
    items: &[Lit],
) -> Result<(), Failed>
    ensures { Puts K.written K.finished K.faults sink.old sink.new held.old held.new
        (list_text (λ l. literal_text (file_lit dense.now l)) items.now) result }
{
    for item in items {
        put_numeral(sink, held, &with_variable(dense, *item))?;
    }
    put_end(sink, held)
}

// Puts the 0 at a list's end.
fn put_end<K: Sink>(sink: &mut K, held: &mut Held) -> Result<(), Failed>
    ensures { Puts K.written K.finished K.faults sink.old sink.new held.old held.new (codes " 0") result }
{
    put_word(sink, held, b"0")
}

// Puts a space and a number.
fn put_numeral<K: Sink, W: Numeral>(sink: &mut K, held: &mut Held, item: &W) -> Result<(), Failed>
    ensures { Puts K.written K.finished K.faults sink.old sink.new held.old held.new (32 ∷ W.text item.now) result }
{
    make_room(sink, held)?;
    item.push_to(held);
    Ok(())
}

// Puts a space and a word.
fn put_word<K: Sink>(sink: &mut K, held: &mut Held, word: &[u8]) -> Result<(), Failed>
    ensures { Puts K.written K.finished K.faults sink.old sink.new held.old held.new (32 ∷ word.now) result }
{
    put_byte(sink, held, b' ')?;
    for byte in word {
        put_byte(sink, held, *byte)?;
    }
    Ok(())
}

// Puts a byte.
fn put_byte<K: Sink>(sink: &mut K, held: &mut Held, byte: u8) -> Result<(), Failed>
    ensures { Puts K.written K.finished K.faults sink.old sink.new held.old held.new (byte ∷ []) result }
{
    make_room(sink, held)?;
    held.push(byte);
    Ok(())
}
