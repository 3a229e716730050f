// How the lines of a proof by ids and hints are written.
ghost use Rattle.std.specs.Prelude.{◌∷◌, ◌++◌, [], codes, decimal};
ghost use Rattle.session_rules.specs.Spelling.{id_step_words, id_words, line_text, literal_words};
ghost use Rattle.line_writing.specs.Writing.{writer, WritesLine};

use line_writing::{Part, status_word, write_parts};
use lits::Lit;
use outside::Sink;
use session_rules::{Id, LStep, WriteFault};

/// Writes the line of a step.
///
/// # Errors
///
/// `Exhausted` comes exactly where the line is longer than the room, `Write` only where the sink's count of faults rose
/// or stands at its end. What each leaves is as with `line_writing::write_parts`.
pub fn write_line<K: Sink>(sink: &mut K, room: &mut u64, step: &LStep) -> Result<(), WriteFault>
    ensures { let at = writer K.written K.finished K.faults in
        WritesLine (line_text (id_step_words step.now)) (at sink.old room.old) (at sink.new room.new) result }
{
    match step {
        LStep::Input { id, lits } => write_parts(
            sink,
            room,
            b'i',
            &[Part::Id(*id), Part::Lits(lits.as_slice())],
        ),
        LStep::Lemma { id, lits, hints } => write_lemma(
            sink,
            room,
            *id,
            lits.as_slice(),
            hints.as_slice(),
        ),
        LStep::Delete(ids) => write_parts(sink, room, b'd', &[Part::Ids(ids.as_slice())]),
        LStep::Weaken(ids) => write_parts(sink, room, b'w', &[Part::Ids(ids.as_slice())]),
        LStep::Restore(ids) => write_parts(sink, room, b'r', &[Part::Ids(ids.as_slice())]),
        LStep::Query(lits) => write_parts(sink, room, b'q', &[Part::Lits(lits.as_slice())]),
        LStep::Status(s) => write_parts(sink, room, b's', &[Part::Word(status_word(*s))]),
        LStep::Model(lits) => write_parts(sink, room, b'm', &[Part::Lits(lits.as_slice())]),
        LStep::Core { lits, hints } => write_parts(
            sink,
            room,
            b'u',
            &[Part::Lits(lits.as_slice()), Part::Ids(hints.as_slice())],
        ),
    }
}

/// Writes the line of a lemma: its id, its literals and their 0, its hints and their 0.
///
/// # Errors
///
/// `Exhausted` comes exactly where the line is longer than the room, `Write` only where the sink's count of faults rose
/// or stands at its end. What each leaves is as with `line_writing::write_parts`.
pub fn write_lemma<'a, K: Sink>(
    sink: &mut K,
    room: &mut u64,
    id: Id,
    lits: &'a [Lit],
    hints: &'a [Id],
) -> Result<(), WriteFault>
    ensures { let at = writer K.written K.finished K.faults in
        WritesLine (line_text (codes "l" ∷ decimal id ∷ (literal_words lits.now ++ id_words hints.now)))
        (at sink.old room.old) (at sink.new room.new) result }
{
    write_parts(
        sink,
        room,
        b'l',
        &[Part::Id(id), Part::Lits(lits), Part::Ids(hints)],
    )
}

/// Writes one line of a letter, which is `d`, `w` or `r` in a proof, one id and a 0.
///
/// # Errors
///
/// `Exhausted` comes exactly where the line is longer than the room, `Write` only where the sink's count of faults rose
/// or stands at its end. What each leaves is as with `line_writing::write_parts`.
pub fn write_id<K: Sink>(sink: &mut K, room: &mut u64, letter: u8, id: Id) -> Result<(), WriteFault>
    ensures { let at = writer K.written K.finished K.faults in
        WritesLine (line_text ((letter ∷ []) ∷ id_words (id ∷ [])))
        (at sink.old room.old) (at sink.new room.new) result }
{
    write_parts(sink, room, letter, &[Part::Ids(&[id])])
}
