// How the lines of a proof by literals are written.
ghost use Rattle.std.specs.Prelude.{◌∷◌, []};
ghost use Rattle.session_rules.specs.Spelling.{line_text, literal_words, step_words};
ghost use Rattle.line_writing.specs.Writing.{writer, WritesLine};

use line_writing::{Part, write_parts};
use lits::Lit;
use outside::Sink;
use session_rules::{Step, WriteFault};

/// Writes the line of a step.
///
/// # Errors
///
/// `Exhausted` comes exactly where the line is longer than the room, `Write` only where the sink's count of faults rose
/// or stands at its end. What each leaves is as with `line_writing::write_parts`.
pub fn write_line<K: Sink>(sink: &mut K, room: &mut u64, step: &Step) -> Result<(), WriteFault>
    ensures { let at = writer K.written K.finished K.faults in
        WritesLine (line_text (step_words step.now)) (at sink.old room.old) (at sink.new room.new) result }
{
    match step {
        Step::Event(event) => icnf_lines::write_line(sink, room, event),
        Step::Lemma(lits) => write_lits(sink, room, b'l', lits.as_slice()),
        Step::Delete(lits) => write_lits(sink, room, b'd', lits.as_slice()),
        Step::Weaken(lits) => write_lits(sink, room, b'w', lits.as_slice()),
        Step::Restore(lits) => write_lits(sink, room, b'r', lits.as_slice()),
    }
}

/// Writes one line of a letter, literals and the 0 at their end.
///
/// # Errors
///
/// `Exhausted` comes exactly where the line is longer than the room, `Write` only where the sink's count of faults rose
/// or stands at its end. What each leaves is as with `line_writing::write_parts`.
pub fn write_lits<K: Sink>(
    sink: &mut K,
    room: &mut u64,
    letter: u8,
    lits: &[Lit],
) -> Result<(), WriteFault>
    ensures { let at = writer K.written K.finished K.faults in
        WritesLine (line_text ((letter ∷ []) ∷ literal_words lits.now))
        (at sink.old room.old) (at sink.new room.new) result }
{
    write_parts(sink, room, letter, &[Part::Lits(lits)])
}
