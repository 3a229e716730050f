// How a header and the lines of the interaction are written.
ghost use Rattle.session_rules.specs.Spelling.{event_words, header_words, line_text};
ghost use Rattle.line_writing.specs.Writing.{writer, WritesLine};

use line_writing::{Part, status_word, write_parts};
use outside::Sink;
use session_rules::{Event, WriteFault};

/// Writes a file's header, the words `p` and the name of the form.
///
/// # Errors
///
/// `Exhausted` comes exactly where the line is longer than the room, `Write` only where the sink's count of faults rose
/// or stands at its end. What each leaves is as with `line_writing::write_parts`.
pub fn write_header<K: Sink>(sink: &mut K, room: &mut u64, name: &[u8]) -> Result<(), WriteFault>
    ensures { let at = writer K.written K.finished K.faults in
        WritesLine (line_text (header_words name.now)) (at sink.old room.old) (at sink.new room.new) result }
{
    write_parts(sink, room, b'p', &[Part::Word(name)])
}

/// Writes the line of an event.
///
/// # Errors
///
/// `Exhausted` comes exactly where the line is longer than the room, `Write` only where the sink's count of faults rose
/// or stands at its end. What each leaves is as with `line_writing::write_parts`.
pub fn write_line<K: Sink>(sink: &mut K, room: &mut u64, event: &Event) -> Result<(), WriteFault>
    ensures { let at = writer K.written K.finished K.faults in
        WritesLine (line_text (event_words event.now)) (at sink.old room.old) (at sink.new room.new) result }
{
    match event {
        Event::Input(lits) => write_parts(sink, room, b'i', &[Part::Lits(lits.as_slice())]),
        Event::Query(lits) => write_parts(sink, room, b'q', &[Part::Lits(lits.as_slice())]),
        Event::Status(s) => write_parts(sink, room, b's', &[Part::Word(status_word(*s))]),
        Event::Model(lits) => write_parts(sink, room, b'm', &[Part::Lits(lits.as_slice())]),
        Event::Core(lits) => write_parts(sink, room, b'u', &[Part::Lits(lits.as_slice())]),
        Event::Values(lits) => write_parts(sink, room, b'v', &[Part::Lits(lits.as_slice())]),
        Event::Failed(lits) => write_parts(sink, room, b'f', &[Part::Lits(lits.as_slice())]),
    }
}
