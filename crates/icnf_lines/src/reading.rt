// How the lines of an interaction, and those of a script, are read.
ghost use Rattle.session_rules.specs.Reading.{icnf_line, event_at, script_line, script_at};
ghost use Rattle.line_reading.specs.Readers.{reader, BodyRead, LineRead};

use line_reading::{Spare, enter_line, literals_body, status_body};
use outside::Source;
use session_rules::{Event, Letter, LineFault, Rule};
use slice_tokens::Window;

/// What stands in a line behind an event's letter; another letter breaks Letter.
pub fn read_event<S: Source>(
    spare: &mut Spare,
    window: &mut Window,
    src: &mut S,
    letter: Letter,
) -> Result<Event, LineFault>
    ensures { let at = reader S.left S.faults in
        BodyRead (event_at letter) (at window.old src.old) (at window.new src.new) result }
{
    match letter {
        Letter::Input => Ok(Event::Input(literals_body(spare, window, src)?)),
        Letter::Query => Ok(Event::Query(literals_body(spare, window, src)?)),
        Letter::Status => Ok(Event::Status(status_body(window, src)?)),
        Letter::Model => Ok(Event::Model(literals_body(spare, window, src)?)),
        Letter::Core => Ok(Event::Core(literals_body(spare, window, src)?)),
        Letter::Values => Ok(Event::Values(literals_body(spare, window, src)?)),
        Letter::Failed => Ok(Event::Failed(literals_body(spare, window, src)?)),
        _ => {
            window.recall_bounds();
            Err(LineFault::Syntax(Rule::Letter))
        }
    }
}

/// The next content line, its lists in the memory that is spare; none exactly at the end of the stream.
///
/// # Errors
///
/// `Syntax` comes exactly where the line breaks a rule of syntax, and is that of its first word at fault; the window then
/// stands in that line. `Read` comes only where the source's count rose, and `Memory` is want of memory; the window then stands
/// in the line that was being read, or, after `Read`, before it where no content line was reached.
pub fn read_line<S: Source>(
    spare: &mut Spare,
    window: &mut Window,
    src: &mut S,
) -> Result<Option<Event>, LineFault>
    ensures { let at = reader S.left S.faults in
        LineRead icnf_line (at window.old src.old) (at window.new src.new) result }
{
    match enter_line(window, src) {
        Ok(None) => Ok(None),
        Ok(Some(letter)) => match read_event(spare, window, src, letter) {
            Ok(event) => Ok(Some(event)),
            Err(fault) => Err(fault),
        },
        Err(fault) => Err(fault),
    }
}

// What stands in a script's line behind its letter, which is an input's or a query's; another letter breaks Letter.
fn read_script_event<S: Source>(
    spare: &mut Spare,
    window: &mut Window,
    src: &mut S,
    letter: Letter,
) -> Result<Event, LineFault>
    ensures { let at = reader S.left S.faults in
        BodyRead (script_at letter) (at window.old src.old) (at window.new src.new) result }
{
    match letter {
        Letter::Input | Letter::Query => read_event(spare, window, src, letter),
        _ => {
            window.recall_bounds();
            Err(LineFault::Syntax(Rule::Letter))
        }
    }
}

/// The next content line of a script, its list in the memory that is spare; none exactly at the end of the stream.
///
/// # Errors
///
/// As `read_line`'s, and a line that is neither an input nor a query breaks Letter.
pub fn read_script_line<S: Source>(
    spare: &mut Spare,
    window: &mut Window,
    src: &mut S,
) -> Result<Option<Event>, LineFault>
    ensures { let at = reader S.left S.faults in
        LineRead script_line (at window.old src.old) (at window.new src.new) result }
{
    match enter_line(window, src) {
        Ok(None) => Ok(None),
        Ok(Some(letter)) => match read_script_event(spare, window, src, letter) {
            Ok(event) => Ok(Some(event)),
            Err(fault) => Err(fault),
        },
        Err(fault) => Err(fault),
    }
}
