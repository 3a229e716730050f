// How the lines of a proof by literals are read.
ghost use Rattle.session_rules.specs.Reading.{idrup_line, step_at};
ghost use Rattle.line_reading.specs.Readers.{reader, BodyRead, LineRead};

use icnf_lines::read_event;
use line_reading::{Spare, enter_line, literals_body};
use outside::Source;
use session_rules::{Letter, LineFault, Rule, Step};
use slice_tokens::Window;

// What stands in a line behind its letter.
fn read_step<S: Source>(
    spare: &mut Spare,
    window: &mut Window,
    src: &mut S,
    letter: Letter,
) -> Result<Step, LineFault>
    ensures { let at = reader S.left S.faults in
        BodyRead (step_at letter) (at window.old src.old) (at window.new src.new) result }
{
    match letter {
        Letter::Lemma => Ok(Step::Lemma(literals_body(spare, window, src)?)),
        Letter::Deletion => Ok(Step::Delete(literals_body(spare, window, src)?)),
        Letter::Weakening => Ok(Step::Weaken(literals_body(spare, window, src)?)),
        Letter::Restoring => Ok(Step::Restore(literals_body(spare, window, src)?)),
        Letter::Values | Letter::Failed => {
            window.recall_bounds();
            Err(LineFault::Syntax(Rule::Letter))
        }
        _ => Ok(Step::Event(read_event(spare, window, src, letter)?)),
    }
}

/// The next content line, its lists in the memory that is spare; none exactly at the end of the stream.
///
/// # Errors
///
/// `Syntax` comes exactly where the line breaks a rule of syntax, and is that of its first word at fault; the window then
/// stands in that line. `Read` comes only where the source's count rose, and `Memory` is want of memory; the window then stands
/// in the line that was being read, or, after `Read`, before it where no content line was reached.
pub fn read_line<S: Source>(
    spare: &mut Spare,
    window: &mut Window,
    src: &mut S,
) -> Result<Option<Step>, LineFault>
    ensures { let at = reader S.left S.faults in
        LineRead idrup_line (at window.old src.old) (at window.new src.new) result }
{
    match enter_line(window, src) {
        Ok(None) => Ok(None),
        Ok(Some(letter)) => match read_step(spare, window, src, letter) {
            Ok(step) => Ok(Some(step)),
            Err(fault) => Err(fault),
        },
        Err(fault) => Err(fault),
    }
}
