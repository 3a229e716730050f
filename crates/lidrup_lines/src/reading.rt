// How the lines of a proof with ids are read.
ghost use Rattle.session_rules.specs.Reading.{lidrup_line, id_step_at};
ghost use Rattle.line_reading.specs.Readers.{reader, BodyRead, LineRead};

use line_reading::{
    Spare, enter_line, id_literals_body, id_literals_ids_body, ids_body, literals_body,
    literals_ids_body, status_body,
};
use outside::Source;
use session_rules::{LStep, Letter, LineFault, Rule};
use slice_tokens::Window;

// What stands in a line behind its letter.
fn read_step<S: Source>(
    spare: &mut Spare,
    window: &mut Window,
    src: &mut S,
    letter: Letter,
) -> Result<LStep, LineFault>
    ensures { let at = reader S.left S.faults in
        BodyRead (id_step_at letter) (at window.old src.old) (at window.new src.new) result }
{
    match letter {
        Letter::Input => {
            let (id, lits) = id_literals_body(spare, window, src)?;
            Ok(LStep::Input { id, lits })
        }
        Letter::Lemma => {
            let (id, lits, hints) = id_literals_ids_body(spare, window, src)?;
            Ok(LStep::Lemma { id, lits, hints })
        }
        Letter::Core => {
            let (lits, hints) = literals_ids_body(spare, window, src)?;
            Ok(LStep::Core { lits, hints })
        }
        Letter::Query => Ok(LStep::Query(literals_body(spare, window, src)?)),
        Letter::Status => Ok(LStep::Status(status_body(window, src)?)),
        Letter::Model => Ok(LStep::Model(literals_body(spare, window, src)?)),
        Letter::Deletion => Ok(LStep::Delete(ids_body(spare, window, src)?)),
        Letter::Weakening => Ok(LStep::Weaken(ids_body(spare, window, src)?)),
        Letter::Restoring => Ok(LStep::Restore(ids_body(spare, window, src)?)),
        Letter::Values | Letter::Failed | Letter::NoLetter => {
            window.recall_bounds();
            Err(LineFault::Syntax(Rule::Letter))
        }
    }
}

/// The next content line, its lists in the memory that is spare; none exactly at the end of the stream.
///
/// # Errors
///
/// `Syntax` comes exactly where the line breaks a rule of syntax, and is that of its first word at fault; the window then
/// stands in that line. `Read` comes only where the source's count rose, and `Memory` is want of memory; the window then stands
/// in the line that was being read, or, after `Read`, before it where no content line was reached.
pub fn read_line<S: Source>(
    spare: &mut Spare,
    window: &mut Window,
    src: &mut S,
) -> Result<Option<LStep>, LineFault>
    ensures { let at = reader S.left S.faults in
        LineRead lidrup_line (at window.old src.old) (at window.new src.new) result }
{
    match enter_line(window, src) {
        Ok(None) => Ok(None),
        Ok(Some(letter)) => match read_step(spare, window, src, letter) {
            Ok(step) => Ok(Some(step)),
            Err(fault) => Err(fault),
        },
        Err(fault) => Err(fault),
    }
}
