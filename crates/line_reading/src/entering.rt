// Going to the next line, and reading it by its letter.
ghost use Rattle.std.specs.Prelude.{IsErrOf};
ghost use Rattle.session_rules.specs.declared.LineFault.{LineFault};
ghost use Rattle.line_reading.specs.Readers.{reader, LetterRead};

use crate::kinds::LetterWords;
use crate::words::first_word;
use outside::Source;
use session_rules::{Letter, LineFault, Rule};
use slice_tokens::{TokenFault, Window};

/// Goes to the next content line and reads its letter; none at the end of the stream.
#[inline]
pub fn enter_line<S: Source>(window: &mut Window, src: &mut S) -> Result<Option<Letter>, LineFault>
    ensures letter { let at = reader S.left S.faults in
        LetterRead (at window.old src.old) (at window.new src.new) result }
    ensures memory { IsErrOf result LineFault.Memory → ⊥ }
{
    match window.next_line(src) {
        Ok(true) => match first_word::<S, LetterWords>(window, src) {
            Ok(letter) => Ok(Some(letter)),
            Err(fault) => Err(fault),
        },
        Ok(false) => Ok(None),
        Err(TokenFault::Read) => Err(LineFault::Read),
        Err(_) => Err(LineFault::Syntax(Rule::Length)),
    }
}
