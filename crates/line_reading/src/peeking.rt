// Looking at the letter of the next line.
ghost use Rattle.std.specs.Prelude.{IsErrOf};
ghost use Rattle.session_rules.specs.declared.LineFault.{LineFault};
ghost use Rattle.line_reading.specs.Readers.{reader, LetterPeeked};

use crate::kinds::letter_of;
use outside::Source;
use session_rules::{Letter, LineFault, Rule};
use slice_tokens::{Token, TokenFault, Window};

/// Goes to the next content line and tells the letter of its first word, which isn't taken: the line is still the next one.
/// `NoLetter` is the answer for any other word, and none at the end of the stream.
///
/// # Errors
///
/// `Syntax` has the rule Length, and comes exactly where the bound cuts the line before its first word ended or reached 33 bytes,
/// or no line is left behind what it cut. `Read` comes only where the source's count rose.
pub fn peek_letter<S: Source>(window: &mut Window, src: &mut S) -> Result<Option<Letter>, LineFault>
    ensures letter { let at = reader S.left S.faults in
        LetterPeeked (at window.old src.old) (at window.new src.new) result }
    ensures memory { IsErrOf result LineFault.Memory → ⊥ }
{
    match window.next_line(src) {
        Ok(true) => match window.peek(src) {
            Ok(Token::Word(word)) => Ok(Some(letter_of(word))),
            Ok(Token::LineEnd) => Ok(Some(Letter::NoLetter)),
            Err(TokenFault::LongWord) => Ok(Some(Letter::NoLetter)),
            Err(TokenFault::Read) => Err(LineFault::Read),
            Err(TokenFault::Length) => Err(LineFault::Syntax(Rule::Length)),
        },
        Ok(false) => Ok(None),
        Err(TokenFault::Read) => Err(LineFault::Read),
        Err(_) => Err(LineFault::Syntax(Rule::Length)),
    }
}
