// Words that are given, and the line's end, each with the rule that anything else breaks.
ghost use Rattle.std.specs.Prelude.{◌≡◌, false, IfOk, IsErrOf};
ghost use Rattle.session_rules.specs.declared.LineFault.{LineFault};
ghost use Rattle.line_reading.specs.Readers.{reader, PartRead, BodyRead};
ghost use Rattle.line_reading.specs.Expected.{expected_says, expected_word, expected_end};

use crate::kinds::same_word;
use crate::words::line_fault;
use outside::Source;
use session_rules::{LineFault, Rule};
use slice_tokens::{Token, Window};

// Whether a word is the expected one, or the rule that it breaks.
fn expected(found: &[u8], word: &[u8], rule: Rule) -> Result<(), Rule>
    ensures { result ≡ expected_says word.now rule found.now }
{
    if same_word(found, word) {
        Ok(())
    } else {
        Err(rule)
    }
}

/// The next word of the line, which must be this one; another word, a missing one and any of more than 32 bytes break
/// the rule.
pub fn expect_word<S: Source>(
    window: &mut Window,
    src: &mut S,
    word: &[u8],
    rule: Rule,
) -> Result<(), LineFault>
    ensures part { let at = reader S.left S.faults in
        PartRead (expected_word word.now rule)
        (at window.old src.old) (at window.new src.new) result }
    ensures taken { IfOk result (λ _. window.new.fresh ≡ false) }
    ensures memory { IsErrOf result LineFault.Memory → ⊥ }
{
    match window.next(src) {
        Ok(Token::Word(found)) => match expected(found, word, rule) {
            Ok(()) => Ok(()),
            Err(broken) => Err(LineFault::Syntax(broken)),
        },
        Ok(Token::LineEnd) => Err(LineFault::Syntax(rule)),
        Err(fault) => Err(line_fault(fault, rule)),
    }
}

/// The line's end; any further word, however long, breaks the rule.
pub fn expect_end<S: Source>(window: &mut Window, src: &mut S, rule: Rule) -> Result<(), LineFault>
    ensures body { let at = reader S.left S.faults in
        BodyRead (expected_end rule) (at window.old src.old) (at window.new src.new) result }
    ensures memory { IsErrOf result LineFault.Memory → ⊥ }
{
    match window.next(src) {
        Ok(Token::Word(_)) => Err(LineFault::Syntax(rule)),
        Ok(Token::LineEnd) => Ok(()),
        Err(fault) => Err(line_fault(fault, rule)),
    }
}
