// The kinds of words that stand in lines, and the reading of the next word as one of a kind.
ghost use Rattle.std.specs.Prelude.{◌≡◌, ℕ, ◌<◌, false, List, take, Ok, IfOk, IfSome, IsErrOf};
ghost use Rattle.std.specs.declared.result.Result.{Result};
ghost use Rattle.session_rules.specs.declared.Rule.{Rule};
ghost use Rattle.session_rules.specs.declared.LineFault.{LineFault};
ghost use Rattle.slice_tokens.specs.Front.{IsWordFront};
ghost use Rattle.line_reading.specs.Parts.{word_part, line_fault_of};
ghost use Rattle.line_reading.specs.Readers.{reader, PartRead, EndRead};

use outside::Source;
use session_rules::{LineFault, Rule};
use slice_tokens::{Token, TokenFault, Window};

/// A kind of words: what a word of it says, and the rules that a missing and a wrong word break.
pub trait WordKind {
    type Value: Drop;

    /// What a word says, or the rule that it breaks.
    ghost says: { List ℕ → Result Self.Value Rule };

    /// The rule that a line breaks which ends where the word is due.
    ghost missing: { Rule };

    /// The rule that a word of more than 32 bytes breaks.
    ghost long: { Rule };

    fn read(word: &[u8]) -> Result<Self::Value, Rule>
        ensures { result ≡ says word.now };

    /// What the word at the front of some bytes says, and how many bytes it has, where a look at these bytes tells.
    fn front(bytes: &[u8]) -> Option<(usize, Self::Value)>
        ensures { IfSome result (λ r. IsWordFront bytes.now r.0 × (says (take r.0 bytes.now) ≡ Ok r.1)) };

    fn missing() -> Rule
        ensures { result ≡ missing };

    fn long() -> Rule
        ensures { result ≡ long };
}

// A fault of the window, where a word that is too long breaks this rule.
pub(crate) fn line_fault(fault: TokenFault, long: Rule) -> LineFault
    ensures { result ≡ line_fault_of long fault }
{
    match fault {
        TokenFault::Read => LineFault::Read,
        TokenFault::LongWord => LineFault::Syntax(long),
        TokenFault::Length => LineFault::Syntax(Rule::Length),
    }
}

/// The next word of the line, as one of the kind. A word that is too long is not taken off the line.
#[inline(always)]
pub fn next_word<S: Source, K: WordKind>(
    window: &mut Window,
    src: &mut S,
) -> Result<K::Value, LineFault>
    ensures part { let at = reader S.left S.faults in
        PartRead (word_part K.says K.missing K.long)
        (at window.old src.old) (at window.new src.new) result }
    ensures progress { IfOk result (λ _. window.old.passed < window.new.passed) }
    ensures taken { IfOk result (λ _. window.new.fresh ≡ false) }
    ensures memory { IsErrOf result LineFault.Memory → ⊥ }
{
    match K::front(window.behind_space()) {
        Some((count, value)) => {
            window.take_word(count);
            Ok(value)
        }
        None => whole_word::<S, K>(window, src),
    }
}

// The same for a word that no space stands before.
#[inline(always)]
pub(crate) fn first_word<S: Source, K: WordKind>(
    window: &mut Window,
    src: &mut S,
) -> Result<K::Value, LineFault>
    ensures part { let at = reader S.left S.faults in
        PartRead (word_part K.says K.missing K.long)
        (at window.old src.old) (at window.new src.new) result }
    ensures progress { IfOk result (λ _. window.old.passed < window.new.passed) }
    ensures taken { IfOk result (λ _. window.new.fresh ≡ false) }
    ensures memory { IsErrOf result LineFault.Memory → ⊥ }
{
    match K::front(window.coming()) {
        Some((count, value)) => {
            window.take_first(count);
            Ok(value)
        }
        None => whole_word::<S, K>(window, src),
    }
}

// The next word of the line, as one of the kind, read as a word first.
#[inline(never)]
fn whole_word<S: Source, K: WordKind>(
    window: &mut Window,
    src: &mut S,
) -> Result<K::Value, LineFault>
    ensures part { let at = reader S.left S.faults in
        PartRead (word_part K.says K.missing K.long)
        (at window.old src.old) (at window.new src.new) result }
    ensures progress { IfOk result (λ _. window.old.passed < window.new.passed) }
    ensures taken { IfOk result (λ _. window.new.fresh ≡ false) }
    ensures memory { IsErrOf result LineFault.Memory → ⊥ }
{
    match window.next(src) {
        Ok(Token::Word(word)) => match K::read(word) {
            Ok(value) => Ok(value),
            Err(rule) => Err(LineFault::Syntax(rule)),
        },
        Ok(Token::LineEnd) => Err(LineFault::Syntax(K::missing())),
        Err(fault) => Err(line_fault(fault, K::long())),
    }
}

/// The line's end; any further word, however long, breaks Excess.
#[inline(always)]
pub fn end_line<S: Source>(window: &mut Window, src: &mut S) -> Result<(), LineFault>
    ensures end { let at = reader S.left S.faults in
        EndRead (at window.old src.old) (at window.new src.new) result }
    ensures memory { IsErrOf result LineFault.Memory → ⊥ }
{
    if window.is_at_line_feed() {
        return Ok(());
    }
    later_end(window, src)
}

// The line's end, where it isn't at the next byte.
#[inline(never)]
fn later_end<S: Source>(window: &mut Window, src: &mut S) -> Result<(), LineFault>
    ensures end { let at = reader S.left S.faults in
        EndRead (at window.old src.old) (at window.new src.new) result }
    ensures memory { IsErrOf result LineFault.Memory → ⊥ }
{
    match window.next(src) {
        Ok(Token::Word(_)) => Err(LineFault::Syntax(Rule::Excess)),
        Ok(Token::LineEnd) => Ok(()),
        Err(fault) => Err(line_fault(fault, Rule::Excess)),
    }
}
