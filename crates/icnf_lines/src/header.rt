// How a stream's header is read.
ghost use Rattle.std.specs.Prelude.{◌≡◌, ◌≤◌, IfOk, IsErrOf, false, length};
ghost use Rattle.session_rules.specs.Reading.{header_line};
ghost use Rattle.session_rules.specs.declared.LineFault.{LineFault};
ghost use Rattle.line_reading.specs.Readers.{reader, BodyRead};
ghost use Rattle.icnf_lines.specs.declared.header.HeaderFault.{HeaderFault};
ghost use Rattle.icnf_lines.specs.Headers.{HeaderRead, SameFault, stream_fault_of};

use line_reading::{expect_end, expect_word};
use outside::Source;
use session_rules::{LineFault, Rule};
use slice_tokens::{TokenFault, Window};

/// Why a header wasn't read.
#[derive(Clone, Copy, Debug, PartialEq, Eq)]
pub enum HeaderFault {
    /// The header breaks this rule: Header, or Length where the bound on a stream's bytes cuts it.
    Syntax(Rule),
    /// A read failed.
    Read,
}

// The words of the header of this name, to the line's end.
fn header_words<S: Source>(window: &mut Window, src: &mut S, name: &[u8]) -> Result<(), LineFault>
    requires short { length name.now ≤ 32 }
    ensures body { let at = reader S.left S.faults in
        BodyRead (header_line name.now) (at window.old src.old) (at window.new src.new) result }
    ensures taken { IfOk result (λ _. window.new.fresh ≡ false) }
    ensures memory { IsErrOf result LineFault.Memory → ⊥ }
{
    match expect_word(window, src, b"p", Rule::Header) {
        Ok(()) => match expect_word(window, src, name, Rule::Header) {
            Ok(()) => match expect_end(window, src, Rule::Header) {
                Ok(()) => Ok(()),
                Err(fault) => Err(fault),
            },
            Err(fault) => Err(fault),
        },
        Err(fault) => Err(fault),
    }
}

// A fault of the window where it seeks the header's line.
fn stream_fault(fault: TokenFault) -> HeaderFault
    ensures { result ≡ stream_fault_of fault }
{
    match fault {
        TokenFault::Read => HeaderFault::Read,
        _ => HeaderFault::Syntax(Rule::Length),
    }
}

// The fault of a header's words, none of which takes memory.
fn header_fault(fault: LineFault) -> HeaderFault
    requires { fault ≡ LineFault.Memory → ⊥ }
    ensures { SameFault fault result }
{
    match fault {
        LineFault::Syntax(rule) => HeaderFault::Syntax(rule),
        LineFault::Read => HeaderFault::Read,
        LineFault::Memory => unreachable!(),
    }
}

/// Goes to the next content line, which must be the header of this name: the word `p`, and the name, which has at most 32
/// bytes.
///
/// # Errors
///
/// `Syntax` comes exactly where the line isn't that header, or the stream has no content line; the window then stands in
/// that line, or at the end of the stream. `Read` comes only where the source's count rose; the window then stands in the
/// line that was being read, or before it where no content line was reached.
pub fn read_header<S: Source>(
    window: &mut Window,
    src: &mut S,
    name: &[u8],
) -> Result<(), HeaderFault>
    requires short { length name.now ≤ 32 }
    ensures { let at = reader S.left S.faults in
        HeaderRead name.now (at window.old src.old) (at window.new src.new) result }
{
    match window.next_line(src) {
        Ok(true) => match header_words(window, src, name) {
            Ok(()) => Ok(()),
            Err(fault) => Err(header_fault(fault)),
        },
        Ok(false) => Err(HeaderFault::Syntax(Rule::Header)),
        Err(fault) => Err(stream_fault(fault)),
    }
}
