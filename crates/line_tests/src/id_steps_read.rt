// Texts that are read in pieces and written again, and broken lines with the rule of each.
ghost use Rattle.std.specs.Prelude.{◌<◌};

use icnf_lines::read_header;
use lidrup_lines::{read_line, write_line};
use line_reading::Spare;
use outside::{MemorySink, MemorySource};
use session_rules::{LineFault, Rule};
use slice_tokens::Window;
use std::alloc::{AllocError, Global};
use std::test::Fail;

// Reads the lines of a text that comes in pieces of so many bytes, and writes them again, up to the first fault. Answers
// that fault, and the number of the line where the reading ended; line 0 is a header that wasn't read.
fn read_again(
    alloc: Global,
    text: &[u8],
    most: usize,
    sink: &mut MemorySink,
) -> Result<(Option<LineFault>, u64), AllocError>
    requires { 0 < most }
{
    let mut pieces = Vec::new(alloc);
    for piece in text.chunks(most) {
        pieces.push(piece.to_vec(alloc)?)?;
    }
    let mut source = MemorySource::new(pieces, Vec::new(alloc));
    let mut window = Window::new(alloc)?;
    if read_header(&mut window, &mut source, b"lidrup").is_err() {
        return Ok((None, 0));
    }
    let mut spare = Spare::new(alloc);
    let mut room = 100_000;
    for _ in 0..20 {
        match read_line(&mut spare, &mut window, &mut source) {
            Ok(Some(line)) => {
                let _ = write_line(sink, &mut room, &line);
            }
            Ok(None) => return Ok((None, window.line())),
            Err(fault) => return Ok((Some(fault), window.line())),
        }
    }
    Ok((None, 0))
}

// Puts so many numbers of two digits behind a text, each behind a space, and the 0 at their end.
fn put_list(text: &mut Vec<u8>, count: u32) -> Result<(), AllocError> {
    for i in 0..count {
        text.extend_from_slice(b" 1")?;
        text.push(b'0' + (i % 10) as u8)?;
    }
    text.extend_from_slice(b" 0")
}

// A lemma of so many literals and hints, and a deletion of so many ids.
fn long_lines(alloc: Global, count: u32) -> Result<Vec<u8>, AllocError> {
    let mut text = b"l 1".to_vec(alloc)?;
    put_list(&mut text, count)?;
    put_list(&mut text, count)?;
    text.extend_from_slice(b"\nd")?;
    put_list(&mut text, count)?;
    Ok(text)
}

#[test]
fn lines_are_read_as_they_are_written(rt: HostRuntime) -> Result<(), Fail> {
    let alloc = rt.alloc();
    let text =
        "p lidrup\ni 1 1 -2 0\nq -1 0\nl 9223372036854775807 -2 0 2 1 0\nw 1 2 0\nr 2 0\nd 0\ns UNKNOWN\nm 1 0\nl 4 0 0\nu -1 0 3 0";
    let wanted =
        "i 1 1 -2 0\nq -1 0\nl 9223372036854775807 -2 0 2 1 0\nw 1 2 0\nr 2 0\nd 0\ns UNKNOWN\nm 1 0\nl 4 0 0\nu -1 0 3 0\n";
    for most in [1, 1_000] {
        let mut sink = MemorySink::new(alloc, 7, Vec::new(alloc));
        let answer = read_again(alloc, text.as_bytes(), most, &mut sink)?;
        assert_eq!(rt; answer, (None, 11), "{most}");
        assert_eq!(rt; sink.bytes(), wanted.as_bytes(), "{most}");
        let mut lines = long_lines(alloc, 1_001)?;
        let mut text = b"p lidrup\n".to_vec(alloc)?;
        text.extend_from_slice(&lines)?;
        let mut sink = MemorySink::new(alloc, 1_000, Vec::new(alloc));
        let answer = read_again(alloc, text.as_slice(), most, &mut sink)?;
        assert_eq!(rt; answer, (None, 3), "long lines, {most}");
        lines.push(b'\n')?;
        assert_eq!(rt; sink.bytes(), lines.as_slice(), "long lines, {most}");
    }
    Ok(())
}

#[test]
fn broken_lines_are_refused_in_single_bytes(rt: HostRuntime) -> Result<(), Fail> {
    let alloc = rt.alloc();
    let rows = [
        ("x 1 0", Rule::Letter),
        ("v 1 0", Rule::Letter),
        ("f 1 0", Rule::Letter),
        ("ddddddddddddddddddddddddddddddddd 1 0", Rule::Letter),
        ("i", Rule::Unclosed),
        ("i 1", Rule::Unclosed),
        ("l 5 1 0", Rule::Unclosed),
        ("l 1 2 0 3", Rule::Unclosed),
        ("u 1 0", Rule::Unclosed),
        ("r 1", Rule::Unclosed),
        ("i 1 1 0 1 0", Rule::Excess),
        ("l 1 0 0 0", Rule::Excess),
        ("u 1 0 0 1", Rule::Excess),
        ("w 1 0 2", Rule::Excess),
        ("d 0 111111111111111111111111111111111", Rule::Excess),
        ("i -1 1 0", Rule::Number),
        ("l 01 1 0 0", Rule::Number),
        ("l 1 2 0 -3 0", Rule::Number),
        ("d -1 0", Rule::Number),
        ("w 00 0", Rule::Number),
        ("i 111111111111111111111111111111111 0", Rule::Number),
        ("r 111111111111111111111111111111111 0", Rule::Number),
        ("u 01 0 0", Rule::Number),
        ("i 0 1 0", Rule::Range),
        ("l 0 1 0 0", Rule::Range),
        ("i 9223372036854775808 1 0", Rule::Range),
        ("l 9223372036854775808 0 0", Rule::Range),
        ("d 9223372036854775808 0", Rule::Range),
        ("l 1 2147483648 0 0", Rule::Range),
        ("u 0 9223372036854775808 0", Rule::Range),
        ("s MAYBE", Rule::Word),
        ("s", Rule::Word),
        ("s SATISFIABLESATISFIABLESATISFIABLE", Rule::Word),
    ];
    for (line, rule) in rows {
        let mut text = b"c\n\np lidrup\nq 1 0\n".to_vec(alloc)?;
        text.extend_from_slice(line.as_bytes())?;
        let mut sink = MemorySink::new(alloc, 7, Vec::new(alloc));
        let answer = read_again(alloc, text.as_slice(), 1, &mut sink)?;
        assert_eq!(rt; answer, (Some(LineFault::Syntax(rule)), 5), "{line}");
        assert_eq!(rt; sink.bytes(), b"q 1 0\n".as_slice(), "{line}");
    }
    Ok(())
}
