// Texts that are read in pieces and written again, and broken lines with the rule of each.
ghost use Rattle.std.specs.Prelude.{◌<◌};

use icnf_lines::read_header;
use idrup_lines::{read_line, write_line};
use line_reading::Spare;
use outside::{MemorySink, MemorySource};
use session_rules::{LineFault, Rule};
use slice_tokens::Window;
use std::alloc::{AllocError, Global};
use std::test::Fail;

// Reads the lines of a text that comes in pieces of so many bytes, and writes them again, up to the first fault. Answers
// that fault, and the number of the line where the reading ended; line 0 is a header that wasn't read.
fn read_again(
    alloc: Global,
    text: &[u8],
    most: usize,
    sink: &mut MemorySink,
) -> Result<(Option<LineFault>, u64), AllocError>
    requires { 0 < most }
{
    let mut pieces = Vec::new(alloc);
    for piece in text.chunks(most) {
        pieces.push(piece.to_vec(alloc)?)?;
    }
    let mut source = MemorySource::new(pieces, Vec::new(alloc));
    let mut window = Window::new(alloc)?;
    if read_header(&mut window, &mut source, b"idrup").is_err() {
        return Ok((None, 0));
    }
    let mut spare = Spare::new(alloc);
    let mut room = 1_000;
    for _ in 0..20 {
        match read_line(&mut spare, &mut window, &mut source) {
            Ok(Some(line)) => {
                let _ = write_line(sink, &mut room, &line);
            }
            Ok(None) => return Ok((None, window.line())),
            Err(fault) => return Ok((Some(fault), window.line())),
        }
    }
    Ok((None, 0))
}

#[test]
fn lines_are_read_as_they_are_written(rt: HostRuntime) -> Result<(), Fail> {
    let alloc = rt.alloc();
    let text =
        "p idrup\ni 1 -2 0\nl -2 0\nd 1 0\nw 1 -2 0\nr 1 -2 0\nq 0\ns UNSATISFIABLE\nu 0\ns SATISFIABLE\nm 1 0";
    let wanted =
        "i 1 -2 0\nl -2 0\nd 1 0\nw 1 -2 0\nr 1 -2 0\nq 0\ns UNSATISFIABLE\nu 0\ns SATISFIABLE\nm 1 0\n";
    for most in [1, 1_000] {
        let mut sink = MemorySink::new(alloc, 7, Vec::new(alloc));
        let answer = read_again(alloc, text.as_bytes(), most, &mut sink)?;
        assert_eq!(rt; answer, (None, 11), "{most}");
        assert_eq!(rt; sink.bytes(), wanted.as_bytes(), "{most}");
    }
    Ok(())
}

#[test]
fn broken_lines_are_refused_in_single_bytes(rt: HostRuntime) -> Result<(), Fail> {
    let alloc = rt.alloc();
    let rows = [
        ("x 1 0", Rule::Letter),
        ("v 1 0", Rule::Letter),
        ("f 1 0", Rule::Letter),
        ("ll 1 0", Rule::Letter),
        ("p idrup", Rule::Letter),
        ("lllllllllllllllllllllllllllllllll 1 0", Rule::Letter),
        ("l 1", Rule::Unclosed),
        ("r", Rule::Unclosed),
        ("d 1 2", Rule::Unclosed),
        ("l 1 0 2", Rule::Excess),
        ("w 1 0 2 0", Rule::Excess),
        ("s SATISFIABLE 0", Rule::Excess),
        ("l 1 0 111111111111111111111111111111111", Rule::Excess),
        ("l 01 0", Rule::Number),
        ("l -0 0", Rule::Number),
        ("d +1 0", Rule::Number),
        ("w 111111111111111111111111111111111 0", Rule::Number),
        ("l 2147483648 0", Rule::Range),
        ("r -2147483648 0", Rule::Range),
        ("s MAYBE", Rule::Word),
        ("s", Rule::Word),
        ("s SATISFIABLESATISFIABLESATISFIABLE", Rule::Word),
    ];
    for (line, rule) in rows {
        let mut text = b"c\n\np idrup\nq 1 0\n".to_vec(alloc)?;
        text.extend_from_slice(line.as_bytes())?;
        let mut sink = MemorySink::new(alloc, 7, Vec::new(alloc));
        let answer = read_again(alloc, text.as_slice(), 1, &mut sink)?;
        assert_eq!(rt; answer, (Some(LineFault::Syntax(rule)), 5), "{line}");
        assert_eq!(rt; sink.bytes(), b"q 1 0\n".as_slice(), "{line}");
    }
    Ok(())
}
