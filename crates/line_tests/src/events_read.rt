// Texts that are read in pieces and written again, and broken lines with the rule of each.
ghost use Rattle.std.specs.Prelude.{◌<◌};

use icnf_lines::{read_header, read_line, read_script_line, write_line};
use line_reading::Spare;
use outside::{MemorySink, MemorySource};
use session_rules::{LineFault, Rule};
use slice_tokens::Window;
use std::alloc::{AllocError, Global};
use std::test::Fail;

// Reads the lines of a text that comes in pieces of so many bytes, and writes them again, up to the first fault. Answers
// that fault, and the number of the line where the reading ended; line 0 is a header that wasn't read.
fn read_again(
    alloc: Global,
    text: &[u8],
    most: usize,
    sink: &mut MemorySink,
) -> Result<(Option<LineFault>, u64), AllocError>
    requires { 0 < most }
{
    let mut pieces = Vec::new(alloc);
    for piece in text.chunks(most) {
        pieces.push(piece.to_vec(alloc)?)?;
    }
    let mut source = MemorySource::new(pieces, Vec::new(alloc));
    let mut window = Window::new(alloc)?;
    if read_header(&mut window, &mut source, b"icnf").is_err() {
        return Ok((None, 0));
    }
    let mut spare = Spare::new(alloc);
    let mut room = 100_000;
    for _ in 0..20 {
        match read_line(&mut spare, &mut window, &mut source) {
            Ok(Some(line)) => {
                let _ = write_line(sink, &mut room, &line);
            }
            Ok(None) => return Ok((None, window.line())),
            Err(fault) => return Ok((Some(fault), window.line())),
        }
    }
    Ok((None, 0))
}

// An input of so many literals.
fn long_input(alloc: Global, count: u32) -> Result<Vec<u8>, AllocError> {
    let mut text = b"i".to_vec(alloc)?;
    for i in 0..count {
        text.extend_from_slice(b" 1")?;
        text.push(b'0' + (i % 10) as u8)?;
    }
    text.extend_from_slice(b" 0")?;
    Ok(text)
}

#[test]
fn lines_are_read_as_they_are_written(rt: HostRuntime) -> Result<(), Fail> {
    let alloc = rt.alloc();
    let text =
        "p icnf\ni 1 -2 0\nc a comment\n\n i\t0\r\nq -2 2147483647 -2 0\ns SATISFIABLE\nm -1 2 0\ns UNSATISFIABLE\nu -2 0\ns UNKNOWN\nv -1 0\nf\t-2  0";
    let wanted =
        "i 1 -2 0\ni 0\nq -2 2147483647 -2 0\ns SATISFIABLE\nm -1 2 0\ns UNSATISFIABLE\nu -2 0\ns UNKNOWN\nv -1 0\nf -2 0\n";
    for most in [1, 1_000] {
        let mut sink = MemorySink::new(alloc, 7, Vec::new(alloc));
        let answer = read_again(alloc, text.as_bytes(), most, &mut sink)?;
        assert_eq!(rt; answer, (None, 13), "{most}");
        assert_eq!(rt; sink.bytes(), wanted.as_bytes(), "{most}");
        let mut line = long_input(alloc, 20_000)?;
        let mut text = b"p icnf\n".to_vec(alloc)?;
        text.extend_from_slice(&line)?;
        let mut sink = MemorySink::new(alloc, 1_000, Vec::new(alloc));
        let answer = read_again(alloc, text.as_slice(), most, &mut sink)?;
        assert_eq!(rt; answer, (None, 2), "a long input, {most}");
        line.push(b'\n')?;
        assert_eq!(rt; sink.bytes(), line.as_slice(), "a long input, {most}");
    }
    Ok(())
}

#[test]
fn broken_lines_are_refused_in_single_bytes(rt: HostRuntime) -> Result<(), Fail> {
    let alloc = rt.alloc();
    let rows = [
        ("l 1 0", Rule::Letter),
        ("d 1 0", Rule::Letter),
        ("w 1 0", Rule::Letter),
        ("r 1 0", Rule::Letter),
        ("x 1 0", Rule::Letter),
        ("qq 1 0", Rule::Letter),
        ("I 1 0", Rule::Letter),
        ("p icnf", Rule::Letter),
        ("iiiiiiiiiiiiiiiiiiiiiiiiiiiiiiiii 1 0", Rule::Letter),
        ("i", Rule::Unclosed),
        ("i 1", Rule::Unclosed),
        ("m -1 2", Rule::Unclosed),
        ("u", Rule::Unclosed),
        ("v 1", Rule::Unclosed),
        ("f 1 0 0", Rule::Excess),
        ("v 1 x 0", Rule::Number),
        ("i 1 0 0", Rule::Excess),
        ("s SATISFIABLE 0", Rule::Excess),
        ("m 0 111111111111111111111111111111111", Rule::Excess),
        ("s UNKNOWN 111111111111111111111111111111111", Rule::Excess),
        ("q 01 0", Rule::Number),
        ("i -0 0", Rule::Number),
        ("i 00", Rule::Number),
        ("u +1 0", Rule::Number),
        ("m - 0", Rule::Number),
        ("i 1 2- 0", Rule::Number),
        ("i 111111111111111111111111111111111 0", Rule::Number),
        ("i 01 2147483648 0", Rule::Number),
        ("i 2147483648 0", Rule::Range),
        ("q 1 -2147483648 0", Rule::Range),
        ("i 2147483648 01 0", Rule::Range),
        ("s SAT", Rule::Word),
        ("s", Rule::Word),
        ("s satisfiable", Rule::Word),
        ("s SATISFIABL", Rule::Word),
        ("s UNKNOWNS", Rule::Word),
        ("s SATISFIABLESATISFIABLESATISFIABLE", Rule::Word),
    ];
    for (line, rule) in rows {
        let mut text = b"c\n\np icnf\nq 1 0\n".to_vec(alloc)?;
        text.extend_from_slice(line.as_bytes())?;
        let mut sink = MemorySink::new(alloc, 7, Vec::new(alloc));
        let answer = read_again(alloc, text.as_slice(), 1, &mut sink)?;
        assert_eq!(rt; answer, (Some(LineFault::Syntax(rule)), 5), "{line}");
        assert_eq!(rt; sink.bytes(), b"q 1 0\n".as_slice(), "{line}");
    }
    Ok(())
}

// The second line of a script whose first is `q 1 0`, in pieces of one byte: whether it is there, or how it fails.
fn second_of_script(alloc: Global, line: &[u8]) -> Result<Result<bool, LineFault>, AllocError> {
    let mut text = b"q 1 0\n".to_vec(alloc)?;
    text.extend_from_slice(line)?;
    let mut pieces = Vec::new(alloc);
    for byte in text.chunks(1) {
        pieces.push(byte.to_vec(alloc)?)?;
    }
    let mut source = MemorySource::new(pieces, Vec::new(alloc));
    let mut window = Window::new(alloc)?;
    let mut spare = Spare::new(alloc);
    let _ = read_script_line(&mut spare, &mut window, &mut source);
    match read_script_line(&mut spare, &mut window, &mut source) {
        Ok(event) => Ok(Ok(event.is_some())),
        Err(fault) => Ok(Err(fault)),
    }
}

#[test]
fn a_script_has_inputs_and_queries_alone(rt: HostRuntime) -> Result<(), Fail> {
    let alloc = rt.alloc();
    assert_eq!(rt; second_of_script(alloc, b"")?, Ok(false));
    assert_eq!(rt; second_of_script(alloc, b"c\n i -3 0")?, Ok(true));
    let letter = Err(LineFault::Syntax(Rule::Letter));
    assert_eq!(rt; second_of_script(alloc, b"s SATISFIABLE")?, letter);
    Ok(())
}
