// Lines and words in pieces of all sizes, across the end of the buffer, and over reads that fail.
ghost use Rattle.std.specs.Prelude.{◌<◌, None};
ghost use Rattle.std.specs.Io.{ReadsAtMost};
ghost use Rattle.std.specs.Io.KnownBytes.{ReadConsumes};
ghost use Rattle.outside.specs.Faults.{HasCause};

use outside::{Failed, MemorySource, Source};
use slice_tokens::{Token, TokenFault, Window};
use std::alloc::{AllocError, Global};
use std::test::Fail;

// These bytes in pieces of so many.
fn in_pieces(alloc: Global, bytes: &[u8], most: usize) -> Result<MemorySource, AllocError>
    requires { 0 < most }
{
    let mut pieces = Vec::new(alloc);
    for piece in bytes.chunks(most) {
        pieces.push(piece.to_vec(alloc)?)?;
    }
    Ok(MemorySource::new(pieces, Vec::new(alloc)))
}

// The words that are left in the line, each after a space, and then what is in their way.
fn spell_words<S: Source>(
    window: &mut Window,
    source: &mut S,
    text: &mut Vec<u8>,
) -> Result<(), AllocError> {
    for _ in 0..100 {
        match window.next(source) {
            Ok(Token::Word(word)) => {
                text.push(b' ')?;
                text.extend_from_slice(word)?;
            }
            Ok(Token::LineEnd) => return Ok(()),
            Err(TokenFault::LongWord) => return text.extend_from_slice(b" long"),
            Err(_) => return text.extend_from_slice(b" fault"),
        }
    }
    Ok(())
}

// The content lines, each with its number and its words and ended by a slash, and then the number of the last line.
fn spell_lines<S: Source>(alloc: Global, source: &mut S) -> Result<Vec<u8>, AllocError> {
    let mut window = Window::new(alloc)?;
    let mut text = Vec::new(alloc);
    for _ in 0..100 {
        let has_line = match window.next_line(source) {
            Ok(has_line) => has_line,
            Err(_) => {
                text.extend_from_slice(b"fault ")?;
                continue;
            }
        };
        let number = window.line().to_string(alloc)?;
        text.extend_from_slice(number.as_bytes())?;
        if !has_line {
            return Ok(text);
        }
        spell_words(&mut window, source, &mut text)?;
        text.push(b'/')?;
    }
    Ok(text)
}

#[test]
fn lines_of_all_shapes_are_read_in_all_pieces(rt: HostRuntime) -> Result<(), Fail> {
    let alloc = rt.alloc();
    let texts = [
        "",
        "c",
        "\n",
        "p icnf\ni 1 2 0\n",
        "p icnf\r\ni 1 2 0\r\n",
        "\tp\ticnf\t\ni\t1 \t2\t0",
        "\n \t\r\n p icnf\n\ncat i 1 0 1234567890123456789012345678901234\nq 0\n  c",
        "i \u{0} c\n",
        "i 12345678901234567890123456789012 0\n",
        "i 123456789012345678901234567890123 0\nq 0",
    ];
    let wanted = [
        "1",
        "1",
        "2",
        "1 p icnf/2 i 1 2 0/3",
        "1 p icnf/2 i 1 2 0/3",
        "1 p icnf/2 i 1 2 0/2",
        "3 p icnf/6 q 0/7",
        "1 i \u{0} c/2",
        "1 i 12345678901234567890123456789012 0/2",
        "1 i long/2 q 0/2",
    ];
    for i in 0..10usize {
        for most in [1, 2, 65_535, 65_536] {
            let mut source = in_pieces(alloc, texts[i].as_bytes(), most)?;
            let spelled = spell_lines(alloc, &mut source)?;
            assert_eq!(rt;
                spelled.as_slice(),
                wanted[i].as_bytes(),
                "text {i}, pieces of {most}"
            );
        }
    }
    Ok(())
}

#[test]
fn words_across_the_end_of_the_buffer_are_whole(rt: HostRuntime) -> Result<(), Fail> {
    let alloc = rt.alloc();
    for len in [65_532, 65_533, 65_536, 131_070] {
        for most in [1, 2, 65_535, 65_536] {
            let mut text = vec![in alloc; b'-'; len]?;
            text[0] = b'c';
            text[len - 1] = b'\n';
            text.extend_from_slice(b"p icnf\nq 0\n")?;
            let mut source = in_pieces(alloc, &text, most)?;
            let spelled = spell_lines(alloc, &mut source)?;
            assert_eq!(rt;
                spelled.as_slice(),
                b"2 p icnf/3 q 0/4".as_slice(),
                "comment of {len}, pieces of {most}"
            );
        }
    }
    Ok(())
}

#[test]
fn a_hundred_thousand_bytes_are_one_long_word(rt: HostRuntime) -> Result<(), Fail> {
    let alloc = rt.alloc();
    let text = vec![in alloc; 255; 100_000]?;
    let mut source = in_pieces(alloc, &text, 65_536)?;
    let mut window = Window::new(alloc)?;
    assert_eq!(rt; window.next(&mut source), Ok(Token::LineEnd));
    assert_eq!(rt; window.next_line(&mut source), Ok(true));
    for _ in 0..2 {
        assert_eq!(rt; window.next(&mut source), Err(TokenFault::LongWord));
        assert_eq!(rt; window.next_line(&mut source), Ok(true));
    }
    assert_eq!(rt; window.line(), 1);
    Ok(())
}

#[test]
fn reading_goes_on_after_a_read_that_failed(rt: HostRuntime) -> Result<(), Fail> {
    let alloc = rt.alloc();
    let pieces = vec![in alloc;
        b"c x".to_vec(alloc)?,
        b" y\ni 1".to_vec(alloc)?,
        b"2 0\nq 0".to_vec(alloc)?,
    ]?;
    let mut source = MemorySource::new(pieces, vec![in alloc; 2, 4]?);
    let mut window = Window::new(alloc)?;
    assert_eq!(rt; window.next_line(&mut source), Err(TokenFault::Read));
    assert_eq!(rt; window.line(), 1);
    assert_eq!(rt; window.next(&mut source), Ok(Token::LineEnd));
    assert_eq!(rt; window.next_line(&mut source), Ok(true));
    assert_eq!(rt; window.line(), 2);
    assert_eq!(rt; window.next(&mut source), Ok(Token::Word(b"i")));
    assert_eq!(rt; window.next(&mut source), Err(TokenFault::Read));
    assert_eq!(rt; window.next(&mut source), Ok(Token::Word(b"12")));
    assert_eq!(rt; window.next_line(&mut source), Ok(true));
    assert_eq!(rt; window.next(&mut source), Ok(Token::Word(b"q")));
    assert_eq!(rt; window.next(&mut source), Ok(Token::Word(b"0")));
    for _ in 0..2 {
        assert_eq!(rt; window.next(&mut source), Ok(Token::LineEnd));
    }
    assert_eq!(rt; window.next_line(&mut source), Ok(false));
    assert_eq!(rt; window.line(), 3);
    Ok(())
}

#[test]
fn a_word_is_seen_before_it_is_taken(rt: HostRuntime) -> Result<(), Fail> {
    let alloc = rt.alloc();
    let text = b"c x\n i 12\n123456789012345678901234567890123 0\nq";
    for most in [1, 2, 65_536] {
        let mut source = in_pieces(alloc, text, most)?;
        let mut window = Window::new(alloc)?;
        assert_eq!(rt; window.peek(&mut source), Ok(Token::LineEnd));
        assert_eq!(rt; window.next_line(&mut source), Ok(true));
        for word in [b"i".as_slice(), b"12".as_slice()] {
            for _ in 0..2 {
                assert_eq!(rt; window.peek(&mut source), Ok(Token::Word(word)));
            }
            assert_eq!(rt; window.next(&mut source), Ok(Token::Word(word)));
        }
        assert_eq!(rt; window.peek(&mut source), Ok(Token::LineEnd));
        assert_eq!(rt; window.next(&mut source), Ok(Token::LineEnd));
        assert_eq!(rt; window.next_line(&mut source), Ok(true));
        for _ in 0..2 {
            assert_eq!(rt; window.peek(&mut source), Err(TokenFault::LongWord));
            assert_eq!(rt; window.next_line(&mut source), Ok(true));
            assert_eq!(rt; window.line(), 3);
        }
    }
    Ok(())
}

#[test]
fn a_line_is_due_until_its_first_word_is_taken(rt: HostRuntime) -> Result<(), Fail> {
    let alloc = rt.alloc();
    for most in [1, 2, 65_536] {
        let mut source = in_pieces(alloc, b"\n  i 1\nc x\nq 2", most)?;
        let mut window = Window::new(alloc)?;
        for _ in 0..3 {
            assert_eq!(rt; window.next_line(&mut source), Ok(true));
            assert_eq!(rt; window.line(), 2);
            assert_eq!(rt; window.peek(&mut source), Ok(Token::Word(b"i")));
        }
        assert_eq!(rt; window.next(&mut source), Ok(Token::Word(b"i")));
        assert_eq!(rt; window.peek(&mut source), Ok(Token::Word(b"1")));
        assert_eq!(rt; window.next_line(&mut source), Ok(true));
        assert_eq!(rt; window.line(), 4);
        for word in [b"q".as_slice(), b"2".as_slice()] {
            assert_eq!(rt; window.peek(&mut source), Ok(Token::Word(word)));
            assert_eq!(rt; window.next(&mut source), Ok(Token::Word(word)));
        }
        assert_eq!(rt; window.peek(&mut source), Ok(Token::LineEnd));
        for _ in 0..2 {
            assert_eq!(rt; window.next_line(&mut source), Ok(false));
        }
        assert_eq!(rt; window.peek(&mut source), Ok(Token::LineEnd));
    }
    Ok(())
}

#[test]
fn a_word_is_seen_after_a_read_that_failed(rt: HostRuntime) -> Result<(), Fail> {
    let alloc = rt.alloc();
    let pieces = vec![in alloc; b"1".to_vec(alloc)?, b"2 0".to_vec(alloc)?]?;
    let mut source = MemorySource::new(pieces, vec![in alloc; 2]?);
    let mut window = Window::new(alloc)?;
    assert_eq!(rt; window.next_line(&mut source), Ok(true));
    assert_eq!(rt; window.peek(&mut source), Err(TokenFault::Read));
    assert_eq!(rt; window.next_line(&mut source), Ok(true));
    assert_eq!(rt; window.peek(&mut source), Ok(Token::Word(b"12")));
    assert_eq!(rt; window.next(&mut source), Ok(Token::Word(b"12")));
    assert_eq!(rt; window.next(&mut source), Ok(Token::Word(b"0")));
    Ok(())
}

// Gives words of 10 bytes, and keeps the length of the shortest buffer that it was asked to fill.
#[derive(Drop)]
struct Shortest {
    calls: u64,
    len: usize,
}

impl Source for Shortest {
    ghost left = { λ s. None };

    ghost faults = { λ s. 0 };

    fn read(&mut self, buf: &mut [u8]) -> Result<usize, Failed>
        ensures bound { ReadsAtMost result buf.new }
        ensures bytes { ReadConsumes None None result buf.new }
        ensures cause { HasCause 0 0 result }
    {
        self.len = self.len.min(buf.len());
        if self.calls == 3 {
            return Ok(0);
        }
        self.calls = self.calls.wrapping_add(1);
        for (i, b) in buf.iter_mut().enumerate() {
            *b = if i % 11 == 10 { b' ' } else { b'1' };
        }
        Ok(buf.len())
    }
}

#[test]
fn each_read_is_of_all_but_a_words_room(rt: HostRuntime) -> Result<(), Fail> {
    let mut source = Shortest {
        calls: 0,
        len: 65_536,
    };
    let mut window = Window::new(rt.alloc())?;
    assert_eq!(rt; window.next_line(&mut source), Ok(true));
    let mut words = 0u64;
    for _ in 0..100_000 {
        match window.next(&mut source) {
            Ok(Token::Word(_)) => words = words.wrapping_add(1),
            _ => break,
        }
    }
    assert!(rt; words > 17_000);
    assert!(rt; source.len >= 65_504);
    Ok(())
}
