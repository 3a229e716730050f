// Headers in single bytes: those that are right, lines that are none, and a read that fails.
use icnf_lines::{HeaderFault, read_header};
use outside::MemorySource;
use session_rules::Rule;
use slice_tokens::Window;
use std::alloc::{AllocError, Global};
use std::test::Fail;

// A source that gives these bytes one by one, some of whose reads fail.
fn single_bytes(
    alloc: Global,
    bytes: &[u8],
    failing: Vec<u64>,
) -> Result<MemorySource, AllocError> {
    let mut pieces = Vec::new(alloc);
    for piece in bytes.chunks(1) {
        pieces.push(piece.to_vec(alloc)?)?;
    }
    Ok(MemorySource::new(pieces, failing))
}

// What reading this text's header answers, and the number of the line where the window then stands.
fn read_text(alloc: Global, text: &str) -> Result<(Result<(), HeaderFault>, u64), AllocError> {
    let mut source = single_bytes(alloc, text.as_bytes(), Vec::new(alloc))?;
    let mut window = Window::new(alloc)?;
    let answer = read_header(&mut window, &mut source, b"idrup");
    Ok((answer, window.line()))
}

#[test]
fn headers_are_their_two_words(rt: HostRuntime) -> Result<(), Fail> {
    let rows = [
        ("p idrup\n", 1),
        ("p idrup", 1),
        ("c p icnf\n\n \t\r\ncp\n\tp  idrup \r\ni 1 0\n", 5),
    ];
    for (text, line) in rows {
        let answer = read_text(rt.alloc(), text)?;
        assert_eq!(rt; answer, (Ok(()), line), "{text}");
    }
    Ok(())
}

#[test]
fn other_lines_are_no_headers(rt: HostRuntime) -> Result<(), Fail> {
    let rows = [
        ("p idrup 2\n", 1),
        ("p idrup p idrup\n", 1),
        ("p\nidrup\n", 1),
        ("p", 1),
        ("\nidrup p\n", 2),
        ("q idrup\n", 1),
        ("pp idrup\n", 1),
        ("p icnf\n", 1),
        ("p idru\n", 1),
        ("p idrups\n", 1),
        ("p IDRUP\n", 1),
        ("", 1),
        ("\n\nc p idrup\n", 4),
        ("ppppppppppppppppppppppppppppppppp idrup\n", 1),
        ("p idrupidrupidrupidrupidrupidrupidr\n", 1),
        ("c\np idrup idrupidrupidrupidrupidrupidrupidr\n", 2),
    ];
    for (text, line) in rows {
        let answer = read_text(rt.alloc(), text)?;
        let broken = HeaderFault::Syntax(Rule::Header);
        assert_eq!(rt; answer, (Err(broken), line), "{text}");
    }
    Ok(())
}

#[test]
fn a_failed_read_is_no_header(rt: HostRuntime) -> Result<(), Fail> {
    let alloc = rt.alloc();
    let text = b"\np icnf\n";
    for call in 1..text.len() as u64 + 2 {
        let mut source = single_bytes(alloc, text, vec![in alloc; call]?)?;
        let mut window = Window::new(alloc)?;
        let answer = read_header(&mut window, &mut source, b"icnf");
        if call <= text.len() as u64 {
            assert_eq!(rt; answer, Err(HeaderFault::Read), "{call}");
        } else {
            assert_eq!(rt; answer, Ok(()), "{call}");
        }
    }
    Ok(())
}
