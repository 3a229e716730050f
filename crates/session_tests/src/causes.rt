// What the top call answers where a stream, the report or the command line is at fault, and pairs in other shapes.

use crate::running::{check, source, text, words};
use idrup_cli::run;
use outside::MemorySink;
use std::alloc::{AllocError, Global};
use std::test::Fail;

const INTERACTION: &[u8] = b"p icnf\ni 1 0\nq 0\ns SATISFIABLE\nm 1 0\n";

const PROOF: &[u8] = b"p idrup\ni 1 0\nq 0\ns SATISFIABLE\nm 1 0\n";

const USAGE: &str =
    "usage: idrup check [--lidrup] ICNF PROOF, solve [--lidrup] SCRIPT ICNF PROOF, convert IDRUP LIDRUP, demo N ICNF PROOF";

/// A run whose calls of these numbers fail, and how it ends.
struct Case {
    words: &'static str,
    interaction: u64,
    proof: u64,
    report: u64,
    status: u8,
    line: &'static str,
}

const CASES: [Case; 11] = [
    Case {
        words: "check i p",
        interaction: 0,
        proof: 0,
        report: 0,
        status: 0,
        line: "accepted 1 queries",
    },
    Case {
        words: "check i p",
        interaction: 0,
        proof: 2,
        report: 0,
        status: 3,
        line: "read fault proof",
    },
    Case {
        words: "check i p",
        interaction: 1,
        proof: 1,
        report: 0,
        status: 3,
        line: "read fault interaction",
    },
    Case {
        words: "check i p",
        interaction: 2,
        proof: 0,
        report: 0,
        status: 3,
        line: "read fault interaction",
    },
    Case {
        words: "check i p",
        interaction: 0,
        proof: 0,
        report: 1,
        status: 4,
        line: "",
    },
    Case {
        words: "check i p",
        interaction: 0,
        proof: 0,
        report: 2,
        status: 4,
        line: "accepted 1 queries",
    },
    Case {
        words: "check --lidrup i p",
        interaction: 0,
        proof: 0,
        report: 0,
        status: 1,
        line: "refused proof 1 Header",
    },
    Case {
        words: "check i",
        interaction: 1,
        proof: 1,
        report: 0,
        status: 2,
        line: USAGE,
    },
    Case {
        words: "check i -p",
        interaction: 1,
        proof: 1,
        report: 0,
        status: 2,
        line: USAGE,
    },
    Case {
        words: "solve s x x",
        interaction: 1,
        proof: 1,
        report: 0,
        status: 2,
        line: USAGE,
    },
    Case {
        words: "demo 3",
        interaction: 1,
        proof: 1,
        report: 0,
        status: 2,
        line: USAGE,
    },
];

// Whether a case ends so.
fn ends_so(alloc: Global, case: &Case) -> Result<bool, AllocError> {
    let words = words(alloc, case.words)?;
    let mut first = source(alloc, INTERACTION, 10, &[case.interaction])?;
    let mut second = source(alloc, PROOF, 10, &[case.proof])?;
    let mut out = MemorySink::new(alloc, 1, Vec::new(alloc));
    let mut lines = MemorySink::new(alloc, 1, Vec::new(alloc));
    let mut report = MemorySink::new(alloc, 200, vec![in alloc; case.report]?);
    let status = run(
        alloc,
        words.as_slice(),
        &mut first,
        &mut second,
        &mut out,
        &mut lines,
        &mut report,
    );
    let line = text(alloc, case.line)?;
    Ok(status == case.status && report.bytes() == line.as_slice() && out.bytes().is_empty())
}

#[test]
fn each_fault_has_its_status_and_its_line(rt: HostRuntime) -> Result<(), Fail> {
    for case in CASES.iter() {
        let so = ends_so(rt.alloc(), case)?;
        assert!(rt;
            so,
            "{} with {} {} {}",
            case.words, case.interaction, case.proof, case.report
        );
    }
    Ok(())
}

const LINES: &str = "i 1 2 0 / i -1 2 0 / q -2 0 / s UNSATISFIABLE / u -2 0";

// A header behind some bytes, and the lines with each LF and each blank replaced.
fn shaped(
    alloc: Global,
    before: &[u8],
    header: &[u8],
    line_end: &[u8],
    blank: &[u8],
) -> Result<Vec<u8>, AllocError> {
    let mut bytes = before.to_vec(alloc)?;
    bytes.extend_from_slice(header)?;
    bytes.push(b'\n')?;
    for byte in text(alloc, LINES)?.iter() {
        match *byte {
            b'\n' => bytes.extend_from_slice(line_end)?,
            b' ' => bytes.extend_from_slice(blank)?,
            other => bytes.push(other)?,
        }
    }
    Ok(bytes)
}

// A comment line of so many bytes, its line feed among them.
fn comment(alloc: Global, bytes: usize) -> Result<Vec<u8>, AllocError> {
    let mut line = vec![in alloc; b'-'; bytes]?;
    if let Some(first) = line.first_mut() {
        *first = b'c';
    }
    if let Some(last) = line.last_mut() {
        *last = b'\n';
    }
    Ok(line)
}

#[test]
fn the_shape_of_lines_does_not_matter(rt: HostRuntime) -> Result<(), Fail> {
    let alloc = rt.alloc();
    let hyphens = comment(alloc, 102)?;
    let long = comment(alloc, 65_533)?;
    let shapes: [(&[u8], &[u8], &[u8]); 6] = [
        (b"", b"\r\n", b" "),
        (b"", b"\n", b"\t"),
        (b"\n \n", b"\n\n\r\n", b"  "),
        (&hyphens, b"\n", b" "),
        (&long, b"\n", b" "),
        (b"c\n", b" \nc i 9 0\n", b" "),
    ];
    for (before, line_end, blank) in shapes.iter() {
        let interaction = shaped(alloc, before, b"p icnf", line_end, blank)?;
        let proof = shaped(alloc, before, b"p idrup", line_end, blank)?;
        for size in [1, 2, 65_535, 65_536] {
            let ran = check(alloc, &interaction, &proof, size)?;
            assert_eq!(rt; ran.status, 0);
            assert_eq!(rt; ran.report.bytes(), b"accepted 1 queries\n".as_slice());
        }
    }
    Ok(())
}

#[test]
fn the_last_line_feed_may_be_left_out(rt: HostRuntime) -> Result<(), Fail> {
    let alloc = rt.alloc();
    let interaction = INTERACTION.split_at(INTERACTION.len() - 1).0;
    let proof = PROOF.split_at(PROOF.len() - 1).0;
    for size in [1, 2, 65_535, 65_536] {
        let ran = check(alloc, interaction, proof, size)?;
        assert_eq!(rt; ran.status, 0);
        assert_eq!(rt; ran.report.bytes(), b"accepted 1 queries\n".as_slice());
    }
    Ok(())
}
