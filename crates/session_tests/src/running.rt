// How a pair is run through the top call.

use idrup_cli::run;
use outside::{MemorySink, MemorySource};
use std::alloc::{AllocError, Global};

/// The bytes of some lines, which a slash between blanks divides in the tables; each is ended by a line feed.
pub(crate) fn text(alloc: Global, lines: &str) -> Result<Vec<u8>, AllocError> {
    let mut bytes = Vec::new(alloc);
    if lines.is_empty() {
        return Ok(bytes);
    }
    for line in lines.split(" / ") {
        bytes.extend_from_slice(line.as_bytes())?;
        bytes.push(b'\n')?;
    }
    Ok(bytes)
}

/// A source that gives these bytes in pieces of this size, whose calls of these numbers fail.
pub(crate) fn source(
    alloc: Global,
    bytes: &[u8],
    size: usize,
    failing: &[u64],
) -> Result<MemorySource, AllocError> {
    let mut pieces = Vec::new(alloc);
    let mut rest = bytes;
    for _ in 0..bytes.len() {
        if rest.is_empty() {
            break;
        }
        let (piece, more) = rest.split_at(size.max(1).min(rest.len()));
        pieces.push(piece.to_vec(alloc)?)?;
        rest = more;
    }
    Ok(MemorySource::new(pieces, failing.to_vec(alloc)?))
}

/// Words of a command line, which blanks divide here.
pub(crate) fn words(alloc: Global, line: &str) -> Result<Vec<String>, AllocError> {
    let mut words = Vec::new(alloc);
    for word in line.split(' ') {
        words.push(String::from_str(alloc, word)?)?;
    }
    Ok(words)
}

/// How a run of the top call ended.
#[derive(Drop)]
pub(crate) struct Ran {
    pub(crate) status: u8,
    pub(crate) report: MemorySink,
}

/// Checks a pair; the proof's header tells the form.
pub(crate) fn check(
    alloc: Global,
    interaction: &[u8],
    proof: &[u8],
    size: usize,
) -> Result<Ran, AllocError> {
    let line = if proof.starts_with(b"p lidrup") {
        "check --lidrup i p"
    } else {
        "check i p"
    };
    let words = words(alloc, line)?;
    let mut first = source(alloc, interaction, size, &[])?;
    let mut second = source(alloc, proof, size, &[])?;
    let mut out = MemorySink::new(alloc, 1, Vec::new(alloc));
    let mut lines = MemorySink::new(alloc, 1, Vec::new(alloc));
    let mut report = MemorySink::new(alloc, 64, Vec::new(alloc));
    let status = run(
        alloc,
        words.as_slice(),
        &mut first,
        &mut second,
        &mut out,
        &mut lines,
        &mut report,
    );
    Ok(Ran { status, report })
}
