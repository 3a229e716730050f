// Long chains of implications: many queries over one whose lines are scrambled, those from odd variables first, then those from
// even ones; and a lemma with a hint for each link, whose ids are deleted in one line.

ghost use Rattle.std.specs.Prelude.{◌≤◌};

use crate::running::check;
use std::alloc::{AllocError, Global};
use std::test::Fail;

const LAST: u64 = 8_000;

const QUERIES: u64 = 1_001;

// How many links the chain with ids has.
const LINKS: u64 = 1_001;

// A line of a letter and two literals, of which the first or the second is negated.
fn push_line(
    text: &mut Vec<u8>,
    line: &str,
    first: u64,
    between: &str,
    second: u64,
) -> Result<(), AllocError> {
    let alloc = *text.allocator();
    let bytes = format!(in alloc; "{line}{first}{between}{second} 0\n")?;
    text.extend_from_slice(bytes.as_bytes())
}

// The implications from each of these variables to the next, every second one.
fn push_implications(text: &mut Vec<u8>, from: u64) -> Result<(), AllocError>
    requires { from ≤ 2 }
{
    for step in 0..LAST / 2 {
        let variable = from + 2 * step;
        if variable < LAST {
            push_line(text, "i -", variable, " ", variable + 1)?;
        }
    }
    Ok(())
}

// A header, the implications from odd variables and then those from even ones, and the queries with their cores.
fn chain(alloc: Global, header: &str) -> Result<Vec<u8>, AllocError> {
    let mut text = header.as_bytes().to_vec(alloc)?;
    push_implications(&mut text, 1)?;
    push_implications(&mut text, 2)?;
    for query in 1..QUERIES + 1 {
        push_line(&mut text, "q ", query, " -", LAST)?;
        text.extend_from_slice(b"s UNSATISFIABLE\n")?;
        push_line(&mut text, "u ", query, " -", LAST)?;
    }
    Ok(text)
}

// A word with a number and a blank behind it.
fn push_number(text: &mut Vec<u8>, word: &str, number: u64) -> Result<(), AllocError> {
    let alloc = *text.allocator();
    let bytes = format!(in alloc; "{word}{number} ")?;
    text.extend_from_slice(bytes.as_bytes())
}

// The ids of all links, and the end of the list.
fn push_ids(text: &mut Vec<u8>) -> Result<(), AllocError> {
    for id in 1..LINKS + 1 {
        push_number(text, "", id)?;
    }
    text.extend_from_slice(b"0\n")
}

// A header and the links, each with its id where ids are given.
fn links(alloc: Global, header: &str, with_ids: bool) -> Result<Vec<u8>, AllocError> {
    let mut text = header.as_bytes().to_vec(alloc)?;
    for link in 1..LINKS + 1 {
        text.extend_from_slice(b"i ")?;
        if with_ids {
            push_number(&mut text, "", link)?;
        }
        push_line(&mut text, "-", link, " ", link + 1)?;
    }
    Ok(text)
}

// The proof with ids: a lemma from the chain's first literal to its last, the deletion of all links, and a query.
fn proof_with_ids(alloc: Global) -> Result<Vec<u8>, AllocError> {
    let mut text = links(alloc, "p lidrup\n", true)?;
    push_number(&mut text, "l ", LINKS + 1)?;
    push_number(&mut text, "-", 1)?;
    push_number(&mut text, "", LINKS + 1)?;
    text.extend_from_slice(b"0 ")?;
    push_ids(&mut text)?;
    text.extend_from_slice(b"d ")?;
    push_ids(&mut text)?;
    push_line(&mut text, "q ", 1, " -", LINKS + 1)?;
    text.extend_from_slice(b"s UNSATISFIABLE\nu 1 ")?;
    push_number(&mut text, "-", LINKS + 1)?;
    text.extend_from_slice(b"0 ")?;
    push_number(&mut text, "", LINKS + 1)?;
    text.extend_from_slice(b"0\n")?;
    Ok(text)
}

#[test]
fn a_line_may_have_many_ids_and_hints(rt: HostRuntime) -> Result<(), Fail> {
    let alloc = rt.alloc();
    let mut interaction = links(alloc, "p icnf\n", false)?;
    push_line(&mut interaction, "q ", 1, " -", LINKS + 1)?;
    interaction.extend_from_slice(b"s UNSATISFIABLE\n")?;
    push_line(&mut interaction, "u ", 1, " -", LINKS + 1)?;
    let proof = proof_with_ids(alloc)?;
    let ran = check(alloc, &interaction, &proof, 65_536)?;
    assert_eq!(rt; ran.report.bytes(), b"accepted 1 queries\n".as_slice());
    Ok(())
}

#[test]
fn a_scrambled_chain_is_accepted(rt: HostRuntime) -> Result<(), Fail> {
    let alloc = rt.alloc();
    let interaction = chain(alloc, "p icnf\n")?;
    let proof = chain(alloc, "p idrup\n")?;
    let ran = check(alloc, &interaction, &proof, 65_536)?;
    assert_eq!(rt; ran.report.bytes(), b"accepted 1001 queries\n".as_slice());
    Ok(())
}
