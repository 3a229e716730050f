// Proofs by literals that are converted: how the conversion ends, what is written then, and that a whole target is accepted where its
// source is.

use crate::pairs::is_told;
use crate::running::{source, text};
use hint_converter::{ConvertEnd, ConvertFault, convert};
use outside::MemorySink;
use session_rules::Rule;
use std::alloc::{AllocError, Global};
use std::test::Fail;

/// A proof by literals, how its conversion ends, and what the target holds then.
struct Case {
    proof: &'static str,
    end: ConvertEnd,
    target: &'static str,
}

const CASES: [Case; 9] = [
    // A clause that is set aside and taken back keeps its id, and a set has its least one.
    Case {
        proof: "p idrup / i 1 2 0 / i 2 1 0 / w 1 2 0 / r 2 1 0 / q 0 / s SATISFIABLE / m 1 0",
        end: ConvertEnd::Done { lines: 7 },
        target: "p lidrup / i 1 1 2 0 / i 2 2 1 0 / w 1 0 / r 1 0 / q 0 / s SATISFIABLE / m 1 0",
    },
    Case {
        proof: "p idrup / i 1 2 0 / i -1 2 0 / w 1 2 0 / l 2 0",
        end: ConvertEnd::Refused {
            line: 5,
            rule: Rule::Lemma,
        },
        target: "p lidrup / i 1 1 2 0 / i 2 -1 2 0 / w 1 0",
    },
    Case {
        proof: "p icnf / i 1 0",
        end: ConvertEnd::Refused {
            line: 1,
            rule: Rule::Header,
        },
        target: "",
    },
    Case {
        proof: "p idrup / i 1 0 / i x 0",
        end: ConvertEnd::Refused {
            line: 3,
            rule: Rule::Number,
        },
        target: "p lidrup / i 1 1 0",
    },
    Case {
        proof: "p idrup / i 1 0 / q 1 0",
        end: ConvertEnd::Refused {
            line: 4,
            rule: Rule::Unfinished,
        },
        target: "p lidrup / i 1 1 0 / q 1 0",
    },
    Case {
        proof: "p idrup / i 1 2 0 / d 1 0",
        end: ConvertEnd::Refused {
            line: 3,
            rule: Rule::NotActive(1),
        },
        target: "p lidrup / i 1 1 2 0",
    },
    Case {
        proof: "p idrup / i 1 2 0 / r 1 2 0",
        end: ConvertEnd::Refused {
            line: 3,
            rule: Rule::NotWeakened(1),
        },
        target: "p lidrup / i 1 1 2 0",
    },
    Case {
        proof: "p idrup / s UNKNOWN",
        end: ConvertEnd::Refused {
            line: 2,
            rule: Rule::Order,
        },
        target: "p lidrup",
    },
    Case {
        proof: "p idrup / q 1 0 / s UNSATISFIABLE / u 1 0",
        end: ConvertEnd::Refused {
            line: 4,
            rule: Rule::CoreOpen,
        },
        target: "p lidrup / q 1 0 / s UNSATISFIABLE",
    },
];

/// Whether a conversion ends so, and leaves so much.
fn ends_so(alloc: Global, case: &Case, size: usize) -> Result<bool, AllocError> {
    let bytes = text(alloc, case.proof)?;
    let mut proof = source(alloc, bytes.as_slice(), size, &[])?;
    let mut target = MemorySink::new(alloc, 7, Vec::new(alloc));
    let same_end = match convert(alloc, &mut proof, &mut target) {
        Ok(end) => end == case.end,
        Err(_) => false,
    };
    let expected = text(alloc, case.target)?;
    Ok(same_end && target.bytes() == expected.as_slice())
}

/// The first case that ends otherwise, where its source comes in pieces of this size.
fn first_otherwise(alloc: Global, size: usize) -> Result<Option<usize>, AllocError> {
    for (place, case) in CASES.iter().enumerate() {
        if !ends_so(alloc, case, size)? {
            return Ok(Some(place));
        }
    }
    Ok(None)
}

#[test]
fn the_target_holds_the_lines_before_a_fault(rt: HostRuntime) -> Result<(), Fail> {
    assert_eq!(rt; first_otherwise(rt.alloc(), 1)?, None);
    assert_eq!(rt; first_otherwise(rt.alloc(), 65_536)?, None);
    Ok(())
}

const INTERACTION: &str =
    "p icnf / i 1 0 / i -1 2 0 / q -2 0 / s UNSATISFIABLE / u -2 0 / i -2 3 4 0 / q -3 0 / s SATISFIABLE / m 1 2 -3 4 0 / q -3 -4 0 / s UNSATISFIABLE / u -3 -4 0 / i -4 0 / q -3 0 / s UNSATISFIABLE / u -3 0";

const PROOF: &str =
    "p idrup / i 1 0 / i -1 2 0 / q -2 0 / s UNSATISFIABLE / u -2 0 / l 2 0 / d -1 2 0 / w 1 0 / i -2 3 4 0 / q -3 0 / s SATISFIABLE / m 1 2 -3 4 0 / q -3 -4 0 / s UNSATISFIABLE / u -3 -4 0 / i -4 0 / q -3 0 / s UNSATISFIABLE / u -3 0";

#[test]
fn a_target_is_accepted_where_its_source_is(rt: HostRuntime) -> Result<(), Fail> {
    let interaction = text(rt.alloc(), INTERACTION)?;
    let bytes = text(rt.alloc(), PROOF)?;
    let mut proof = source(rt.alloc(), bytes.as_slice(), 65_536, &[])?;
    let mut target = MemorySink::new(rt.alloc(), 64, Vec::new(rt.alloc()));
    let end = convert(rt.alloc(), &mut proof, &mut target);
    assert_eq!(rt; end, Ok(ConvertEnd::Done { lines: 19 }));
    let report = "accepted 4 queries";
    assert_eq!(rt;
        is_told(
            rt.alloc(),
            interaction.as_slice(),
            bytes.as_slice(),
            7,
            report
        )?,
        true
    );
    assert_eq!(rt;
        is_told(
            rt.alloc(),
            interaction.as_slice(),
            target.bytes(),
            7,
            report
        )?,
        true
    );
    Ok(())
}

#[test]
fn a_fault_of_a_stream_ends_the_conversion(rt: HostRuntime) -> Result<(), Fail> {
    let bytes = text(rt.alloc(), "p idrup / i 1 0")?;
    for (call, left) in [
        (1, ""),
        (2, "p lidru"),
        (3, "p lidrup\n"),
        (4, "p lidrup\ni 1 1 0"),
    ] {
        let mut proof = source(rt.alloc(), bytes.as_slice(), 65_536, &[])?;
        let mut target = MemorySink::new(rt.alloc(), 7, vec![in rt.alloc(); call]?);
        let end = convert(rt.alloc(), &mut proof, &mut target);
        assert_eq!(rt; end, Err(ConvertFault::Write));
        assert_eq!(rt; target.bytes(), left.as_bytes());
    }
    let mut proof = source(rt.alloc(), bytes.as_slice(), 65_536, &[1])?;
    let mut target = MemorySink::new(rt.alloc(), 7, Vec::new(rt.alloc()));
    let end = convert(rt.alloc(), &mut proof, &mut target);
    assert_eq!(rt; end, Err(ConvertFault::Read));
    assert_eq!(rt; target.bytes().is_empty(), true);
    Ok(())
}
