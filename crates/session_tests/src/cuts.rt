// A pair of which one file is cut to its first bytes, and files that no solver would write.

use crate::pairs::{Pair, first_told_otherwise, is_told};
use std::alloc::{AllocError, Global};
use std::test::Fail;

const INTERACTION: &[u8] = b"p icnf\ni 1 0\nq 0\ns SATISFIABLE\nm 1 0\n";

const PROOF: &[u8] = b"p idrup\ni 1 0\nq 0\ns SATISFIABLE\nm 1 0\n";

/// The report where a file is cut to any number of bytes from the first to the last of these.
type Cut = (usize, usize, &'static str);

const PROOF_CUTS: [Cut; 12] = [
    (0, 6, "refused proof 1 Header"),
    (7, 8, "refused interaction 2 Surplus"),
    (9, 12, "refused proof 2 Unclosed"),
    (13, 14, "refused interaction 3 Surplus"),
    (15, 16, "refused proof 3 Unclosed"),
    (17, 17, "refused proof 3 Unfinished"),
    (18, 18, "refused proof 4 Unfinished"),
    (19, 30, "refused proof 4 Word"),
    (31, 31, "refused proof 4 Unfinished"),
    (32, 32, "refused proof 5 Unfinished"),
    (33, 36, "refused proof 5 Unclosed"),
    (37, 38, "accepted 1 queries"),
];

// Behind its status the interaction may end: then nothing was asked of the model.
const INTERACTION_CUTS: [Cut; 10] = [
    (0, 5, "refused interaction 1 Header"),
    (6, 7, "refused proof 2 Ended"),
    (8, 11, "refused interaction 2 Unclosed"),
    (12, 13, "refused proof 3 Ended"),
    (14, 15, "refused interaction 3 Unclosed"),
    (16, 17, "refused proof 4 Ended"),
    (18, 29, "refused interaction 4 Word"),
    (30, 31, "accepted 1 queries"),
    (32, 35, "refused interaction 5 Unclosed"),
    (36, 37, "accepted 1 queries"),
];

// The first length of the proof, or else of the interaction, for which a pair is told otherwise.
fn first_cut_told_otherwise(alloc: Global, size: usize) -> Result<Option<usize>, AllocError> {
    for (first, last, report) in PROOF_CUTS.iter() {
        for length in *first..*last + 1 {
            let proof = PROOF.split_at(length.min(PROOF.len())).0;
            if !is_told(alloc, INTERACTION, proof, size, report)? {
                return Ok(Some(length));
            }
        }
    }
    for (first, last, report) in INTERACTION_CUTS.iter() {
        for length in *first..*last + 1 {
            let interaction = INTERACTION.split_at(length.min(INTERACTION.len())).0;
            if !is_told(alloc, interaction, PROOF, size, report)? {
                return Ok(Some(1_000 + length));
            }
        }
    }
    Ok(None)
}

#[test]
fn a_pair_is_cut_at_each_byte(rt: HostRuntime) -> Result<(), Fail> {
    assert_eq!(rt; first_cut_told_otherwise(rt.alloc(), 1)?, None);
    assert_eq!(rt; first_cut_told_otherwise(rt.alloc(), 65_536)?, None);
    Ok(())
}

// Lines that no solver would write.
const HOSTILE: [Pair; 8] = [
    Pair {
        shows: "the greatest id",
        interaction: "p icnf / i 1 0",
        proof: "p lidrup / i 9223372036854775807 1 0",
        report: "accepted 0 queries",
    },
    Pair {
        shows: "an id beyond it",
        interaction: "p icnf / i 1 0",
        proof: "p lidrup / i 9223372036854775808 1 0",
        report: "refused proof 2 Range",
    },
    Pair {
        shows: "a weakened id is not deleted",
        interaction: "p icnf / i 1 0",
        proof: "p lidrup / i 1 1 0 / w 1 0 / d 1 0",
        report: "refused proof 4 NotActive 1",
    },
    Pair {
        shows: "a weakened id is not given anew",
        interaction: "p icnf / i 1 0",
        proof: "p lidrup / i 1 1 0 / w 1 0 / i 1 1 0",
        report: "refused proof 4 IdTaken",
    },
    Pair {
        shows: "an id that names another clause now",
        interaction: "p icnf / i 1 0 / i 2 0",
        proof: "p lidrup / i 1 1 0 / d 1 0 / i 1 2 0 / l 2 1 0 1 0",
        report: "refused proof 5 Hint 2",
    },
    Pair {
        shows: "a clause is weakened by a list that repeats its literal",
        interaction: "p icnf / i 1 0",
        proof: "p idrup / i 1 0 / w 1 1 0",
        report: "accepted 0 queries",
    },
    Pair {
        shows: "a second header",
        interaction: "p icnf / i 1 0",
        proof: "p idrup / p idrup",
        report: "refused proof 2 Letter",
    },
    Pair {
        shows: "a byte 0 in the place of a letter",
        interaction: "p icnf / i 1 0",
        proof: "p idrup / \0 0",
        report: "refused proof 2 Letter",
    },
];

#[test]
fn hostile_lines_are_named(rt: HostRuntime) -> Result<(), Fail> {
    let alloc = rt.alloc();
    assert_eq!(rt; first_told_otherwise(alloc, &HOSTILE, &[1, 65_536])?, None);
    let bytes = vec![in alloc; 255; 100_000]?;
    for size in [1, 65_536] {
        assert!(rt; is_told(alloc, INTERACTION, &bytes, size, "refused proof 1 Header")?);
    }
    Ok(())
}
