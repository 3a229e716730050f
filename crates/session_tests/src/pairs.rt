// Worked pairs, and the line that the top call reports for each: a slash between blanks divides lines.

use crate::running::{check, text};
use std::alloc::{AllocError, Global};
use std::test::Fail;

/// A pair, what it shows, and its report without the line feed.
pub(crate) struct Pair {
    pub(crate) shows: &'static str,
    pub(crate) interaction: &'static str,
    pub(crate) proof: &'static str,
    pub(crate) report: &'static str,
}

// Headers, models and cores.
const ANSWERS: [Pair; 12] = [
    Pair {
        shows: "a model is accepted",
        interaction: "p icnf / i 1 0 / q 0 / s SATISFIABLE / m 1 0",
        proof: "p idrup / i 1 0 / q 0 / s SATISFIABLE / m 1 0",
        report: "accepted 1 queries",
    },
    Pair {
        shows: "two empty files",
        interaction: "",
        proof: "",
        report: "refused interaction 1 Header",
    },
    Pair {
        shows: "an empty proof",
        interaction: "p icnf / i 1 0 / q 0 / s SATISFIABLE / m 1 0",
        proof: "",
        report: "refused proof 1 Header",
    },
    Pair {
        shows: "a core is accepted",
        interaction: "p icnf / i 1 2 0 / i -1 2 0 / q -2 0 / s UNSATISFIABLE / u -2 0",
        proof: "p idrup / i 1 2 0 / i -1 2 0 / q -2 0 / s UNSATISFIABLE / u -2 0",
        report: "accepted 1 queries",
    },
    Pair {
        shows: "a core may leave an assumption out",
        interaction: "p icnf / i 1 2 0 / i -1 2 0 / q -2 5 0 / s UNSATISFIABLE / u -2 5 0",
        proof: "p idrup / i 1 2 0 / i -1 2 0 / q -2 5 0 / s UNSATISFIABLE / u -2 0",
        report: "accepted 1 queries",
    },
    Pair {
        shows: "the core of the proof has more",
        interaction: "p icnf / i 1 2 0 / i -1 2 0 / q -2 5 0 / s UNSATISFIABLE / u -2 0",
        proof: "p idrup / i 1 2 0 / i -1 2 0 / q -2 5 0 / s UNSATISFIABLE / u -2 5 0",
        report: "refused interaction 6 CorePart 5",
    },
    Pair {
        shows: "a core claims what was not assumed",
        interaction: "p icnf / i 1 2 0 / i -1 2 0 / q -2 5 0 / s UNSATISFIABLE / u -2 7 0",
        proof: "p idrup / i 1 2 0 / i -1 2 0 / q -2 5 0 / s UNSATISFIABLE / u -2 0",
        report: "refused interaction 6 CoreClaim 7",
    },
    Pair {
        shows: "a core has a stranger",
        interaction: "p icnf / i 1 2 0 / i -1 2 0 / q -2 5 0 / s UNSATISFIABLE / u -2 7 0",
        proof: "p idrup / i 1 2 0 / i -1 2 0 / q -2 5 0 / s UNSATISFIABLE / u -2 7 0",
        report: "refused proof 6 CoreStranger 7",
    },
    Pair {
        shows: "a core does not close",
        interaction: "p icnf / i 1 2 0 / i -1 2 0 / q -2 5 0 / s UNSATISFIABLE / u 5 0",
        proof: "p idrup / i 1 2 0 / i -1 2 0 / q -2 5 0 / s UNSATISFIABLE / u 5 0",
        report: "refused proof 6 CoreOpen",
    },
    Pair {
        shows: "a model misses an input",
        interaction: "p icnf / i 1 2 0 / q 0 / s SATISFIABLE / m -1 -2 0",
        proof: "p idrup / i 1 2 0 / q 0 / s SATISFIABLE / m -1 -2 0",
        report: "refused proof 5 ModelInput 1",
    },
    Pair {
        shows: "a weakened input counts for a model",
        interaction: "p icnf / i 1 2 0 / q 0 / s SATISFIABLE / m -1 -2 0",
        proof: "p idrup / i 1 2 0 / w 1 2 0 / q 0 / s SATISFIABLE / m -1 -2 0",
        report: "refused proof 6 ModelInput 1",
    },
    Pair {
        shows: "a deleted input counts for a model",
        interaction: "p icnf / i 1 2 0 / q 0 / s SATISFIABLE / m -1 -2 0",
        proof: "p idrup / i 1 2 0 / d 2 1 0 / q 0 / s SATISFIABLE / m -1 -2 0",
        report: "refused proof 6 ModelInput 1",
    },
];

// Weakened, restored and deleted clauses.
const COPIES: [Pair; 6] = [
    Pair {
        shows: "a lemma over a weakened clause is refused",
        interaction: "p icnf / i 1 2 0 / i -1 2 0",
        proof: "p idrup / i 1 2 0 / i -1 2 0 / w 1 2 0 / l 2 0",
        report: "refused proof 5 Lemma",
    },
    Pair {
        shows: "a lemma over a restored clause is accepted",
        interaction: "p icnf / i 1 2 0 / i -1 2 0",
        proof: "p idrup / i 1 2 0 / i -1 2 0 / w 1 2 0 / r 1 2 0 / l 2 0",
        report: "accepted 0 queries",
    },
    Pair {
        shows: "a clause that is not weakened is not restored",
        interaction: "p icnf / i 1 2 0",
        proof: "p idrup / i 1 2 0 / r 1 2 0",
        report: "refused proof 3 NotWeakened 1",
    },
    Pair {
        shows: "one copy of two stays",
        interaction: "p icnf / i 1 2 0 / i 2 1 0",
        proof: "p idrup / i 1 2 0 / i 2 1 0 / d 1 2 0 / l 1 2 3 0",
        report: "accepted 0 queries",
    },
    Pair {
        shows: "no copy stays",
        interaction: "p icnf / i 1 2 0 / i 2 1 0",
        proof: "p idrup / i 1 2 0 / i 2 1 0 / d 1 2 0 / d 1 2 0 / l 1 2 3 0",
        report: "refused proof 6 Lemma",
    },
    Pair {
        shows: "a third deletion is refused",
        interaction: "p icnf / i 1 2 0 / i 2 1 0",
        proof: "p idrup / i 1 2 0 / i 2 1 0 / d 1 2 0 / d 1 2 0 / d 2 1 0",
        report: "refused proof 6 NotActive 1",
    },
];

// Ids and hints.
const HINTS: [Pair; 10] = [
    Pair {
        shows: "hints close",
        interaction: "p icnf / i 1 2 0 / i -1 3 0 / i -1 -3 0",
        proof: "p lidrup / i 1 1 2 0 / i 2 -1 3 0 / i 3 -1 -3 0 / l 4 2 0 1 2 3 0",
        report: "accepted 0 queries",
    },
    Pair {
        shows: "hints in another order",
        interaction: "p icnf / i 1 2 0 / i -1 3 0 / i -1 -3 0",
        proof: "p lidrup / i 1 1 2 0 / i 2 -1 3 0 / i 3 -1 -3 0 / l 4 2 0 2 1 3 0",
        report: "refused proof 5 Hint 1",
    },
    Pair {
        shows: "a hint behind the end is not looked at",
        interaction: "p icnf / i 1 2 0 / i -1 3 0 / i -1 -3 0",
        proof: "p lidrup / i 1 1 2 0 / i 2 -1 3 0 / i 3 -1 -3 0 / l 4 2 0 1 2 3 9 0",
        report: "accepted 0 queries",
    },
    Pair {
        shows: "hints end too early",
        interaction: "p icnf / i 1 2 0 / i -1 3 0 / i -1 -3 0",
        proof: "p lidrup / i 1 1 2 0 / i 2 -1 3 0 / i 3 -1 -3 0 / l 4 2 0 1 2 0",
        report: "refused proof 5 Hint 3",
    },
    Pair {
        shows: "an id is taken",
        interaction: "p icnf / i 1 2 0 / i -1 3 0 / i -1 -3 0",
        proof: "p lidrup / i 1 1 2 0 / i 2 -1 3 0 / i 3 -1 -3 0 / l 3 2 0 1 2 3 0",
        report: "refused proof 5 IdTaken",
    },
    Pair {
        shows: "an id that was never given is deleted",
        interaction: "p icnf / i 1 2 0 / i -1 3 0 / i -1 -3 0",
        proof: "p lidrup / i 1 1 2 0 / i 2 -1 3 0 / i 3 -1 -3 0 / d 2 9 0",
        report: "refused proof 5 NotActive 2",
    },
    Pair {
        shows: "an id is deleted twice on a line",
        interaction: "p icnf / i 1 2 0 / i -1 3 0 / i -1 -3 0",
        proof: "p lidrup / i 1 1 2 0 / i 2 -1 3 0 / i 3 -1 -3 0 / d 2 2 0",
        report: "refused proof 5 NotActive 2",
    },
    Pair {
        shows: "a hint names a weakened clause",
        interaction: "p icnf / i 1 2 0 / i -1 3 0 / i -1 -3 0",
        proof: "p lidrup / i 1 1 2 0 / i 2 -1 3 0 / i 3 -1 -3 0 / w 2 0 / l 4 2 0 1 2 3 0",
        report: "refused proof 6 Hint 2",
    },
    Pair {
        shows: "an id is restored twice on a line",
        interaction: "p icnf / i 1 2 0 / i -1 3 0 / i -1 -3 0",
        proof: "p lidrup / i 1 1 2 0 / i 2 -1 3 0 / i 3 -1 -3 0 / w 2 0 / r 2 2 0",
        report: "refused proof 6 NotWeakened 2",
    },
    Pair {
        shows: "a deleted id is given anew",
        interaction: "p icnf / i 1 2 0 / i -1 3 0 / i -1 -3 0",
        proof: "p lidrup / i 1 1 2 0 / i 2 -1 3 0 / i 3 -1 -3 0 / d 1 0 / l 1 4 -4 0 0",
        report: "accepted 0 queries",
    },
];

// Literals that are forced stay no longer than their reasons.
const REASONS: [Pair; 4] = [
    Pair {
        shows: "a clause that forces nothing is deleted",
        interaction: "p icnf / i 1 0 / i -1 2 0 / i 3 4 0",
        proof: "p idrup / i 1 0 / i -1 2 0 / i 3 4 0 / l 6 2 0 / d 3 4 0 / l 5 2 0",
        report: "accepted 0 queries",
    },
    Pair {
        shows: "a unit clause is deleted",
        interaction: "p icnf / i 1 0 / i -1 2 0 / i 3 4 0",
        proof: "p idrup / i 1 0 / i -1 2 0 / i 3 4 0 / l 6 2 0 / d 1 0 / l 5 2 0",
        report: "refused proof 7 Lemma",
    },
    Pair {
        shows: "a reason is deleted",
        interaction: "p icnf / i 1 0 / i -1 2 0 / i 3 4 0",
        proof: "p idrup / i 1 0 / i -1 2 0 / i 3 4 0 / l 6 2 0 / d 2 -1 0 / l 5 2 0",
        report: "refused proof 7 Lemma",
    },
    Pair {
        shows: "a reason is weakened",
        interaction: "p icnf / i 1 0 / i -1 2 0 / i 3 4 0",
        proof: "p idrup / i 1 0 / i -1 2 0 / i 3 4 0 / l 6 2 0 / w 2 -1 0 / l 5 2 0",
        report: "refused proof 7 Lemma",
    },
];

// Answers with ids and hints, and ids that are taken.
const ANSWERS_WITH_IDS: [Pair; 7] = [
    Pair {
        shows: "the hints of a core end too early",
        interaction: "p icnf / i 1 2 0 / i -1 2 0 / q -2 0 / s UNSATISFIABLE / u -2 0",
        proof: "p lidrup / i 1 1 2 0 / i 2 -1 2 0 / w 1 0 / q -2 0 / s UNSATISFIABLE / u -2 0 2 0",
        report: "refused proof 7 Hint 2",
    },
    Pair {
        shows: "the hint of a core is satisfied",
        interaction: "p icnf / i 1 2 0 / i -1 2 0 / q -2 0 / s UNSATISFIABLE / u 2 0",
        proof: "p lidrup / i 1 1 2 0 / i 2 -1 2 0 / q -2 0 / s UNSATISFIABLE / u 2 0 2 0",
        report: "refused proof 6 Hint 1",
    },
    Pair {
        shows: "a core has a stranger, with ids",
        interaction: "p icnf / i 1 2 0 / i -1 2 0 / q -2 0 / s UNSATISFIABLE / u -2 2 0",
        proof: "p lidrup / i 1 1 2 0 / i 2 -1 2 0 / q -2 0 / s UNSATISFIABLE / u -2 2 0 0",
        report: "refused proof 6 CoreStranger 2",
    },
    Pair {
        shows: "a weakened input counts for a model, with ids",
        interaction: "p icnf / i 1 2 0 / q 0 / s SATISFIABLE / m -1 -2 0",
        proof: "p lidrup / i 1 1 2 0 / w 1 0 / q 0 / s SATISFIABLE / m -1 -2 0",
        report: "refused proof 6 ModelInput 1",
    },
    Pair {
        shows: "a weakened clause keeps its id",
        interaction: "p icnf / i 1 2 0 / i 3 0",
        proof: "p lidrup / i 1 1 2 0 / w 1 0 / i 1 3 0",
        report: "refused proof 4 IdTaken",
    },
    Pair {
        shows: "an id is weakened twice on a line",
        interaction: "p icnf / i 1 2 0 / i -1 3 0 / i -1 -3 0",
        proof: "p lidrup / i 1 1 2 0 / i 2 -1 3 0 / i 3 -1 -3 0 / w 3 1 3 0",
        report: "refused proof 5 NotActive 3",
    },
    Pair {
        shows: "a model behind an unsatisfiable answer",
        interaction: "p icnf / i 1 0 / q 0 / s UNSATISFIABLE / m 1 0",
        proof: "p lidrup / i 1 1 0 / q 0 / s UNSATISFIABLE / m 1 0",
        report: "refused proof 5 Order",
    },
];

// Opposite literals, and long words.
const OPPOSITES: [Pair; 7] = [
    Pair {
        shows: "a tautology is a lemma",
        interaction: "p icnf",
        proof: "p idrup / l 4 -4 0",
        report: "accepted 0 queries",
    },
    Pair {
        shows: "a tautology needs no hints",
        interaction: "p icnf",
        proof: "p lidrup / l 1 4 -4 0 0",
        report: "accepted 0 queries",
    },
    Pair {
        shows: "a model clashes with itself",
        interaction: "p icnf / i 1 0 / q 0 / s SATISFIABLE / m 1 -1 0",
        proof: "p idrup / i 1 0 / q 0 / s SATISFIABLE / m 1 -1 0",
        report: "refused proof 5 ModelClash -1",
    },
    Pair {
        shows: "a model lacks an assumption",
        interaction: "p icnf / i 1 0 / q 2 0 / s SATISFIABLE / m 1 0",
        proof: "p idrup / i 1 0 / q 2 0 / s SATISFIABLE / m 1 0",
        report: "refused proof 5 ModelAssumption 2",
    },
    Pair {
        shows: "opposite assumptions are a core",
        interaction: "p icnf / q 3 -3 0 / s UNSATISFIABLE / u 3 -3 0",
        proof: "p idrup / q 3 -3 0 / s UNSATISFIABLE / u 3 -3 0",
        report: "accepted 1 queries",
    },
    Pair {
        shows: "opposite assumptions need no hints",
        interaction: "p icnf / q 3 -3 0 / s UNSATISFIABLE / u 3 -3 0",
        proof: "p lidrup / q 3 -3 0 / s UNSATISFIABLE / u 3 -3 0 0",
        report: "accepted 1 queries",
    },
    Pair {
        shows: "a word of 33 digits",
        interaction: "p icnf / i 111111111111111111111111111111111 0",
        proof: "p idrup / i 111111111111111111111111111111111 0",
        report: "refused proof 2 Number",
    },
];

// The ends of the two files, and the empty clause.
const ENDS: [Pair; 5] = [
    Pair {
        shows: "a line too many",
        interaction: "p icnf / i 1 0 / i 2 0",
        proof: "p idrup / i 1 0",
        report: "refused interaction 3 Surplus",
    },
    Pair {
        shows: "a line too few",
        interaction: "p icnf / i 1 0",
        proof: "p idrup / i 1 0 / i 2 0",
        report: "refused proof 3 Ended",
    },
    Pair {
        shows: "a query is open",
        interaction: "p icnf / q 0",
        proof: "p idrup / q 0",
        report: "refused proof 3 Unfinished",
    },
    Pair {
        shows: "an open query comes before a line too many",
        interaction: "p icnf / q 0 / i 1 0",
        proof: "p idrup / q 0",
        report: "refused proof 3 Unfinished",
    },
    Pair {
        shows: "the empty clause answers every query",
        interaction: "p icnf / i 0 / q 0 / s UNSATISFIABLE / u 0 / i 1 0 / q 1 0 / s UNSATISFIABLE / u 0",
        proof: "p idrup / i 0 / q 0 / s UNSATISFIABLE / u 0 / i 1 0 / q 1 0 / s UNSATISFIABLE / u 0",
        report: "accepted 2 queries",
    },
];

// Lines and their partners.
const PARTNERS: [Pair; 11] = [
    Pair {
        shows: "another letter",
        interaction: "p icnf / q 0",
        proof: "p idrup / i 1 0",
        report: "refused interaction 2 Kind",
    },
    Pair {
        shows: "other literals",
        interaction: "p icnf / i 1 0",
        proof: "p idrup / i 2 0",
        report: "refused interaction 2 Content",
    },
    Pair {
        shows: "fewer literals",
        interaction: "p icnf / i 2 0",
        proof: "p idrup / i 2 1 0",
        report: "refused interaction 2 Content",
    },
    Pair {
        shows: "clauses are sets",
        interaction: "p icnf / i 1 2 1 0",
        proof: "p idrup / i 2 1 0",
        report: "accepted 0 queries",
    },
    Pair {
        shows: "own rules come before the partner",
        interaction: "p icnf / i 1 0",
        proof: "p idrup / m 1 0",
        report: "refused proof 2 Order",
    },
    Pair {
        shows: "own rules come before an end",
        interaction: "p icnf",
        proof: "p idrup / m 1 0",
        report: "refused proof 2 Order",
    },
    Pair {
        shows: "a partner is read before it is compared",
        interaction: "p icnf / q 01 0",
        proof: "p idrup / i 1 0",
        report: "refused interaction 2 Number",
    },
    Pair {
        shows: "an unknown answer",
        interaction: "p icnf / q 0 / s UNKNOWN",
        proof: "p idrup / q 0 / s UNKNOWN",
        report: "accepted 1 queries",
    },
    Pair {
        shows: "another status",
        interaction: "p icnf / q 0 / s SATISFIABLE",
        proof: "p idrup / q 0 / s UNKNOWN",
        report: "refused interaction 3 Status",
    },
    Pair {
        shows: "the model of the interaction has more",
        interaction: "p icnf / i 1 0 / q 0 / s SATISFIABLE / m 1 2 0",
        proof: "p idrup / i 1 0 / q 0 / s SATISFIABLE / m 1 0",
        report: "refused interaction 5 ModelPart 2",
    },
    Pair {
        shows: "the model of the interaction has less",
        interaction: "p icnf / i 1 0 / q 0 / s SATISFIABLE / m 1 0",
        proof: "p idrup / i 1 0 / q 0 / s SATISFIABLE / m 2 1 0",
        report: "accepted 1 queries",
    },
];

// Lines that break a rule of syntax.
const SYNTAX: [Pair; 12] = [
    Pair {
        shows: "the line x 1 0",
        interaction: "p icnf",
        proof: "p idrup / x 1 0",
        report: "refused proof 2 Letter",
    },
    Pair {
        shows: "the line l 1",
        interaction: "p icnf",
        proof: "p idrup / l 1",
        report: "refused proof 2 Unclosed",
    },
    Pair {
        shows: "the line l 1 0 2",
        interaction: "p icnf",
        proof: "p idrup / l 1 0 2",
        report: "refused proof 2 Excess",
    },
    Pair {
        shows: "the line l 01 0",
        interaction: "p icnf",
        proof: "p idrup / l 01 0",
        report: "refused proof 2 Number",
    },
    Pair {
        shows: "the line l -0 0",
        interaction: "p icnf",
        proof: "p idrup / l -0 0",
        report: "refused proof 2 Number",
    },
    Pair {
        shows: "the line s MAYBE",
        interaction: "p icnf",
        proof: "p idrup / s MAYBE",
        report: "refused proof 2 Word",
    },
    Pair {
        shows: "the line s",
        interaction: "p icnf",
        proof: "p idrup / s",
        report: "refused proof 2 Word",
    },
    Pair {
        shows: "the line s SATISFIABLE 0",
        interaction: "p icnf",
        proof: "p idrup / s SATISFIABLE 0",
        report: "refused proof 2 Excess",
    },
    Pair {
        shows: "the line l 1 2 0",
        interaction: "p icnf",
        proof: "p lidrup / l 1 2 0",
        report: "refused proof 2 Unclosed",
    },
    Pair {
        shows: "the line i 0 1 0",
        interaction: "p icnf",
        proof: "p lidrup / i 0 1 0",
        report: "refused proof 2 Range",
    },
    Pair {
        shows: "the line d -1 0",
        interaction: "p icnf",
        proof: "p lidrup / d -1 0",
        report: "refused proof 2 Number",
    },
    Pair {
        shows: "the line d 9223372036854775808 0",
        interaction: "p icnf",
        proof: "p lidrup / d 9223372036854775808 0",
        report: "refused proof 2 Range",
    },
];

// Headers, and sessions of several queries.
const SESSIONS: [Pair; 6] = [
    Pair {
        shows: "a header of three words",
        interaction: "p icnf",
        proof: "p idrup 2",
        report: "refused proof 1 Header",
    },
    Pair {
        shows: "a header of another form",
        interaction: "p icnf",
        proof: "p lidru",
        report: "refused proof 1 Header",
    },
    Pair {
        shows: "comments alone have no header",
        interaction: "c nothing / c more",
        proof: "p idrup",
        report: "refused interaction 3 Header",
    },
    Pair {
        shows: "a model checker steps on",
        interaction: "p icnf / c two steps / i 1 0 / i -1 2 0 / q -2 0 / s UNSATISFIABLE / u -2 0 / i -2 3 4 0 / q -3 0 / s SATISFIABLE / m 1 2 -3 4 0 / q -3 -4 0 / s UNSATISFIABLE / u -3 -4 0 / i -4 0 / q -3 0 / s UNSATISFIABLE / u -3 0",
        proof: "p idrup / i 1 0 / i -1 2 0 / q -2 0 / s UNSATISFIABLE / u -2 0 / l 2 0 / d -1 2 0 / w 1 0 / i -2 3 4 0 / q -3 0 / s SATISFIABLE / m 1 2 -3 4 0 / q -3 -4 0 / s UNSATISFIABLE / u -3 -4 0 / i -4 0 / q -3 0 / s UNSATISFIABLE / u -3 0",
        report: "accepted 4 queries",
    },
    Pair {
        shows: "a model checker steps on, with ids",
        interaction: "p icnf / c two steps / i 1 0 / i -1 2 0 / q -2 0 / s UNSATISFIABLE / u -2 0 / i -2 3 4 0 / q -3 0 / s SATISFIABLE / m 1 2 -3 4 0 / q -3 -4 0 / s UNSATISFIABLE / u -3 -4 0 / i -4 0 / q -3 0 / s UNSATISFIABLE / u -3 0",
        proof: "p lidrup / i 1 1 0 / i 2 -1 2 0 / q -2 0 / s UNSATISFIABLE / u -2 0 1 2 0 / l 3 2 0 1 2 0 / d 2 0 / w 1 0 / i 4 -2 3 4 0 / q -3 0 / s SATISFIABLE / m 1 2 -3 4 0 / q -3 -4 0 / s UNSATISFIABLE / u -3 -4 0 3 4 0 / i 5 -4 0 / q -3 0 / s UNSATISFIABLE / u -3 0 3 4 5 0",
        report: "accepted 4 queries",
    },
    Pair {
        shows: "assumptions are those of the last query",
        interaction: "p icnf / i 1 0 / q -1 0 / s UNSATISFIABLE / u -1 0 / q 2 0 / s UNSATISFIABLE / u -1 0",
        proof: "p idrup / i 1 0 / q -1 0 / s UNSATISFIABLE / u -1 0 / q 2 0 / s UNSATISFIABLE / u -1 0",
        report: "refused proof 8 CoreStranger -1",
    },
];

// Pairs with variables at the limit and beyond.
const AT_THE_LIMIT: [Pair; 3] = [
    Pair {
        shows: "the greatest variable",
        interaction: "p icnf / i 2147483647 0",
        proof: "p idrup / i 2147483647 0",
        report: "accepted 0 queries",
    },
    Pair {
        shows: "a variable beyond it, in both",
        interaction: "p icnf / i 2147483648 0",
        proof: "p idrup / i 2147483648 0",
        report: "refused proof 2 Range",
    },
    Pair {
        shows: "a variable beyond it, in the interaction",
        interaction: "p icnf / i 2147483648 0",
        proof: "p idrup / i 2147483647 0",
        report: "refused interaction 2 Range",
    },
];

// Pairs with few variables, of which some are high, and with some that come in no clause.
const HIGH: [Pair; 11] = [
    Pair {
        shows: "high variables, without ids",
        interaction: "p icnf / i 1 2147483647 0 / i -1 2147483647 0 / q -2147483647 1073741824 0 / s UNSATISFIABLE / u -2147483647 0",
        proof: "p idrup / i 1 2147483647 0 / i -1 2147483647 0 / l 2147483647 0 / q -2147483647 1073741824 0 / s UNSATISFIABLE / u -2147483647 0",
        report: "accepted 1 queries",
    },
    Pair {
        shows: "high variables, with ids",
        interaction: "p icnf / i 1 2147483647 0 / i -1 2147483647 0 / q -2147483647 1073741824 0 / s UNSATISFIABLE / u -2147483647 0",
        proof: "p lidrup / i 1 1 2147483647 0 / i 2 -1 2147483647 0 / l 3 2147483647 0 1 2 0 / q -2147483647 1073741824 0 / s UNSATISFIABLE / u -2147483647 0 3 0",
        report: "accepted 1 queries",
    },
    Pair {
        shows: "a model over high variables",
        interaction: "p icnf / i 1 2147483647 0 / q 1073741824 0 / s SATISFIABLE / m 2147483647 0",
        proof: "p idrup / i 1 2147483647 0 / q 1073741824 0 / s SATISFIABLE / m 2147483647 1073741824 2147483646 0",
        report: "accepted 1 queries",
    },
    Pair {
        shows: "a model's clash is told by its variable",
        interaction: "p icnf / i 1 2147483647 0 / q 0 / s SATISFIABLE / m 2147483647 0",
        proof: "p idrup / i 1 2147483647 0 / q 0 / s SATISFIABLE / m 2147483647 -2147483647 0",
        report: "refused proof 5 ModelClash -2147483647",
    },
    Pair {
        shows: "a model of the interaction has a variable that no line of the proof has",
        interaction: "p icnf / i 1 2147483647 0 / q 0 / s SATISFIABLE / m 2147483647 12345678 0",
        proof: "p idrup / i 1 2147483647 0 / q 0 / s SATISFIABLE / m 2147483647 0",
        report: "refused interaction 5 ModelPart 12345678",
    },
    Pair {
        shows: "a stranger is told by its variable",
        interaction: "p icnf / i 1 2147483647 0 / i -1 2147483647 0 / q -2147483647 1073741824 0 / s UNSATISFIABLE / u -2147483647 0",
        proof: "p idrup / i 1 2147483647 0 / i -1 2147483647 0 / q -2147483647 1073741824 0 / s UNSATISFIABLE / u -2147483647 -1073741824 12345678 0",
        report: "refused proof 6 CoreStranger -1073741824",
    },
    Pair {
        shows: "a stranger that no line has",
        interaction: "p icnf / i 1 2147483647 0 / i -1 2147483647 0 / q -2147483647 1073741824 0 / s UNSATISFIABLE / u -2147483647 0",
        proof: "p idrup / i 1 2147483647 0 / i -1 2147483647 0 / q -2147483647 1073741824 0 / s UNSATISFIABLE / u -2147483647 12345678 -1073741824 0",
        report: "refused proof 6 CoreStranger 12345678",
    },
    Pair {
        shows: "opposite literals that no line has close, with ids",
        interaction: "p icnf / i 1 2147483647 0 / q 1073741824 0 / s UNSATISFIABLE / u 1073741824 0",
        proof: "p lidrup / i 1 1 2147483647 0 / q 1073741824 0 / s UNSATISFIABLE / u 1073741824 12345678 -12345678 0 1 0",
        report: "refused proof 5 CoreStranger 12345678",
    },
    Pair {
        shows: "a literal that no line has helps no hint",
        interaction: "p icnf / i 1 2147483647 0 / q 1073741824 0 / s UNSATISFIABLE / u 1073741824 0",
        proof: "p lidrup / i 1 1 2147483647 0 / q 1073741824 0 / s UNSATISFIABLE / u 1073741824 12345678 0 1 0",
        report: "refused proof 5 Hint 1",
    },
    Pair {
        shows: "a deletion of a clause that no line can have given",
        interaction: "p icnf / i 1 2147483647 0",
        proof: "p idrup / i 1 2147483647 0 / d 2147483647 12345678 0",
        report: "refused proof 3 NotActive 1",
    },
    Pair {
        shows: "a restoring of such a clause",
        interaction: "p icnf / i 1 2147483647 0",
        proof: "p idrup / i 1 2147483647 0 / r 12345678 0",
        report: "refused proof 3 NotWeakened 1",
    },
];

/// Checks one pair in pieces of this size, and says whether status and report are those.
pub(crate) fn is_told(
    alloc: Global,
    interaction: &[u8],
    proof: &[u8],
    size: usize,
    report: &str,
) -> Result<bool, AllocError> {
    let ran = check(alloc, interaction, proof, size)?;
    let status = if report.starts_with("accepted") { 0 } else { 1 };
    let line = text(alloc, report)?;
    Ok(ran.status == status && ran.report.bytes() == line.as_slice())
}

/// Checks each pair of a table in pieces of these sizes, and says which is the first that is told otherwise.
pub(crate) fn first_told_otherwise(
    alloc: Global,
    pairs: &[Pair],
    sizes: &[usize],
) -> Result<Option<&'static str>, AllocError> {
    for pair in pairs {
        let interaction = text(alloc, pair.interaction)?;
        let proof = text(alloc, pair.proof)?;
        for size in sizes {
            if !is_told(alloc, &interaction, &proof, *size, pair.report)? {
                return Ok(Some(pair.shows));
            }
        }
    }
    Ok(None)
}

#[test]
fn models_and_cores_are_judged(rt: HostRuntime) -> Result<(), Fail> {
    assert_eq!(rt;
        first_told_otherwise(rt.alloc(), &ANSWERS, &[1, 2, 65_535, 65_536])?,
        None
    );
    Ok(())
}

#[test]
fn clauses_come_and_go(rt: HostRuntime) -> Result<(), Fail> {
    assert_eq!(rt;
        first_told_otherwise(rt.alloc(), &COPIES, &[1, 2, 65_535, 65_536])?,
        None
    );
    Ok(())
}

#[test]
fn ids_and_hints_are_judged(rt: HostRuntime) -> Result<(), Fail> {
    assert_eq!(rt;
        first_told_otherwise(rt.alloc(), &HINTS, &[1, 2, 65_535, 65_536])?,
        None
    );
    Ok(())
}

#[test]
fn literals_stay_no_longer_than_their_reasons(rt: HostRuntime) -> Result<(), Fail> {
    assert_eq!(rt;
        first_told_otherwise(rt.alloc(), &REASONS, &[1, 2, 65_535, 65_536])?,
        None
    );
    Ok(())
}

#[test]
fn answers_with_ids_are_judged(rt: HostRuntime) -> Result<(), Fail> {
    assert_eq!(rt;
        first_told_otherwise(rt.alloc(), &ANSWERS_WITH_IDS, &[1, 2, 65_535, 65_536])?,
        None
    );
    Ok(())
}

#[test]
fn opposite_literals_are_judged(rt: HostRuntime) -> Result<(), Fail> {
    assert_eq!(rt;
        first_told_otherwise(rt.alloc(), &OPPOSITES, &[1, 2, 65_535, 65_536])?,
        None
    );
    Ok(())
}

#[test]
fn both_files_end_together(rt: HostRuntime) -> Result<(), Fail> {
    assert_eq!(rt;
        first_told_otherwise(rt.alloc(), &ENDS, &[1, 2, 65_535, 65_536])?,
        None
    );
    Ok(())
}

#[test]
fn lines_are_held_against_their_partners(rt: HostRuntime) -> Result<(), Fail> {
    assert_eq!(rt;
        first_told_otherwise(rt.alloc(), &PARTNERS, &[1, 2, 65_535, 65_536])?,
        None
    );
    Ok(())
}

#[test]
fn broken_lines_are_named(rt: HostRuntime) -> Result<(), Fail> {
    assert_eq!(rt;
        first_told_otherwise(rt.alloc(), &SYNTAX, &[1, 2, 65_535, 65_536])?,
        None
    );
    Ok(())
}

#[test]
fn sessions_are_judged(rt: HostRuntime) -> Result<(), Fail> {
    assert_eq!(rt;
        first_told_otherwise(rt.alloc(), &SESSIONS, &[1, 2, 65_535, 65_536])?,
        None
    );
    Ok(())
}

#[test]
fn variables_end_at_the_limit(rt: HostRuntime) -> Result<(), Fail> {
    assert_eq!(rt;
        first_told_otherwise(rt.alloc(), &AT_THE_LIMIT, &[1])?,
        None
    );
    Ok(())
}

#[test]
fn high_variables_are_judged(rt: HostRuntime) -> Result<(), Fail> {
    assert_eq!(rt;
        first_told_otherwise(rt.alloc(), &HIGH, &[1, 65_536])?,
        None
    );
    Ok(())
}
