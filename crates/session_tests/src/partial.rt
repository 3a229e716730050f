// Interactions that tell some values of a model, or some failed assumptions, in place of the whole model or core.

use crate::pairs::{Pair, first_told_otherwise};
use std::test::Fail;

// Values of a model.
const VALUES: [Pair; 11] = [
    Pair {
        shows: "two lines of values",
        interaction: "p icnf / i 1 2 0 / q -1 0 / s SATISFIABLE / v 2 0 / v -1 0",
        proof: "p idrup / i 1 2 0 / q -1 0 / s SATISFIABLE / m -1 2 0",
        report: "accepted 1 queries",
    },
    Pair {
        shows: "no values",
        interaction: "p icnf / i 1 2 0 / q -1 0 / s SATISFIABLE",
        proof: "p idrup / i 1 2 0 / q -1 0 / s SATISFIABLE / m -1 2 0",
        report: "accepted 1 queries",
    },
    Pair {
        shows: "a value that the model lacks",
        interaction: "p icnf / i 1 2 0 / q -1 0 / s SATISFIABLE / v 2 3 0",
        proof: "p idrup / i 1 2 0 / q -1 0 / s SATISFIABLE / m -1 2 0",
        report: "refused interaction 5 ModelPart 3",
    },
    Pair {
        shows: "such a value in the third line",
        interaction: "p icnf / i 1 2 0 / q -1 0 / s SATISFIABLE / v 2 0 / c / v -1 2 0 / v 2 1 -3 0 / v 3 0",
        proof: "p idrup / i 1 2 0 / q -1 0 / s SATISFIABLE / m -1 2 0",
        report: "refused interaction 8 ModelPart 1",
    },
    Pair {
        shows: "a model behind values",
        interaction: "p icnf / i 1 2 0 / q -1 0 / s SATISFIABLE / v 2 0 / m -1 2 0",
        proof: "p idrup / i 1 2 0 / q -1 0 / s SATISFIABLE / m -1 2 0",
        report: "refused interaction 6 Surplus",
    },
    Pair {
        shows: "values behind a model",
        interaction: "p icnf / i 1 2 0 / q -1 0 / s SATISFIABLE / m -1 2 0 / v 2 0",
        proof: "p idrup / i 1 2 0 / q -1 0 / s SATISFIABLE / m -1 2 0",
        report: "refused interaction 6 Surplus",
    },
    Pair {
        shows: "failed assumptions of a model",
        interaction: "p icnf / i 1 2 0 / q -1 0 / s SATISFIABLE / f -1 0",
        proof: "p idrup / i 1 2 0 / q -1 0 / s SATISFIABLE / m -1 2 0",
        report: "refused interaction 5 Surplus",
    },
    Pair {
        shows: "a line that is behind the values is held against the next step",
        interaction: "p icnf / q 0 / s SATISFIABLE / v 1 0 / m 1 0",
        proof: "p idrup / q 0 / s SATISFIABLE / m 1 0 / i 1 0",
        report: "refused interaction 5 Kind",
    },
    Pair {
        shows: "a broken line of values",
        interaction: "p icnf / q 0 / s SATISFIABLE / v 1 0 / v 1 x 0 / v 2 0",
        proof: "p idrup / q 0 / s SATISFIABLE / m 1 0",
        report: "refused interaction 5 Number",
    },
    Pair {
        shows: "values in a proof",
        interaction: "p icnf / q 0 / s SATISFIABLE / v 1 0",
        proof: "p idrup / q 0 / s SATISFIABLE / v 1 0",
        report: "refused proof 4 Letter",
    },
    Pair {
        shows: "values, with ids, and the session goes on",
        interaction: "p icnf / i 1 2 0 / q -1 0 / s SATISFIABLE / v 2 0 / v 2 -1 0 / q 1 0 / s SATISFIABLE / q 2 0 / s SATISFIABLE / v 0 / i 3 0",
        proof: "p lidrup / i 1 1 2 0 / q -1 0 / s SATISFIABLE / m -1 2 0 / q 1 0 / s SATISFIABLE / m 1 0 / q 2 0 / s SATISFIABLE / m 2 0 / i 2 3 0",
        report: "accepted 3 queries",
    },
];

// Failed assumptions.
const FAILED: [Pair; 10] = [
    Pair {
        shows: "a failed assumption of the core",
        interaction: "p icnf / i 1 2 0 / i -1 2 0 / q -2 5 0 / s UNSATISFIABLE / f -2 0",
        proof: "p idrup / i 1 2 0 / i -1 2 0 / q -2 5 0 / s UNSATISFIABLE / u -2 0",
        report: "accepted 1 queries",
    },
    Pair {
        shows: "an assumption that the core lacks",
        interaction: "p icnf / i 1 2 0 / i -1 2 0 / q -2 5 0 / s UNSATISFIABLE / f 5 0",
        proof: "p idrup / i 1 2 0 / i -1 2 0 / q -2 5 0 / s UNSATISFIABLE / u -2 0",
        report: "refused interaction 6 FailedPart 5",
    },
    Pair {
        shows: "such an assumption in the second line",
        interaction: "p icnf / i -1 0 / q 1 2 3 0 / s UNSATISFIABLE / f 2 1 2 0 / f 1 3 0",
        proof: "p idrup / i -1 0 / q 1 2 3 0 / s UNSATISFIABLE / u 1 2 0",
        report: "refused interaction 6 FailedPart 3",
    },
    Pair {
        shows: "a literal that is no assumption",
        interaction: "p icnf / i -1 0 / q 1 0 / s UNSATISFIABLE / f 7 0",
        proof: "p idrup / i -1 0 / q 1 0 / s UNSATISFIABLE / u 1 0",
        report: "refused interaction 5 FailedPart 7",
    },
    Pair {
        shows: "no failed assumption",
        interaction: "p icnf / i -1 0 / q 1 0 / s UNSATISFIABLE",
        proof: "p idrup / i -1 0 / q 1 0 / s UNSATISFIABLE / u 1 0",
        report: "accepted 1 queries",
    },
    Pair {
        shows: "values of a core",
        interaction: "p icnf / i -1 0 / q 1 0 / s UNSATISFIABLE / v 1 0",
        proof: "p idrup / i -1 0 / q 1 0 / s UNSATISFIABLE / u 1 0",
        report: "refused interaction 5 Surplus",
    },
    Pair {
        shows: "a core behind failed assumptions",
        interaction: "p icnf / i -1 0 / q 1 0 / s UNSATISFIABLE / f 1 0 / u 1 0",
        proof: "p idrup / i -1 0 / q 1 0 / s UNSATISFIABLE / u 1 0",
        report: "refused interaction 6 Surplus",
    },
    Pair {
        shows: "failed assumptions behind a core",
        interaction: "p icnf / i -1 0 / q 1 0 / s UNSATISFIABLE / u 1 0 / f 1 0",
        proof: "p idrup / i -1 0 / q 1 0 / s UNSATISFIABLE / u 1 0",
        report: "refused interaction 6 Surplus",
    },
    Pair {
        shows: "a core that does not close comes before its partners",
        interaction: "p icnf / i -1 0 / q 1 2 0 / s UNSATISFIABLE / f 3 0",
        proof: "p idrup / i -1 0 / q 1 2 0 / s UNSATISFIABLE / u 2 0",
        report: "refused proof 5 CoreOpen",
    },
    Pair {
        shows: "failed assumptions, with ids, and the session goes on",
        interaction: "p icnf / i -1 0 / q 1 2 0 / s UNSATISFIABLE / f 1 0 / f 0 / q 1 0 / s UNSATISFIABLE / i 2 0",
        proof: "p lidrup / i 1 -1 0 / q 1 2 0 / s UNSATISFIABLE / u 1 0 1 0 / q 1 0 / s UNSATISFIABLE / u 1 0 1 0 / i 2 2 0",
        report: "accepted 2 queries",
    },
];

#[test]
fn values_are_held_against_the_model(rt: HostRuntime) -> Result<(), Fail> {
    assert_eq!(rt;
        first_told_otherwise(rt.alloc(), &VALUES, &[1, 65_536])?,
        None
    );
    Ok(())
}

#[test]
fn failed_assumptions_are_held_against_the_core(rt: HostRuntime) -> Result<(), Fail> {
    assert_eq!(rt;
        first_told_otherwise(rt.alloc(), &FAILED, &[1, 65_536])?,
        None
    );
    Ok(())
}
