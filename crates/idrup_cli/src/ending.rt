// How a run ends.
ghost use Rattle.std.specs.Prelude.{◌≡◌};
ghost use Rattle.idrup_cli.specs.Report.{status_of, verdict_status};

use session_rules::Verdict;

/// How a run ends, but for a fault of the report.
#[derive(Clone, Copy, Debug, PartialEq, Eq)]
pub enum Ending {
    /// The check came to this verdict.
    Checked(Verdict),
    /// The words have no plan.
    Usage,
    /// A read of the interaction failed.
    ReadInteraction,
    /// A read of the proof failed.
    ReadProof,
    /// Memory was wanting.
    NoMemory,
}

impl Ending {
    // The status of the program, where its line can be told.
    pub(crate) fn status(&self) -> u8
        ensures { result ≡ status_of self.now }
    {
        match self {
            Ending::Checked(verdict) => status_of_verdict(verdict),
            Ending::Usage => 2,
            Ending::ReadInteraction | Ending::ReadProof => 3,
            Ending::NoMemory => 5,
        }
    }
}

fn status_of_verdict(verdict: &Verdict) -> u8
    ensures { result ≡ verdict_status verdict.now }
{
    match verdict {
        Verdict::Accepted { .. } => 0,
        Verdict::Refused { .. } => 1,
    }
}
