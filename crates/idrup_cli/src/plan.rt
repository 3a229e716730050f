// What a command line asks for.

use session_rules::Form;

/// What the program does.
#[derive(Clone, Copy, Debug, PartialEq, Eq)]
pub enum Command {
    /// Judges an interaction and a proof.
    Check,
    /// Answers the queries of a script, and proves the answers.
    Solve,
    /// Gives a proof by literals ids and hints.
    Convert,
    /// Solves a script of a given size.
    Demo,
}

/// A command, the form of its proof, and where among the words the names of its files stand, counted from 0: of what it
/// reads first and second, of the interaction and of the proof that it writes. `size` is the number of `demo`, else 0.
#[derive(Clone, Copy, Debug, PartialEq, Eq)]
pub struct Places {
    pub command: Command,
    pub form: Form,
    pub first: Option<usize>,
    pub second: Option<usize>,
    pub out: Option<usize>,
    pub proof: Option<usize>,
    pub size: u64,
}
