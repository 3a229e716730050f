//! Lines of a proof by literals: the events of the interaction, and the steps that a solver takes on clauses.
#![tactic(auto)]

mod reading;
mod writing;

pub use reading::read_line;
pub use writing::{write_line, write_lits};
