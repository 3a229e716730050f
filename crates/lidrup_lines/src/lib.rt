//! Lines of a proof by ids and hints: the events of the interaction, and the steps that a solver takes on clauses, which
//! are named by their ids.
#![tactic(auto)]

mod reading;
mod writing;

pub use reading::read_line;
pub use writing::{write_id, write_lemma, write_line};
