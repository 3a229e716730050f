//! Lines of the interaction between a user and a solver: input clauses, queries, and the answers to them.
#![tactic(auto)]

mod header;
mod marks;
mod matching;
mod meeting;
mod reading;
mod runs;
mod writing;

pub use header::{HeaderFault, read_header};
pub use marks::Marks;
pub use matching::{Match, MatchFault, match_line};
pub use reading::{read_event, read_line, read_script_line};
pub use writing::{write_header, write_line};
