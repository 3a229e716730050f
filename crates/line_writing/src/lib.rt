//! What the three forms of lines share. A line is a letter and a few parts; here such a line is written, whatever its
//! form, so that a form is no more than a table of letters and parts.
#![tactic(auto)]

mod writing;

pub use writing::{Part, status_word, write_parts};
