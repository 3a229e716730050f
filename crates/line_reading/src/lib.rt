//! The reading of the parts that lines of all forms are made of, word by word from a window. A line is a letter and a
//! body; a body is lists of literals and ids, each with a 0 at its end, an id or a status. The crates of the single forms
//! say which body stands behind which letter.
//!
//! Each reader takes the next words of the present line and answers their value, or the rule that the first word at fault
//! breaks. It never leaves the line: whatever it answers, a failed read and want of memory included, the window stands in
//! the line that was being read, and the lines behind it are still to come. So a caller can always name the line of a fault.
//!
//! What words say is defined over the list of a line's words (`Part`), and a line that the bound of 2^62 bytes cuts keeps
//! only the words that are known as a whole. So no reader has a case of its own for the cut: it is met as a word that is
//! missing, and breaks Length.
//!
//! Nearly every word stands behind one space and within the bytes that are held. One look at these bytes tells it, and
//! whole runs of literals are taken by one look each; only a word that no look tells (more blanks, the end of the buffer,
//! a word at fault) is read as a word first. Both ways have one contract.
#![tactic(auto)]

mod bodies;
mod entering;
mod expecting;
mod kinds;
mod lists;
mod peeking;
mod runs;
mod spare;
mod words;

pub use bodies::{
    id_literals_body, id_literals_ids_body, ids_body, literals_body, literals_ids_body, status_body,
};
pub use entering::enter_line;
pub use expecting::{expect_end, expect_word};
pub use kinds::{LetterWords, LiteralWords};
pub use lists::{read_id, read_ids, read_literals, read_status};
pub use peeking::peek_letter;
pub use runs::pass_literals;
pub use spare::Spare;
pub use words::{WordKind, end_line, next_word};
