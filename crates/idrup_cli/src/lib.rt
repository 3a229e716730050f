//! What the program does, over any sources and sinks: the plan of its words, the command that they ask for, and the one
//! line of the report that tells how it ended.
#![tactic(auto)]

mod ending;
mod lines;
mod plan;
mod telling;
mod text;
mod top;
mod words;

pub use ending::Ending;
pub use plan::{Command, Places};
pub use top::run;
pub use words::places;

#[cfg(test)]
mod tests;
