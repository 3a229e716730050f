//! The board of a solver between queries: definitions of what it is and what each call on it does, with their first laws.
//!
//! A board has the clauses in an engine, the ids of the irredundant ones, the stack of eliminated variables, the inputs as they
//! were given, and the next id. Its calls tell each step to a log the moment they take it. What was told says all of what
//! became of the clauses: replayed by ids on the clauses before, the steps give those after.
//!
//! So far a [`Board`] is made, restores what literals mention, takes inputs, says which variables are eligible and extends models.
//! To eliminate variables isn't here yet, but for the resolvents of one, which are told and added.
#![tactic(auto)]

mod asked;
mod board;
mod database;
mod deleting;
mod eligible;
mod fault;
mod id_set;
mod known;
mod laws;
mod listing;
mod pairs;
mod resolving;
mod searching;
mod taking_out;
mod touching;
mod weakening;

pub use asked::would_be_eligible;
pub use board::Board;
pub use eligible::{is_eligible, is_eligible_on};
pub use fault::BoardFault;
pub use known::is_known;
pub use laws::{
    boards_are_searched, lists_decide_eligibility, own_clauses_decide, restorings_are_due,
    told_steps_join,
};
pub use pairs::{has_few_resolvents, may_go};
pub use searching::{Searching, Simplified};
