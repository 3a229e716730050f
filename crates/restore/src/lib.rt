//! The stack of eliminated variables: the clauses that were taken out with each, and how values are extended over them.
//!
//! A variable is eliminated by taking its clauses out and adding their resolvents (M. Davis and H. Putnam, 1960). What
//! was taken out is kept here, so that a model can be extended to it (N. Eén and A. Biere, 2005), and so that it can be
//! put back where a later line mentions the variable (K. Fazekas, A. Biere and C. Scholl, 2019).
#![tactic(auto)]

mod extend;
mod laws;
mod lists;
mod stack;
mod take;
mod values;

pub use laws::{
    due_resolvents_are_exact, entailed_clauses_are_implied, extension_satisfies, pushing_keeps,
    rounds_find_least, taking_keeps,
};
pub use lists::{Elim, ElimList, Kept, KeptList};
pub use stack::Stack;
pub use values::Values;
