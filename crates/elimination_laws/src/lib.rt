//! Laws of the elimination of variables, for a solver that eliminates at the begin of each query.
//!
//! They say which variables may go, and that a variable's own clauses tell it; what the steps of an elimination
//! keep; when a whole proof is settled; and what the texts of a session have to be: its answers, its fresh
//! lemmas, and a proof that is accepted. With them a solver can prove what it writes step by step, from the
//! clauses that it has then. That a lemma closes, and that no step has a fault of its own, are premises here.
//!
//! Each law is the contract of a function that does nothing, so that the gate proves it. The stack of
//! eliminated variables and its laws stand in `restore`.
#![tactic(auto)]

mod answer_laws;
mod block_laws;
mod board_laws;
mod clause_laws;
mod proof_laws;

pub use answer_laws::{
    answers_grow, clauses_keep_events, cut_texts_are_built, finished_proofs_are_accepted,
    first_parts_are_underway, fresh_lemmas_stay, ids_and_clauses_agree, ids_stand_for_copies,
    one_id_is_one_step,
};
pub use block_laws::{
    blocks_are_tested, blocks_depend_on_sets, blocks_keep_forced, blocks_keep_resolvents,
    counted_clauses_keep, lists_of_blocks_keep_resolvents, told_blocks_are_blocks,
    told_blocks_end_with_a_weakening,
};
pub use board_laws::{
    boards_begin, given_clauses_stand_for, nothing_stays_to_eliminate, outside_steps_are_settled,
    queried_parts_are_fresh, queried_parts_are_settled, queried_parts_are_within,
    queried_parts_stand_for,
};
pub use clause_laws::{
    asserting_lemmas_are_fresh, eligibility_is_local, eligible_is_tested,
    eligible_variables_have_no_entry, eligible_variables_stand_in_clauses,
    fewer_literals_keep_eligible, forced_stays, more_clauses_keep, rounds_find_forced,
    two_hints_close_a_resolvent, untouched_variables_stay,
};
pub use proof_laws::{
    irredundant_clauses_are_counted, irredundant_in_a_part, proofs_grow,
    search_lemmas_are_those_of_the_search, searches_keep_irredundant, settled_is_tested,
};
