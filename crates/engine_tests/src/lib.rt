//! Tests of the crates that keep clauses, propagate, and judge events: each public call once where no clause says all.
#![tactic(auto)]

#[cfg(test)]
mod boards;
#[cfg(test)]
mod deciding;
#[cfg(test)]
mod events;
#[cfg(test)]
mod occurring;
#[cfg(test)]
mod order;
#[cfg(test)]
mod plain;
#[cfg(test)]
#[tactic(auto, using(lit_pool::proofs::Slots::slot_steps))]
mod pool;
#[cfg(test)]
mod resolving;
#[cfg(test)]
mod restoring;
