//! Tests of the crates that read and write lines: each public call once where no clause says all.
#![tactic(auto)]

#[cfg(test)]
mod bodies;
#[cfg(test)]
mod events_read;
#[cfg(test)]
mod events_written;
#[cfg(test)]
mod headers;
#[cfg(test)]
mod id_steps_read;
#[cfg(test)]
mod id_steps_written;
#[cfg(test)]
mod logs;
#[cfg(test)]
mod numbers;
#[cfg(test)]
mod partners;
#[cfg(test)]
mod parts;
#[cfg(test)]
mod steps_read;
#[cfg(test)]
mod steps_written;
#[cfg(test)]
mod tokens;
