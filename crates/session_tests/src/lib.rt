//! Tests that cross crates: worked pairs of an interaction and a proof through the top call, with the line that it reports.
#![tactic(auto)]

#[cfg(test)]
mod causes;
#[cfg(test)]
mod chains;
#[cfg(test)]
mod converting;
#[cfg(test)]
mod cuts;
#[cfg(test)]
mod pairs;
#[cfg(test)]
mod partial;
#[cfg(test)]
mod running;
