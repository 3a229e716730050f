//! The check of an interaction and a proof, and the two sides that judge a proof by itself, step by step.
#![tactic(auto)]

mod checking;
mod conversion;
mod idrup;
mod lidrup;
mod literals;
mod proof_side;
mod strangers;
mod turns;

pub use checking::{CheckFault, check_pair};
pub use conversion::Converted;
pub use idrup::IdrupSide;
pub use lidrup::LidrupSide;
