//! What every other crate names: what a refusal tells, how money and percentages are written, and the limits that
//! several crates share, each stated once.
#![tactic(auto)]

pub mod amount;
pub mod limits;
pub mod refusal;
