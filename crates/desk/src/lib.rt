//! From a journal's statements to the ledger's calls, the lines that answer them byte for byte, and what they come to
//! together.
#![tactic(auto)]

pub mod amounts;
pub mod answers;
pub mod book_lines;
pub mod log;
pub mod note;
pub mod plan;
pub mod rated;
pub mod refusal;
pub mod totals;
