//! Any list of calls on a ledger, and the law that it keeps; postings, calls and a history worked by hand.
#![tactic(auto)]

pub mod refusal;
pub mod run;
pub mod worked;
