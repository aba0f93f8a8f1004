//! The net crediting ledger of one host: phases, calls, answers and refusals, over any crediting method and any account
//! book.
#![tactic(auto)]

mod account;
pub mod answer;
mod bill;
pub mod call;
mod enrolment;
pub mod ledger;
mod limits;
mod lines;
mod period;
pub mod phase;
pub mod refusal;
