//! How a month's reading is shared out by percentages. It knows of records and books, and of no call or refusal of a
//! ledger.
#![tactic(auto)]

pub mod reading;
