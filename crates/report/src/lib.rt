//! The host's monthly report: the summary of a closed period, and what the host is paid and why.
#![tactic(auto)]

mod cells;
pub mod payment;
pub mod row;
pub mod sheet;
pub mod table;
