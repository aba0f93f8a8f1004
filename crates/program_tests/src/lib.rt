//! Tests that cross crates: the lines that are read and printed, whole journals, reports, how the program's tasks end,
//! and what the ledger answers on a book that is not proper.
#![tactic(auto)]

#[cfg(test)]
mod improper;
#[cfg(test)]
mod journals;
#[cfg(test)]
mod reports;
#[cfg(test)]
mod tasks;
#[cfg(test)]
mod texts;
