//! Tests of the rules below the ledger: at the edges of their ranges, over damaged bytes, and of what no contract says.
#![tactic(auto)]

#[cfg(test)]
mod book_calls;
#[cfg(test)]
mod credits;
#[cfg(test)]
mod hints;
#[cfg(test)]
mod request_files;
