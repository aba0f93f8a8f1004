//! Journals with each kind of mistake, with the line and the words with which each is refused; and a long journal.

mod long;
mod mistakes;
