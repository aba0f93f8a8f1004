//! Account records and allocation lines, the marks by which they are written, the interface of an account book, and
//! what any code over a book needs.
#![tactic(auto)]

pub mod book;
pub mod entries;
pub mod entry;
pub mod marks;
pub mod project;
pub mod record;
