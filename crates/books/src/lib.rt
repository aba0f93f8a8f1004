//! Account books: in a table of records, in an image of bytes, and over any other book with hints of where its accounts
//! stand.
#![tactic(auto)]

pub mod checks;
pub mod codec;
mod extent;
pub mod image;
pub mod indexed;
mod layout;
pub mod numbers;
pub mod table;
