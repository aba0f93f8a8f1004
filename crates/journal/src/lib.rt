//! The statements of a journal: what a line of text says, the text of a statement, a journal's text line by line, and
//! the head that every journal begins with.
#![tactic(auto)]

mod keyword;
pub mod line;
pub mod mistake;
mod number;
pub mod order;
pub mod packed;
pub mod parse;
mod reader;
pub mod statement;
pub mod text;
pub mod write;
