//! A statement of a journal where it stands.
use crate::statement::Statement;

/// A statement of a journal, the line on which it stands, and the bytes of the file that it names.
#[derive(Drop)]
pub struct JournalLine {
    /// The line of the text, counted from 1.
    pub line: usize,
    /// What the line says.
    pub statement: Statement,
    /// The bytes of the request file that the statement names; empty for every other statement, and as long as the file
    /// is not read yet.
    pub file: Vec<u8>,
}
