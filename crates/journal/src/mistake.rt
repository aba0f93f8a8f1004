//! A line of a journal that is not as it should be.
ghost use Rattle.journal.specs.Mistakes.{mistake_text};

use std::error::Error;
use std::fmt;
use std::fmt::{Debug, Display};

/// A line of a journal, and what it should have had: a word, a statement, or a file that can be read. It is printed as
/// `journal line 7: expected ..`.
#[derive(Clone, Copy, PartialEq, Eq, Debug, Drop)]
pub struct Mistake<W> {
    /// The line of the text, counted from 1.
    pub line: usize,
    /// What the line should have had.
    pub wanted: W,
}

impl<W: Display> Display for Mistake<W> {
    ghost output = { λ m. mistake_text m.line (W.output m.wanted) };

    fn fmt<O: fmt::Write>(&self, f: &mut fmt::Formatter<O>) -> fmt::Result {
        let line = self.line;
        let wanted = &self.wanted;
        write!(f, "journal line {line}: expected {wanted}")
    }
}

impl<W: Display + Debug + Drop> Error for Mistake<W> {}
