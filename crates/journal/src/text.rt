//! The statements of a journal's text, each with the line where it stands.
ghost use Rattle.std.specs.Prelude.{◌≡◌, ◌<◌, OnOk};
ghost use Rattle.journal.specs.Meanings.{meaning, statement_of};
ghost use Rattle.journal.specs.declared.text.JournalFault.TheVariants.{NoMemory};
ghost use Rattle.journal.specs.Journals.{seen, empty, with_statement, one_more, fault_on, fault_text, lines_of, without_feed, read_on, ReadsLine, ReadsText};

use crate::line::JournalLine;
use crate::mistake::Mistake;
use crate::parse::parse;
use crate::statement::{Expected, ParseError, Statement};
use std::alloc::{AllocError, Global};
use std::error::Error;
use std::fmt;

/// The statements of a journal's text.
#[derive(Drop)]
pub struct Journal {
    /// The statements in order; the files that they name are not read yet.
    pub statements: Vec<JournalLine>,
    /// How many lines the text has.
    pub lines: usize,
}

/// Why a text is no journal.
#[derive(Clone, Copy, PartialEq, Eq, Debug)]
pub enum JournalFault {
    /// The first line that cannot be understood.
    Line(Mistake<Expected>),
    /// There is no memory for the statements.
    NoMemory,
}

impl fmt::Display for JournalFault {
    ghost output = { λ why. fault_text why };

    fn fmt<W: fmt::Write>(&self, f: &mut fmt::Formatter<W>) -> fmt::Result {
        match self {
            JournalFault::Line(mistake) => write!(f, "{mistake}"),
            JournalFault::NoMemory => f.write_str("there is no memory for the journal"),
        }
    }
}

impl Error for JournalFault {}

impl From<AllocError> for JournalFault {
    ghost from_gives = { λ _ why. why ≡ NoMemory };

    fn from(_: AllocError) -> Self {
        Self::NoMemory
    }
}

impl JournalFault {
    /// What is wrong with a journal where its line is not understood.
    fn on(line: usize, why: ParseError) -> JournalFault
        ensures { result ≡ fault_on line why }
    {
        match why {
            ParseError::Expected(wanted) => JournalFault::Line(Mistake { line, wanted }),
            ParseError::NoMemory => JournalFault::NoMemory,
        }
    }
}

impl Journal {
    /// Adds a statement that stands on the last line.
    fn keep(&mut self, statement: Statement, heap: Global) -> Result<(), AllocError>
        ensures { OnOk result (seen self.new ≡ with_statement (seen self.old) (meaning statement)) }
    {
        self.statements.push(JournalLine {
            line: self.lines,
            statement,
            file: Vec::new(heap),
        })?;
        Ok(())
    }

    /// Reads one line more.
    fn add(&mut self, text: &[u8], heap: Global) -> Result<(), JournalFault>
        requires { self.old.lines < usize.MAX }
        ensures { ReadsLine (one_more (seen self.old) (statement_of text.now)) result (seen self.new) }
    {
        self.lines += 1;
        let line = self.lines;
        if let Some(statement) = parse(text, heap).map_err(|why| JournalFault::on(line, why))? {
            self.keep(statement, heap)?;
        }
        Ok(())
    }
}

/// A line without the line feed that ends it.
fn without_feed(line: &[u8]) -> &[u8]
    ensures { result.now ≡ without_feed line.now }
{
    line.strip_suffix(b"\n").unwrap_or(line)
}

/// The statements of a text, or the first line that cannot be understood. A line ends at a line feed; what follows the
/// last line feed is a line where it has some bytes.
pub fn read_journal(text: &[u8], heap: Global) -> Result<Journal, JournalFault>
    ensures { ReadsText (read_on (lines_of text.now) empty) result }
{
    let mut journal = Journal {
        statements: Vec::new(heap),
        lines: 0,
    };
    for line in text.split_inclusive(|byte| *byte == b'\n') {
        journal.add(without_feed(line), heap)?;
    }
    Ok(journal)
}
