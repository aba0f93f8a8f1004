//! The head of a journal: it begins with the method, the book and the opening, in this order, and has none of them
//! later.
ghost use Rattle.std.specs.Prelude.{◌≡◌, map, Some};
ghost use Rattle.journal.specs.Meanings.{meaning};
ghost use Rattle.journal.specs.Orders.{part, wanted_in, next, ordered, headed, head_of, placed, wanted_text};

use crate::line::JournalLine;
use crate::mistake::Mistake;
use crate::statement::{BookKind, MethodName, Statement};
use accounts::project::Project;
use std::fmt;

/// What a statement is to the head of a journal.
#[derive(Clone, Copy)]
pub enum Part {
    Method(MethodName),
    Book(BookKind),
    Open(Project),
    /// Any statement but these three.
    Later,
}

/// How far the head of a journal is read.
#[derive(Clone, Copy)]
pub enum Stage {
    Start,
    HasMethod(MethodName),
    HasBook(MethodName, BookKind),
    Opened(Head),
}

/// What the first three statements of a journal say.
#[derive(Clone, Copy)]
pub struct Head {
    /// The crediting method.
    pub method: MethodName,
    /// The account book.
    pub book: BookKind,
    /// The project that the ledger is opened for.
    pub project: Project,
}

/// What a line out of order should have had.
#[derive(Clone, Copy, PartialEq, Eq, Debug)]
pub enum Wanted {
    Method,
    Book,
    Open,
    /// Any statement but these three.
    Later,
}

impl fmt::Display for Wanted {
    ghost output = { λ wanted. Some (wanted_text wanted) };

    fn fmt<W: fmt::Write>(&self, f: &mut fmt::Formatter<W>) -> fmt::Result {
        f.write_str(match self {
            Wanted::Method => "the method as the first statement",
            Wanted::Book => "the book as the second statement",
            Wanted::Open => "the opening as the third statement",
            Wanted::Later => "no second method, book or opening",
        })
    }
}

impl From<&Statement> for Part {
    ghost from_gives = { λ statement place. place ≡ part (meaning statement.now) };

    fn from(statement: &Statement) -> Part {
        match statement {
            Statement::Method(name) => Part::Method(*name),
            Statement::Book(book) => Part::Book(*book),
            Statement::Open(project) => Part::Open(*project),
            _ => Part::Later,
        }
    }
}

impl Stage {
    /// The statement that has to follow.
    fn wanted(self) -> Wanted
        ensures { result ≡ wanted_in self }
    {
        match self {
            Stage::Start => Wanted::Method,
            Stage::HasMethod(_) => Wanted::Book,
            Stage::HasBook(_, _) => Wanted::Open,
            Stage::Opened(_) => Wanted::Later,
        }
    }

    /// How far the head is read behind one more statement, or the mistake of its line.
    fn next(self, line: usize, part: Part) -> Result<Stage, Mistake<Wanted>>
        ensures { result ≡ next self line part }
    {
        match (self, part) {
            (Stage::Start, Part::Method(method)) => Ok(Stage::HasMethod(method)),
            (Stage::HasMethod(method), Part::Book(book)) => Ok(Stage::HasBook(method, book)),
            (Stage::HasBook(method, book), Part::Open(project)) => Ok(Stage::Opened(Head {
                method,
                book,
                project,
            })),
            (Stage::Opened(_), Part::Later) => Ok(self),
            _ => Err(Mistake {
                line,
                wanted: self.wanted(),
            }),
        }
    }

    /// The head; a mistake on the line `end` where the journal ends before it is complete.
    fn head(self, end: usize) -> Result<Head, Mistake<Wanted>>
        ensures { result ≡ headed end self }
    {
        match self {
            Stage::Opened(head) => Ok(head),
            _ => Err(Mistake {
                line: end,
                wanted: self.wanted(),
            }),
        }
    }
}

/// The head of a journal whose text ends before the line `end`, or the first line that is out of order. A journal that
/// ends too early lacks a statement on the line `end`.
pub fn read_head(statements: &[JournalLine], end: usize) -> Result<Head, Mistake<Wanted>>
    ensures { result ≡ head_of end (map placed statements.now) }
{
    let mut stage = Stage::Start;
    for stated in statements {
        stage = stage.next(stated.line, Part::from(&stated.statement))?;
    }
    stage.head(end)
}
