//! What a journal's line can say, and what is expected of a line that cannot be understood.
ghost use Rattle.std.specs.Prelude.{◌≡◌, Some};
ghost use Rattle.journal.specs.declared.statement.ParseError.TheVariants.{NoMemory};
ghost use Rattle.journal.specs.Mistakes.{expected_text, parse_error_text};

use accounts::project::Project;
use accounts::record::Line;
use std::alloc::{AllocError, AllocFailed};
use std::error::Error;
use std::fmt;

/// The name of a crediting method.
#[derive(Clone, Copy, PartialEq, Eq, Debug)]
pub enum MethodName {
    /// Units are worth cents.
    ValueStack,
    /// Units are kilowatt-hours, each worth the rate of the account's class.
    Volumetric,
}

/// The account book, empty.
#[derive(Clone, Copy, PartialEq, Eq, Debug)]
pub enum BookKind {
    /// A table of so many places.
    Table { places: u64 },
    /// An image in so many bytes.
    Image { bytes: u64 },
}

/// What a line of a journal says.
#[derive(Debug, Drop)]
pub enum Statement {
    /// The method of the ledger.
    Method(MethodName),
    /// The account book of the ledger.
    Book(BookKind),
    /// Opens the ledger.
    Open(Project),
    /// The volumetric rates of the bills that follow.
    Rates(Vec<u32>),
    /// One more line in hand.
    Line(Line),
    /// The lines of a request file, by its name, in the place of those in hand.
    Request(String),
    /// Enrols the lines in hand.
    Enrol,
    /// The reading of the open period, in units.
    Reading(u64),
    /// A bill of an account.
    Bill { account: u64, cents: u64 },
    /// The last bill of an account.
    Final { account: u64, cents: u64 },
    /// Moves units from the host bank to an account.
    Disburse { account: u64, units: u64 },
    /// Forfeits the host bank.
    Lapse,
    /// Closes the open period.
    Close,
}

/// The word that a line lacks, or in the place of which it has another.
#[derive(Clone, Copy, PartialEq, Eq, Debug)]
pub enum Expected {
    Statement,
    Method,
    Book,
    Places,
    Bytes,
    /// The smallest number of lines of a request.
    Smallest,
    Project,
    Rate,
    Account,
    Percentage,
    Savings,
    Class,
    Size,
    Kind,
    File,
    Units,
    Cents,
    /// The end of the line: it has a word too many.
    End,
}

impl fmt::Display for Expected {
    ghost output = { λ what. Some (expected_text what) };

    fn fmt<W: fmt::Write>(&self, f: &mut fmt::Formatter<W>) -> fmt::Result {
        f.write_str(match self {
            Expected::Statement =>
                "a statement: method, book, open, rates, line, request, enrol, reading, bill, final, disburse, lapse or close",
            Expected::Method => "value-stack or volumetric",
            Expected::Book => "table or image",
            Expected::Places => "the places of the table, in digits",
            Expected::Bytes => "the bytes of the image, in digits",
            Expected::Smallest => "the smallest number of lines, in digits",
            Expected::Project => "plain or farm",
            Expected::Rate => "a rate, in digits",
            Expected::Account => "an account, in digits",
            Expected::Percentage => "a percentage in thousandths, in digits",
            Expected::Savings => "the savings in hundredths of a percent, in digits",
            Expected::Class => "a service class, in digits",
            Expected::Size => "S or L",
            Expected::Kind => "M or X",
            Expected::File => "the name of a file",
            Expected::Units => "units, in digits",
            Expected::Cents => "cents, in digits",
            Expected::End => "the end of the line",
        })
    }
}

/// Why a line is not understood.
#[derive(Clone, Copy, PartialEq, Eq, Debug)]
pub enum ParseError {
    /// A word is missing or has another in its place.
    Expected(Expected),
    /// There is no memory for the statement.
    NoMemory,
}

impl fmt::Display for ParseError {
    ghost output = { λ why. Some (parse_error_text why) };

    fn fmt<W: fmt::Write>(&self, f: &mut fmt::Formatter<W>) -> fmt::Result {
        match self {
            ParseError::Expected(what) => write!(f, "expected {what}"),
            ParseError::NoMemory => f.write_str("there is no memory for the statement"),
        }
    }
}

impl Error for ParseError {}

impl From<AllocError> for ParseError {
    ghost from_gives = { λ _ r. r ≡ NoMemory };

    fn from(_: AllocError) -> Self {
        Self::NoMemory
    }
}

impl<T: Drop> From<AllocFailed<T>> for ParseError {
    ghost from_gives = { λ _ r. r ≡ NoMemory };

    fn from(failed: AllocFailed<T>) -> Self {
        AllocError::from(failed).into()
    }
}
