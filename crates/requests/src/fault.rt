//! What is wrong with a request file. A field's fault lies in its line's, and a line's in the file's.
ghost use Rattle.std.specs.Prelude.{◌≡◌, Some};
ghost use Rattle.std.proofs.Common.{rules};
ghost use Rattle.requests.specs.Refusals.{names_place, number_of, place_of, reason_of, read_reason_of};
ghost use Rattle.requests.specs.declared.fault.FieldFault.TheVariants.{NotLetter};
ghost use Rattle.requests.specs.declared.fault.RequestRefusal.TheVariants.{Pair, Line};
ghost use Rattle.requests.specs.declared.fault.ReadError.TheVariants.{Refused, NoMemory};

use accounts::marks::UnknownMark;
use base::refusal::Numbered;
use std::alloc::AllocError;
use std::error::Error;
use std::fmt;

/// What a field of a line should have been.
#[derive(Clone, Copy, PartialEq, Eq, Debug)]
pub enum FieldFault {
    /// A byte of a number is no digit.
    NotDigit,
    /// No space stands behind a field.
    NotSpace,
    /// The size or the kind is none of its letters.
    NotLetter,
}

/// A line that breaks the form.
#[derive(Clone, Copy, PartialEq, Eq, Debug)]
pub struct LineFault {
    /// The line's place in the file, counted from 0.
    pub place: usize,
    /// The first field at fault.
    pub field: FieldFault,
}

/// A pair of offset and length that no line of the file can have.
#[derive(Clone, Copy, PartialEq, Eq, Debug)]
pub struct PairFault {
    /// The pair's place in the file, counted from 0.
    pub place: usize,
}

/// Why a request file is refused. Its number is 1 to 5 in the order of the cases, which is the order of the checks; its
/// place is that of the first pair or line at fault, counted from 0.
#[derive(Clone, Copy, PartialEq, Eq, Debug)]
pub enum RequestRefusal {
    /// The file has under 2 or over 65,535 bytes.
    FileLength,
    /// The line count is 0 or above 1,024, or the pairs pass the file's end.
    LineCount,
    /// The table has fewer places than the file has lines.
    Table,
    /// A pair starts too early, has a length outside 30 to 110, or passes the file's end.
    Pair(PairFault),
    /// A line breaks the form.
    Line(LineFault),
}

/// Why the lines of a request file are not read into a list.
#[derive(Clone, Copy, PartialEq, Eq, Debug)]
pub enum ReadError {
    /// The file is not in order; this is never [`RequestRefusal::Table`].
    Refused(RequestRefusal),
    /// The file is in order, and there is no memory for its lines.
    NoMemory,
}

impl fmt::Display for RequestRefusal {
    ghost output = { λ refusal. Some (reason_of refusal) };

    fn fmt<W: fmt::Write>(&self, f: &mut fmt::Formatter<W>) -> fmt::Result {
        f.write_str(match self {
            RequestRefusal::FileLength => "the file has under 2 or over 65,535 bytes",
            RequestRefusal::LineCount =>
                "the line count is 0 or above 1,024, or the pairs pass the file's end",
            RequestRefusal::Table => "the table has fewer places than the file has lines",
            RequestRefusal::Pair(_) =>
                "the pair starts too early, has a length outside 30 to 110, or passes the file's end",
            RequestRefusal::Line(_) => "the line breaks the form",
        })
    }
}

impl Error for RequestRefusal {}

impl Numbered for RequestRefusal {
    ghost number = { number_of };

    ghost place = { place_of };

    ghost names_place = { names_place };

    ghost reason = { reason_of };

    ghost spoken = { λ _. Prim.search rules };

    fn number(&self) -> u8 {
        match self {
            RequestRefusal::FileLength => 1,
            RequestRefusal::LineCount => 2,
            RequestRefusal::Table => 3,
            RequestRefusal::Pair(_) => 4,
            RequestRefusal::Line(_) => 5,
        }
    }

    fn place(&self) -> usize {
        match self {
            RequestRefusal::FileLength | RequestRefusal::LineCount | RequestRefusal::Table => 0,
            RequestRefusal::Pair(fault) => fault.place,
            RequestRefusal::Line(fault) => fault.place,
        }
    }

    fn names_place(&self) -> bool {
        matches!(self, RequestRefusal::Pair(_) | RequestRefusal::Line(_))
    }
}

impl fmt::Display for ReadError {
    ghost output = { λ error. Some (read_reason_of error) };

    fn fmt<W: fmt::Write>(&self, f: &mut fmt::Formatter<W>) -> fmt::Result {
        match self {
            ReadError::Refused(refusal) => refusal.fmt(f),
            ReadError::NoMemory => f.write_str("there is no memory for the lines"),
        }
    }
}

impl Error for ReadError {}

impl From<UnknownMark> for FieldFault {
    ghost from_gives = { λ _ fault. fault ≡ NotLetter };

    fn from(_mark: UnknownMark) -> FieldFault {
        FieldFault::NotLetter
    }
}

impl From<PairFault> for RequestRefusal {
    ghost from_gives = { λ pair refusal. refusal ≡ Pair pair };

    fn from(pair: PairFault) -> RequestRefusal {
        RequestRefusal::Pair(pair)
    }
}

impl From<LineFault> for RequestRefusal {
    ghost from_gives = { λ line refusal. refusal ≡ Line line };

    fn from(line: LineFault) -> RequestRefusal {
        RequestRefusal::Line(line)
    }
}

impl From<RequestRefusal> for ReadError {
    ghost from_gives = { λ refusal error. error ≡ Refused refusal };

    fn from(refusal: RequestRefusal) -> ReadError {
        ReadError::Refused(refusal)
    }
}

impl From<AllocError> for ReadError {
    ghost from_gives = { λ _ error. error ≡ NoMemory };

    fn from(_none: AllocError) -> ReadError {
        ReadError::NoMemory
    }
}
