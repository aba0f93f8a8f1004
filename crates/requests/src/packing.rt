//! Why lines cannot be packed into a request file.
ghost use Rattle.std.specs.Prelude.{◌≡◌, Some};
ghost use Rattle.requests.specs.Refusals.{write_reason_of};
ghost use Rattle.requests.specs.declared.packing.WriteRefusal.TheVariants.{Memory};

use std::alloc::AllocError;
use std::error::Error;
use std::fmt;

/// Why lines are not packed: the first case that applies, `Number` and `Remark` by the first line at fault.
#[derive(Clone, Copy, PartialEq, Eq, Debug)]
pub enum WriteRefusal {
    /// There is no line, or there are over 1,024.
    LineCount,
    /// A number has more digits than its field; the place is the line's, counted from 0.
    Number { place: usize },
    /// A remark has over 79 bytes; the place is the line's, counted from 0.
    Remark { place: usize },
    /// The file would have over 65,535 bytes.
    FileLength,
    /// A file can hold the lines, and there is no memory for it.
    Memory,
}

impl fmt::Display for WriteRefusal {
    ghost output = { λ why. Some (write_reason_of why) };

    fn fmt<W: fmt::Write>(&self, f: &mut fmt::Formatter<W>) -> fmt::Result {
        f.write_str(match self {
            WriteRefusal::LineCount => "a request file has 1 to 1024 lines",
            WriteRefusal::Number { .. } => "a number has more digits than its field",
            WriteRefusal::Remark { .. } => "a remark has over 79 bytes",
            WriteRefusal::FileLength => "the file would have over 65535 bytes",
            WriteRefusal::Memory => "there is no memory for the file",
        })
    }
}

impl Error for WriteRefusal {}

impl From<AllocError> for WriteRefusal {
    ghost from_gives = { λ _ refusal. refusal ≡ Memory };

    fn from(_none: AllocError) -> Self {
        Self::Memory
    }
}
