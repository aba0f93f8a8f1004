//! Why a run is declined.
ghost use Rattle.std.specs.Prelude.{◌≡◌, Some};
ghost use Rattle.ledger_run.specs.declared.refusal.RunRefusal.TheVariants as declined;
ghost use Rattle.ledger_run.specs.Refusals.{run_reason};

use ledger::refusal::Refusal;
use std::alloc::AllocError;
use std::error::Error;
use std::fmt;

/// Why a run is declined; ledger and book are as they were.
#[derive(Clone, Copy, PartialEq, Eq, Debug)]
pub enum RunRefusal {
    /// the ledger is not opened, with 9 or 10
    NotOpened(Refusal),
    /// there is no memory for the answers
    NoMemory,
}

impl From<Refusal> for RunRefusal {
    ghost from_gives = { λ why r. r ≡ declined.NotOpened why };

    fn from(why: Refusal) -> Self {
        Self::NotOpened(why)
    }
}

impl From<AllocError> for RunRefusal {
    ghost from_gives = { λ _ r. r ≡ declined.NoMemory };

    fn from(_: AllocError) -> Self {
        Self::NoMemory
    }
}

impl fmt::Display for RunRefusal {
    ghost output = { λ why. Some (run_reason why) };

    fn fmt<W: fmt::Write>(&self, f: &mut fmt::Formatter<W>) -> fmt::Result {
        match self {
            RunRefusal::NotOpened(why) => write!(f, "{why}"),
            RunRefusal::NoMemory => f.write_str("there is no memory for the answers"),
        }
    }
}

impl Error for RunRefusal {}
