//! Why a call is declined.
ghost use Rattle.std.specs.Prelude.{Some};
ghost use Rattle.std.proofs.Common.{rules};
ghost use Rattle.ledger.specs.Refusals.{names_place, number, place as place_of, reason};

use base::refusal::Numbered;
use std::error::Error;
use std::fmt;

/// Why an opening or a call is declined, each with its number; a declined call changes nothing. A place is that of a
/// line, counted from 0.
#[derive(Clone, Copy, PartialEq, Eq, Debug)]
pub enum Refusal {
    /// 9: the smallest number of lines is neither 1 nor 10
    WrongSmallest,
    /// 10: a ledger opens on an empty book
    BookHasRecords,
    /// 11: the call belongs between periods
    InPeriod,
    /// 12: fewer lines than the smallest number, or over 1,024
    WrongLineCount,
    /// 13: a number of the line is out of range; the place of the first such line
    LineOutOfRange { place: usize },
    /// 14: the account stands on an earlier line; the place of the first such line
    AccountRepeated { place: usize },
    /// 15: the account is closed; the place of the first such line
    LineOfClosedAccount { place: usize },
    /// 16: the percentages pass 100 percent together
    PercentagesPass,
    /// 17: without the farm mark, those of large satellites pass 40 percent together
    LargePercentagesPass,
    /// 18: the book has too few free places for the new accounts
    BookTooSmall,
    /// 19: 1,200 periods are closed
    PeriodsOver,
    /// 20: the reading is above 10^10 units
    ReadingTooLarge,
    /// 21: all readings together would pass 10^12 units
    ReadingsPass,
    /// 22: the call belongs in a period
    BetweenPeriods,
    /// 23: the bill is above 10^9 cents
    BillTooLarge,
    /// 24: the account is missing or closed
    NoOpenAccount,
    /// 25: the account was billed in this period already
    BilledAlready,
    /// 26: the units are 0, or more than the host bank has
    NotInBank,
    /// 27: the book is another ledger's
    ForeignBook,
}

impl fmt::Display for Refusal {
    ghost output = { λ why. Some (reason why) };

    fn fmt<W: fmt::Write>(&self, f: &mut fmt::Formatter<W>) -> fmt::Result {
        f.write_str(match self {
            Refusal::WrongSmallest => "the smallest number of lines is neither 1 nor 10",
            Refusal::BookHasRecords => "the book has records already",
            Refusal::InPeriod => "a period is open",
            Refusal::WrongLineCount => "the lines are too few, or more than 1024",
            Refusal::LineOutOfRange { .. } => "a number of the line is out of range",
            Refusal::AccountRepeated { .. } => "the account stands on an earlier line",
            Refusal::LineOfClosedAccount { .. } => "the account is closed",
            Refusal::PercentagesPass => "the percentages pass 100 percent together",
            Refusal::LargePercentagesPass =>
                "the percentages of large satellites pass 40 percent together",
            Refusal::BookTooSmall => "the book has no room for the new accounts",
            Refusal::PeriodsOver => "all 1200 periods are closed",
            Refusal::ReadingTooLarge => "the reading passes 10000000000 units",
            Refusal::ReadingsPass => "the readings pass 1000000000000 units together",
            Refusal::BetweenPeriods => "no period is open",
            Refusal::BillTooLarge => "the bill passes 1000000000 cents",
            Refusal::NoOpenAccount => "no open account has this number",
            Refusal::BilledAlready => "the account is billed already in this period",
            Refusal::NotInBank => "the units are 0, or more than the bank has",
            Refusal::ForeignBook => "the book is another ledger's",
        })
    }
}

impl Error for Refusal {}

impl Numbered for Refusal {
    ghost number = { number };

    ghost place = { place_of };

    ghost names_place = { names_place };

    ghost reason = { reason };

    ghost spoken = { λ why. Prim.search rules };

    fn number(&self) -> u8 {
        match self {
            Refusal::WrongSmallest => 9,
            Refusal::BookHasRecords => 10,
            Refusal::InPeriod => 11,
            Refusal::WrongLineCount => 12,
            Refusal::LineOutOfRange { .. } => 13,
            Refusal::AccountRepeated { .. } => 14,
            Refusal::LineOfClosedAccount { .. } => 15,
            Refusal::PercentagesPass => 16,
            Refusal::LargePercentagesPass => 17,
            Refusal::BookTooSmall => 18,
            Refusal::PeriodsOver => 19,
            Refusal::ReadingTooLarge => 20,
            Refusal::ReadingsPass => 21,
            Refusal::BetweenPeriods => 22,
            Refusal::BillTooLarge => 23,
            Refusal::NoOpenAccount => 24,
            Refusal::BilledAlready => 25,
            Refusal::NotInBank => 26,
            Refusal::ForeignBook => 27,
        }
    }

    fn place(&self) -> usize {
        match self {
            Refusal::LineOutOfRange { place }
            | Refusal::AccountRepeated { place }
            | Refusal::LineOfClosedAccount { place } => *place,
            _ => 0,
        }
    }

    fn names_place(&self) -> bool {
        matches!(
            self,
            Refusal::LineOutOfRange { .. }
                | Refusal::AccountRepeated { .. }
                | Refusal::LineOfClosedAccount { .. }
        )
    }
}
