//! A satellite's row in the summary of a period.
ghost use Rattle.std.specs.Prelude.{◌≡◌, ◌*◌, ◌≤◌, sum_by};
ghost use Rattle.report.specs.Rows.{opened, billed, finally_billed, available, cell};

use accounts::record::Record;
use ledger::answer::Posting;

/// What a period was for a satellite.
#[derive(Clone, Copy, PartialEq, Eq, Debug)]
pub struct Row {
    /// The satellite's account.
    pub account: u64,
    /// The satellite's part of the generation, in thousandths of a percent.
    pub percentage: u32,
    /// Units held before the reading.
    pub carried: u64,
    /// Units of the reading.
    pub share: u64,
    /// The applied credit, in cents.
    pub applied: u64,
    /// Units held at the close.
    pub left: u64,
    /// Units that a final bill forfeits.
    pub forfeited: u64,
}

/// A column of numbers in the rows of a period.
#[derive(Clone, Copy, PartialEq, Eq, Debug)]
pub enum Column {
    Percentage,
    Carried,
    Share,
    /// Carried over and share together.
    Available,
    Applied,
    Left,
    Forfeited,
}

impl Row {
    /// The row of an account that is not billed yet, by its record before and after the reading.
    pub fn opened(before: &Record, after: &Record) -> Row
        ensures { result ≡ opened before.now after.now }
    {
        Row {
            account: after.account,
            percentage: after.percentage,
            carried: before.held,
            share: after.held.saturating_sub(before.held),
            applied: 0,
            left: after.held,
            forfeited: 0,
        }
    }

    /// The row once the account's bill is posted.
    pub fn billed(self, posting: &Posting) -> Row
        ensures { result ≡ billed self posting.now }
    {
        Row {
            applied: posting.applied,
            left: self.left.saturating_sub(posting.used),
            ..self
        }
    }

    /// The row once the account's final bill is posted: nothing is left, and what the bill did not use is forfeited.
    pub fn finally_billed(self, posting: &Posting, forfeited: u64) -> Row
        ensures { result ≡ finally_billed self posting.now forfeited }
    {
        Row {
            applied: posting.applied,
            left: 0,
            forfeited,
            ..self
        }
    }

    /// Carried over and share together, in units.
    pub fn available(&self) -> u128
        ensures value { result ≡ available self.now }
        ensures bound { result ≤ 2 * u64.MAX }
    {
        u128::from(self.carried) + u128::from(self.share)
    }
}

impl Column {
    /// The number of the column in a row.
    pub fn of(self, row: &Row) -> u128
        ensures value { result ≡ cell self row.now }
        ensures bound { result ≤ 2 * u64.MAX }
    {
        match self {
            Column::Percentage => u128::from(row.percentage),
            Column::Carried => u128::from(row.carried),
            Column::Share => u128::from(row.share),
            Column::Available => row.available(),
            Column::Applied => u128::from(row.applied),
            Column::Left => u128::from(row.left),
            Column::Forfeited => u128::from(row.forfeited),
        }
    }

    /// The sum of the column over all rows.
    pub fn total(self, rows: &[Row]) -> u128
        ensures { result ≡ sum_by (cell self) rows.now }
    {
        rows.iter().map(|row| self.of(row)).sum()
    }
}
