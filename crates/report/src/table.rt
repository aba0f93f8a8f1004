//! The lines of a period's summary: a row for each satellite, then the satellites together, and the host's bank.
ghost use Rattle.std.specs.Prelude.{◌≡◌, IfOk, Some, string_bytes};
ghost use Rattle.report.specs.Tables.{summary_label, row_figures, sum_figures, bank_figures, row_text, satellites_text, bank_text, IsTableLine};

use crate::cells::push_right;
use crate::row::{Column, Row};
use base::amount::{Dollars, Percent};
use std::alloc::{AllocError, Global};
use std::fmt;
use std::fmt::Display;

/// The heads of the columns.
pub const HEADS: &str =
    "    Account   Percent   Carried over          Share      Available   Applied in $           Left";

/// The numbers of a line behind its percentage.
#[derive(Clone, Copy, PartialEq, Eq, Debug)]
pub struct Figures {
    /// Units held before the reading.
    pub carried: u128,
    /// Units of the reading.
    pub share: u128,
    /// Carried over and share together.
    pub available: u128,
    /// The applied credit, in cents.
    pub applied: u128,
    /// Units held at the close.
    pub left: u128,
}

/// The units in the host bank before and after a reading.
#[derive(Clone, Copy, Default, PartialEq, Eq, Debug)]
pub struct Bank {
    /// Units before the reading.
    pub before: u64,
    /// Units after it.
    pub after: u64,
}

/// A line that is no single satellite's.
#[derive(Clone, Copy)]
enum Summary {
    Satellites,
    HostBank,
}

impl fmt::Display for Summary {
    ghost output = { λ line. Some (summary_label line) };

    fn fmt<W: fmt::Write>(&self, f: &mut fmt::Formatter<W>) -> fmt::Result {
        f.write_str(match self {
            Summary::Satellites => "Satellites",
            Summary::HostBank => "Host bank",
        })
    }
}

impl From<&Row> for Figures {
    ghost from_gives = { λ row figures. figures ≡ row_figures row.now };

    fn from(row: &Row) -> Figures {
        Figures {
            carried: u128::from(row.carried),
            share: u128::from(row.share),
            available: row.available(),
            applied: u128::from(row.applied),
            left: u128::from(row.left),
        }
    }
}

impl From<&[Row]> for Figures {
    ghost from_gives = { λ rows figures. figures ≡ sum_figures rows.now };

    fn from(rows: &[Row]) -> Figures {
        Figures {
            carried: Column::Carried.total(rows),
            share: Column::Share.total(rows),
            available: Column::Available.total(rows),
            applied: Column::Applied.total(rows),
            left: Column::Left.total(rows),
        }
    }
}

// the reading's rest is the bank's share, and no bill is paid from the bank
impl From<Bank> for Figures {
    ghost from_gives = { λ bank figures. figures ≡ bank_figures bank };

    fn from(bank: Bank) -> Figures {
        Figures {
            carried: u128::from(bank.before),
            share: u128::from(bank.after.saturating_sub(bank.before)),
            available: u128::from(bank.after),
            applied: 0,
            left: u128::from(bank.after),
        }
    }
}

/// A line of the summary: what it is of, its percentage, and its numbers, each in a column of its own.
#[tactic(auto, unfolding(crate::specs::Tables::table_text))]
fn table_line<L: Display, P: Display>(
    label: &L,
    percent: &P,
    figures: Figures,
    heap: Global,
) -> Result<String, AllocError>
    ensures { IfOk result (λ s. IsTableLine (L.output label.now) (P.output percent.now) figures
        (string_bytes s)) }
{
    let mut line = String::new(heap);
    push_right(&mut line, label, 11, heap)?;
    push_right(&mut line, percent, 10, heap)?;
    push_right(&mut line, &figures.carried, 15, heap)?;
    push_right(&mut line, &figures.share, 15, heap)?;
    push_right(&mut line, &figures.available, 15, heap)?;
    push_right(&mut line, &Dollars::from(figures.applied), 15, heap)?;
    push_right(&mut line, &figures.left, 15, heap)?;
    Ok(line)
}

/// A satellite's line.
pub fn row_line(row: &Row, heap: Global) -> Result<String, AllocError>
    ensures { IfOk result (λ s. string_bytes s ≡ row_text row.now) }
{
    let percent = Percent::from(u128::from(row.percentage));
    table_line(&row.account, &percent, Figures::from(row), heap)
}

/// The line of all satellites together.
pub fn satellites_line(rows: &[Row], heap: Global) -> Result<String, AllocError>
    ensures { IfOk result (λ s. string_bytes s ≡ satellites_text rows.now) }
{
    let percent = Percent::from(Column::Percentage.total(rows));
    table_line(&Summary::Satellites, &percent, Figures::from(rows), heap)
}

/// The line of the host bank, which has no percentage of its own.
pub fn bank_line(bank: Bank, heap: Global) -> Result<String, AllocError>
    ensures { IfOk result (λ s. string_bytes s ≡ bank_text bank) }
{
    table_line(&Summary::HostBank, &"", Figures::from(bank), heap)
}
