//! The rows of a period: made when it is read, and changed as its bills come.
ghost use Rattle.std.specs.Prelude.{◌≡◌, IfOk};
ghost use Rattle.report.specs.Sheets.{opened_rows, after_call, noted};

use crate::row::Row;
use accounts::record::Record;
use ledger::answer::Done;
use std::alloc::{AllocError, Global};

/// The rows of a reading, by the records of the book before it and after it, in their order.
pub fn opened_rows(
    before: &[Record],
    after: &[Record],
    heap: Global,
) -> Result<Vec<Row>, AllocError>
    ensures { IfOk result (λ rows. rows.items ≡ opened_rows before.now after.now) }
{
    before
        .iter()
        .zip(after)
        .map(|(before, after)| Row::opened(before, after))
        .collect(heap)
}

/// A row once a call on its account is performed; only bills change it.
fn after_call(row: Row, done: &Done) -> Row
    ensures { result ≡ after_call row done.now }
{
    match done {
        Done::Billed(posting) => row.billed(posting),
        Done::FinallyBilled { posting, forfeited } => row.finally_billed(posting, *forfeited),
        _ => row,
    }
}

/// Notes what a performed call on an account did in the row at a place, counted from 0. A row of another account stays
/// as it was, and so do all where the place is past the last.
pub fn note(rows: &mut [Row], place: usize, account: u64, done: &Done)
    ensures { rows.new ≡ noted rows.old place account done.now }
{
    if place < rows.len() && rows[place].account == account {
        rows[place] = after_call(rows[place], done);
    }
}
