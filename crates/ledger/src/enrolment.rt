//! Enrolment: what the lines of a request make of the records of a book.
ghost use Rattle.std.specs.Prelude.{◌≡◌, true, map};
ghost use Rattle.accounts.specs.Books.{Leaves, every};
ghost use Rattle.accounts.specs.Ranges.{line_in_range};
ghost use Rattle.ledger.specs.Lines.{FitsLine, FitsLines, enter_all, enter_line};
ghost use Rattle.ledger.specs.Records.{allocated, joining, unallocated};

use accounts::book::AccountBook;
use accounts::entries::{entry_at, replace_each};
use accounts::record::{Line, Record};

/// Takes each record's percentage away.
pub(crate) fn clear_percentages<B: AccountBook>(book: &mut B)
    ensures { Leaves B.sound B.contents B.same_rest book.old book.new (map unallocated) }
{
    replace_each(
        book,
        |entry| Record {
            percentage: 0,
            ..entry.holder
        },
    );
}

// A record with a line's values.
fn allocated(line: &Line, holder: Record) -> Record
    ensures { result ≡ allocated line.now holder }
{
    Record {
        percentage: line.percentage,
        savings: line.savings,
        class: line.class,
        size: line.size,
        kind: line.kind,
        ..holder
    }
}

// The record of a new account.
fn joining(line: &Line) -> Record
    ensures { result ≡ joining line.now }
{
    allocated(
        line,
        Record {
            account: line.account,
            ..Record::default()
        },
    )
}

// Gives a line's account its values, or adds the account where the book lacks it.
fn enter_line<B: AccountBook>(book: &mut B, line: &Line)
    ensures { line_in_range line.now ≡ true → FitsLine (B.contents book.old) line.now
        → Leaves B.sound B.contents B.same_rest book.old book.new (λ rs. enter_line rs line.now) }
{
    match book.search(line.account) {
        Some(place) => {
            if let Some(entry) = entry_at(book, place) {
                let _ = book.replace(entry.place, allocated(line, entry.holder));
            }
        }
        None => {
            let _ = book.add(joining(line));
        }
    }
}

/// Enters lines in their order: each is in range, and the book has room for the new accounts.
pub(crate) fn enter_lines<B: AccountBook>(book: &mut B, lines: &[Line])
    ensures { every line_in_range lines.now ≡ true → FitsLines (B.contents book.old) lines.now
        → Leaves B.sound B.contents B.same_rest book.old book.new (λ rs. enter_all rs lines.now) }
{
    for line in lines {
        enter_line(book, line);
    }
}
