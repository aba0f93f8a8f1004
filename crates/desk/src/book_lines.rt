//! The lines of the ledger and of its accounts, after the last statement.
ghost use Rattle.std.specs.Prelude.{◌≡◌, IfOk, Some, string_bytes};
ghost use Rattle.desk.specs.BookLines.{ledger_text, terms_text, account_text};

use accounts::record::Record;
use ledger::phase::Phase;
use std::alloc::{AllocError, Global};
use std::fmt;

/// The line of a ledger: its phase, its closed periods and the units in its bank, and the applied credits and fees of
/// the open period, in cents.
pub fn ledger_line(phase: Phase, closed: u32, bank: u64, heap: Global) -> Result<String, AllocError>
    ensures { IfOk result (λ s. string_bytes s ≡ ledger_text phase closed bank) }
{
    let (when, applied, fees) = match phase {
        Phase::Between => ("between periods", 0, 0),
        Phase::InPeriod { applied, fees } => ("in period", applied, fees),
    };
    format!(in heap; "ledger: {when}, closed {closed}, bank {bank}, applied {applied}, fees {fees}")
}

/// An account's terms: its percentage, savings, class, size and kind.
#[derive(Clone, Copy)]
struct Terms(Record);

impl fmt::Display for Terms {
    ghost output = { λ terms. Some (terms_text terms.0) };

    fn fmt<W: fmt::Write>(&self, f: &mut fmt::Formatter<W>) -> fmt::Result {
        let Record {
            percentage,
            savings,
            class,
            size,
            kind,
            ..
        } = self.0;
        write!(
            f,
            "percentage {percentage} savings {savings} class {class} size {size} kind {kind}"
        )
    }
}

/// The line of an account: its terms, its state, the units that it holds, and the last period in which it was billed.
pub fn account_line(record: Record, heap: Global) -> Result<String, AllocError>
    ensures { IfOk result (λ s. string_bytes s ≡ account_text «record») }
{
    let Record {
        account,
        state,
        held,
        last,
        ..
    } = record;
    let terms = Terms(record);
    format!(in heap; "account {account}: {terms} state {state} held {held} last {last}")
}
