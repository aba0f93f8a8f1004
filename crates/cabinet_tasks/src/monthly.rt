//! The host's report: the summary and the payment of each period as it is closed.
use crate::printout::Printout;
use crate::progress::Progress;
use accounts::book::AccountBook;
use accounts::project::Project;
use accounts::record::Record;
use crediting::method::CreditMethod;
use desk::plan::Plan;
use desk::refusal::refusal_line;
use ledger::answer::{Done, Settlement};
use ledger::call::Call;
use ledger::ledger::Ledger;
use ledger::phase::Phase;
use report::payment::ITEMS;
use report::row::{Column, Row};
use report::sheet::{note, opened_rows};
use report::table::{Bank, HEADS, bank_line, row_line, satellites_line};
use std::alloc::{AllocError, Global};
use std::io::{BufWriter, Write};

/// What is known of the open period.
#[derive(Drop)]
struct Sheet {
    period: u32,
    reading: u64,
    bank: Bank,
    // in the order of the book
    rows: Vec<Row>,
}

impl Sheet {
    /// Notes what a performed call did in the open period.
    fn note<M, B: AccountBook>(&mut self, book: &B, call: &Call<M>, done: &Done) {
        let account = match call {
            Call::Bill { account, .. } | Call::FinalBill { account, .. } => *account,
            _ => return,
        };
        if let Some(place) = book.search(account) {
            note(self.rows.as_mut_slice(), place, account, done);
        }
    }
}

/// The records of a book, up to a place that has none; a proper book has one at each.
fn records<B: AccountBook>(book: &B, heap: Global) -> Result<Vec<Record>, AllocError> {
    (0..book.count())
        .map_while(|place| book.get(place))
        .collect(heap)
}

/// Prints a period's report.
fn print_sheet<W: Write>(
    out: &mut W,
    sheet: &Sheet,
    settlement: &Settlement,
    heap: Global,
) -> anyhow::Result<()> {
    let rows = sheet.rows.as_slice();
    let period = sheet.period;
    let reading = sheet.reading;
    writeln!(out, "Period {period}")?;
    writeln!(out, "Reading: {reading} units")?;
    writeln!(out, "")?;
    writeln!(out, "{HEADS}")?;
    for row in rows {
        // an account that has no percentage and no units is no satellite of this period
        if row.percentage > 0 || row.available() > 0 {
            let line = row_line(row, heap)?;
            writeln!(out, "{line}")?;
        }
    }
    let satellites = satellites_line(rows, heap)?;
    writeln!(out, "{satellites}")?;
    let bank = bank_line(sheet.bank, heap)?;
    writeln!(out, "{bank}")?;
    let forfeited = Column::Forfeited.total(rows);
    if forfeited > 0 {
        writeln!(out, "Forfeited by final bills: {forfeited} units")?;
    }
    writeln!(out, "")?;
    let applied = Column::Applied.total(rows);
    for item in ITEMS {
        let line = item.line(applied, settlement, heap)?;
        writeln!(out, "{line}")?;
    }
    writeln!(out, "")?;
    Ok(())
}

/// Performs calls one by one, and prints the report of each period that is closed; answers how many were refused.
fn print_periods<M: CreditMethod, B: AccountBook, W: Write>(
    progress: &mut Progress<HostRuntime>,
    out: &mut W,
    ledger: &mut Ledger,
    book: &mut B,
    calls: &[Call<M>],
    heap: Global,
) -> anyhow::Result<usize> {
    // none before the first period
    let mut sheet: Option<Sheet> = None;
    let mut refused = 0usize;
    for (place, call) in calls.iter().enumerate() {
        let before = match call {
            Call::Reading(_) => records(book, heap)?,
            _ => Vec::new(heap),
        };
        let bank = ledger.bank();
        match (call, ledger.perform(book, call)) {
            (Call::Reading(reading), Ok(Done::Opened { period })) => {
                let after = records(book, heap)?;
                sheet = Some(Sheet {
                    period,
                    reading: *reading,
                    bank: Bank {
                        before: bank,
                        after: ledger.bank(),
                    },
                    rows: opened_rows(before.as_slice(), after.as_slice(), heap)?,
                });
            }
            (_, Ok(Done::Closed(settlement))) => {
                if let Some(sheet) = &sheet {
                    print_sheet(out, sheet, &settlement, heap)?;
                }
                progress.tell(place, "calls are posted")?;
            }
            (_, Ok(done)) => {
                if let Some(sheet) = &mut sheet {
                    sheet.note(book, call, &done);
                }
            }
            (_, Err(_)) => refused = refused.saturating_add(1),
        }
    }
    Ok(refused)
}

/// Prints the host's monthly report.
#[derive(Clone, Copy, PartialEq, Eq, Debug)]
pub struct Report;

impl Printout for Report {
    fn print<M: CreditMethod + Drop, B: AccountBook>(
        &self,
        progress: &mut Progress<HostRuntime>,
        project: Project,
        book: &mut B,
        plan: &Plan<M>,
    ) -> anyhow::Result<()> {
        let rt = progress.rt;
        let heap = rt.alloc();
        let mut ledger = Ledger::new();
        if let Err(why) = ledger.open(project, book) {
            let text = refusal_line("open", &why, heap)?;
            println!(rt; "{text}")?;
            return Ok(());
        }
        let mut out = BufWriter::new(heap, rt.stdout())?;
        let calls = plan.calls.as_slice();
        let refused = print_periods(progress, &mut out, &mut ledger, book, calls, heap)?;
        let closed = ledger.closed_periods();
        match ledger.phase() {
            Phase::Between => writeln!(out, "Closed periods: {closed}")?,
            Phase::InPeriod { .. } => {
                writeln!(out, "Closed periods: {closed}; one more is open")?;
            }
        }
        if refused > 0 {
            writeln!(out, "Refused calls: {refused}; the log tells why")?;
        }
        out.flush()?;
        Ok(())
    }
}
