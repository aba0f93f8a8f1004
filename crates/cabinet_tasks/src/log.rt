//! The log of a journal: a line for each statement that answers, and the books as they stand.
use crate::printout::Printout;
use crate::progress::Progress;
use accounts::book::AccountBook;
use accounts::project::Project;
use crediting::method::CreditMethod;
use desk::amounts::Performed;
use desk::answers::OPENED;
use desk::book_lines::{account_line, ledger_line};
use desk::log::{is_call, note_line};
use desk::note::Note;
use desk::plan::Plan;
use desk::refusal::refusal_line;
use desk::totals::{cent_totals, unit_totals};
use ledger::answer::Done;
use ledger::ledger::Ledger;
use ledger::refusal::Refusal;
use ledger_run::refusal::RunRefusal;
use ledger_run::run::run;
use std::io::{BufWriter, Write};

/// How many lines are printed between two looks at the clock.
const LINES_TO_A_LOOK: usize = 8_192;

/// Prints a journal's log.
#[derive(Clone, Copy, PartialEq, Eq, Debug)]
pub struct Log;

impl Printout for Log {
    fn print<M: CreditMethod + Drop, B: AccountBook>(
        &self,
        progress: &mut Progress<HostRuntime>,
        project: Project,
        book: &mut B,
        plan: &Plan<M>,
    ) -> anyhow::Result<()> {
        let rt = progress.rt;
        let heap = rt.alloc();
        let calls = plan.calls.as_slice();
        let mut ledger = Ledger::new();
        let answers = match run(&mut ledger, project, book, calls, heap) {
            Ok(answers) => answers,
            Err(RunRefusal::NotOpened(why)) => {
                let text = refusal_line("open", &why, heap)?;
                println!(rt; "{text}")?;
                return Ok(());
            }
            Err(why) => return Err(why.into()),
        };
        let performed = Performed {
            calls,
            answers: answers.as_slice(),
        };
        progress.tell(calls.len(), "calls are posted")?;
        let mut out = BufWriter::new(heap, rt.stdout())?;
        writeln!(out, "{OPENED}")?;
        print_answers(progress, &mut out, plan.notes.as_slice(), performed.answers)?;
        print_books(rt, &mut out, &ledger, book)?;
        let units = unit_totals(&ledger, book, &performed);
        writeln!(out, "{units}")?;
        let cents = cent_totals(&ledger, &performed);
        writeln!(out, "{cents}")?;
        out.flush()?;
        Ok(())
    }
}

/// A line for each statement that answers; those that are calls take the answers in order.
fn print_answers<W: Write>(
    progress: &mut Progress<HostRuntime>,
    out: &mut W,
    notes: &[Note],
    answers: &[Result<Done, Refusal>],
) -> anyhow::Result<()> {
    let heap = progress.rt.alloc();
    let mut answers = answers.iter();
    for (place, note) in notes.iter().enumerate() {
        let answer = if is_call(*note) {
            answers.next().copied()
        } else {
            None
        };
        let line = note_line(*note, answer, heap)?;
        writeln!(out, "{line}")?;
        if place % LINES_TO_A_LOOK == 0 {
            progress.tell(place, "answers are printed")?;
        }
    }
    Ok(())
}

/// The line of the ledger, and one for each account.
fn print_books<W: Write, B: AccountBook>(
    rt: &HostRuntime,
    out: &mut W,
    ledger: &Ledger,
    book: &B,
) -> anyhow::Result<()> {
    let heap = rt.alloc();
    let line = ledger_line(ledger.phase(), ledger.closed_periods(), ledger.bank(), heap)?;
    writeln!(out, "{line}")?;
    for record in (0..book.count()).filter_map(|place| book.get(place)) {
        let line = account_line(record, heap)?;
        writeln!(out, "{line}")?;
    }
    Ok(())
}
