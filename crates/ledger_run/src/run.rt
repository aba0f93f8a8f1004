//! Any list of calls on a ledger.
ghost use Rattle.accounts.specs.Books.{Keeps};
ghost use Rattle.ledger_run.specs.Laws.{EveryRunIsLawful};
ghost use Rattle.ledger_run.specs.Outcomes.{Runs};

use super::refusal::RunRefusal;
use accounts::book::AccountBook;
use accounts::project::Project;
use crediting::method::CreditMethod;
use ledger::answer::Done;
use ledger::call::Call;
use ledger::ledger::Ledger;
use ledger::refusal::Refusal;
use std::alloc::Global;

/// Opens a ledger on an empty book and performs any list of calls one by one; answers each in order, performed or
/// declined. Where the ledger is not opened, or there is no memory for the answers, ledger and book stay as they were.
/// The law of every run does not hang on what this call returns.
pub fn run<M: CreditMethod, B: AccountBook>(
    ledger: &mut Ledger,
    project: Project,
    book: &mut B,
    calls: &[Call<M>],
    heap: Global,
) -> Result<Vec<Result<Done, Refusal>>, RunRefusal>
    ensures keeps { Keeps B.sound B.contents B.same_rest book.old book.new }
    ensures runs { Runs B.sound B.contents M.worth project calls.now ledger.old ledger.new book.old book.new
        result }
    ensures law { EveryRunIsLawful M.worth }
{
    let mut answers = Vec::with_capacity(heap, calls.len())?;
    ledger.open(project, book)?;
    for call in calls {
        answers.push_reserved(ledger.perform(book, call));
    }
    Ok(answers)
}
