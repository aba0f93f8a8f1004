//! The line of an answer.
ghost use Rattle.std.specs.Prelude.{◌≡◌, IfOk, Some, string_bytes};
ghost use Rattle.desk.specs.Answers.{posting_text, close_text, done_text, answer_text, request_text};

use crate::refusal::refusal_line;
use ledger::answer::{Done, Posting, Settlement};
use ledger::refusal::Refusal;
use std::alloc::{AllocError, Global};
use std::fmt;

/// The line of a ledger that is opened.
pub const OPENED: &str = "open: opened";

/// The line of rates that are set.
pub const RATES_SET: &str = "rates: set";

/// The amounts of a bill.
#[derive(Clone, Copy)]
struct BillAmounts(Posting);

impl fmt::Display for BillAmounts {
    ghost output = { λ amounts. Some (posting_text amounts.0) };

    fn fmt<W: fmt::Write>(&self, f: &mut fmt::Formatter<W>) -> fmt::Result {
        let Posting {
            applied,
            used,
            net,
            fee,
        } = self.0;
        write!(f, "applied {applied} used {used} net {net} fee {fee}")
    }
}

/// The line of a period that is closed.
fn close_line(settlement: Settlement, heap: Global) -> Result<String, AllocError>
    ensures { IfOk result (λ s. string_bytes s ≡ close_text settlement) }
{
    let Settlement {
        applied,
        fees,
        utility,
        payment,
    } = settlement;
    format!(in heap; "close: applied {applied} fees {fees} utility {utility} payment {payment}")
}

/// The line of a call that the ledger performs.
fn done_line(done: Done, heap: Global) -> Result<String, AllocError>
    ensures { IfOk result (λ s. string_bytes s ≡ done_text done) }
{
    match done {
        Done::Enrolled { new } => format!(in heap; "enrol: {new} new"),
        Done::Opened { period } => format!(in heap; "reading: period {period}"),
        Done::Billed(posting) => format!(in heap; "bill: {}", BillAmounts(posting)),
        Done::FinallyBilled { posting, forfeited } => {
            format!(in heap; "final: {} forfeited {forfeited}", BillAmounts(posting))
        }
        Done::Disbursed { bank } => format!(in heap; "disburse: bank {bank}"),
        Done::Lapsed { forfeited } => format!(in heap; "lapse: forfeited {forfeited}"),
        Done::Closed(settlement) => close_line(settlement, heap),
    }
}

/// The line of a call; where the ledger declines it, with `word` ahead, the first of its statement.
pub fn answer_line(
    word: &str,
    answer: Result<Done, Refusal>,
    heap: Global,
) -> Result<String, AllocError>
    ensures { IfOk result (λ s. string_bytes s ≡ answer_text word.now answer) }
{
    match answer {
        Ok(done) => done_line(done, heap),
        Err(why) => refusal_line(word, &why, heap),
    }
}

/// The line of a request file that is read, by the number of its lines.
pub fn request_line(lines: usize, heap: Global) -> Result<String, AllocError>
    ensures { IfOk result (λ s. string_bytes s ≡ request_text lines) }
{
    format!(in heap; "request: {lines} lines")
}
