//! The open period, and when a bill is accepted in it.
ghost use Rattle.std.specs.Prelude.{◌≡◌, ◌+◌, ◌*◌, ◌≤◌, IfOk};
ghost use Rattle.base.specs.Limits.{most_periods};
ghost use Rattle.ledger.specs.Accepting.{Judged};
ghost use Rattle.ledger.specs.Limits.{most_applied};
ghost use Rattle.ledger.specs.Rules.{counted};
ghost use Rattle.ledger.specs.Steps.{raised};

use super::account::open_entry;
use super::bill::Bill;
use super::limits::MOST_APPLIED;
use super::phase::Phase;
use super::refusal::Refusal;
use accounts::book::AccountBook;
use base::limits::MOST_BILL;
use crediting::method::CreditMethod;

/// The open period's number, and its members' applied credits and subscription fees so far, in cents.
#[derive(Clone, Copy)]
pub(crate) struct Period {
    pub(crate) number: u32,
    pub(crate) applied: u64,
    pub(crate) fees: u64,
    ghost periods: { number ≤ most_periods },
    ghost bounded: { applied ≤ most_applied },
    ghost fees_part: { fees ≤ applied },
    ghost covered: { applied ≤ 50 * fees },
}

impl Period {
    /// The bill of an account in the period, if it is accepted.
    pub(crate) fn judge_bill<M: CreditMethod, B: AccountBook>(
        self,
        book: &B,
        method: &M,
        account: u64,
        cents: u64,
    ) -> Result<Bill, Refusal>
        ensures judged { B.sound book.now → Judged (M.worth method.now) self.number self.applied account cents
            (B.contents book.now).records result }
        ensures bounded { IfOk result (λ x. self.applied + counted x.account.holder.kind x.posting.applied
            ≤ most_applied) }
    {
        if cents > MOST_BILL {
            return Err(Refusal::BillTooLarge);
        }
        let entry = open_entry(book, account)?;
        if entry.holder.last == self.number {
            return Err(Refusal::BilledAlready);
        }
        let bill = Bill::post(method, entry, cents);
        if self.applied + bill.counted() > MOST_APPLIED {
            return Err(Refusal::ForeignBook);
        }
        Ok(bill)
    }

    /// The phase with one bill more.
    pub(crate) fn raised(self, bill: &Bill) -> Phase
        requires { self.applied + counted bill.now.account.holder.kind bill.now.posting.applied
            ≤ most_applied }
        ensures { result ≡ raised self.applied self.fees bill.now.account.holder bill.now.posting }
    {
        Phase::InPeriod {
            applied: self.applied + bill.counted(),
            fees: self.fees + bill.posting.fee,
        }
    }
}
