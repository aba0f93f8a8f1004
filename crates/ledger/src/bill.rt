//! A bill of an account, and what becomes of the account's record.
ghost use Rattle.std.specs.Prelude.{◌≡◌, ◌*◌, ◌-◌, ◌≤◌};
ghost use Rattle.base.specs.Limits.{most_bill};
ghost use Rattle.ledger.specs.Records.{billed, ended};
ghost use Rattle.ledger.specs.Rules.{counted, net_credit};
ghost use Rattle.ledger.specs.Steps.{posting};

use super::answer::Posting;
use super::limits::BASIS;
use accounts::entry::Entry;
use accounts::record::{Kind, Record, State};
use crediting::method::CreditMethod;

// What a satellite keeps of an applied credit.
fn net_credit(entry: Entry, applied: u64) -> u64
    requires { applied ≤ most_bill }
    ensures value { result ≡ net_credit entry.holder.kind entry.holder.savings applied }
    ensures part { result ≤ applied }
{
    match entry.holder.kind {
        Kind::Member => applied * u64::from(entry.holder.savings) / BASIS,
        Kind::Anchor => applied,
    }
}

// The account's record, and what the bill comes to.
#[derive(Clone, Copy)]
pub(crate) struct Bill {
    pub(crate) account: Entry,
    pub(crate) posting: Posting,
    ghost used: { posting.used ≤ account.holder.held },
    ghost fee: { posting.fee ≤ counted account.holder.kind posting.applied },
    ghost covers: { counted account.holder.kind posting.applied ≤ 50 * posting.fee },
}

impl Bill {
    // The bill of an account by a crediting method.
    pub(crate) fn post<M: CreditMethod>(method: &M, account: Entry, cents: u64) -> Bill
        requires { cents ≤ most_bill }
        ensures whose { result.account ≡ account }
        ensures value { result.posting ≡ posting (M.worth method.now) account.holder cents }
        ensures bound { result.posting.applied ≤ most_bill }
    {
        let credit = method.credit(account.holder.class, account.holder.held, cents);
        let net = net_credit(account, credit.applied);
        Bill {
            account,
            posting: Posting {
                applied: credit.applied,
                used: credit.used,
                net,
                fee: credit.applied - net,
            },
        }
    }

    // The part of the applied credit that counts towards the utility fee.
    pub(crate) fn counted(&self) -> u64
        ensures { result ≡ counted self.now.account.holder.kind self.now.posting.applied }
    {
        match self.account.holder.kind {
            Kind::Member => self.posting.applied,
            Kind::Anchor => 0,
        }
    }

    // The units left.
    pub(crate) fn left(&self) -> u64
        ensures { result ≡ self.now.account.holder.held - self.now.posting.used }
    {
        self.account.holder.held - self.posting.used
    }

    // The record after a bill in a period.
    pub(crate) fn billed(&self, period: u32) -> Record
        ensures { result ≡ billed period self.now.posting.used self.now.account.holder }
    {
        Record {
            held: self.left(),
            last: period,
            ..self.account.holder
        }
    }

    // The record after the final bill: nothing held, no percentage, closed.
    pub(crate) fn ended(&self, period: u32) -> Record
        ensures { result ≡ ended period self.now.account.holder }
    {
        Record {
            percentage: 0,
            state: State::Closed,
            held: 0,
            last: period,
            ..self.account.holder
        }
    }
}
