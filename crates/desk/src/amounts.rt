//! Sums over calls and their answers.
ghost use Rattle.std.specs.Prelude.{◌≡◌};
ghost use Rattle.desk.specs.Amounts.{of_bill, of_close, of_lapse, of_call, amount, sum_of, held_in};

use accounts::book::AccountBook;
use ledger::answer::{Done, Posting, Settlement};
use ledger::call::Call;
use ledger::refusal::Refusal;

/// What is summed: units read, used and forfeited, and cents applied, net, paid to the host and kept by the utility.
#[derive(Clone, Copy, PartialEq, Eq, Debug)]
pub enum Amount {
    Read,
    Used,
    Forfeited,
    Applied,
    Net,
    Paid,
    Utility,
}

impl Amount {
    /// What a bill adds; `forfeited` are the units that a final bill forfeits.
    fn of_bill(self, posting: &Posting, forfeited: u64) -> u64
        ensures { result ≡ of_bill self posting.now forfeited }
    {
        match self {
            Amount::Used => posting.used,
            Amount::Forfeited => forfeited,
            Amount::Applied => posting.applied,
            Amount::Net => posting.net,
            Amount::Read | Amount::Paid | Amount::Utility => 0,
        }
    }

    /// What a close adds.
    fn of_close(self, settlement: &Settlement) -> u64
        ensures { result ≡ of_close self settlement.now }
    {
        match self {
            Amount::Paid => settlement.payment,
            Amount::Utility => settlement.utility,
            Amount::Read | Amount::Used | Amount::Forfeited | Amount::Applied | Amount::Net => 0,
        }
    }

    /// What a lapse adds, by the units that it forfeits.
    fn of_lapse(self, forfeited: u64) -> u64
        ensures { result ≡ of_lapse self forfeited }
    {
        if self == Amount::Forfeited {
            forfeited
        } else {
            0
        }
    }

    /// What a call itself adds once it is accepted: the units of a reading.
    fn of_call<M>(self, call: &Call<M>) -> u64
        ensures { result ≡ of_call self call.now }
    {
        match (self, call) {
            (Amount::Read, Call::Reading(units)) => *units,
            _ => 0,
        }
    }

    /// What a call with its answer adds; a declined call adds nothing.
    pub fn of<M>(self, call: &Call<M>, answer: &Result<Done, Refusal>) -> u64
        ensures { result ≡ amount self call.now answer.now }
    {
        match answer {
            Ok(Done::Opened { .. }) => self.of_call(call),
            Ok(Done::Billed(posting)) => self.of_bill(posting, 0),
            Ok(Done::FinallyBilled { posting, forfeited }) => self.of_bill(posting, *forfeited),
            Ok(Done::Lapsed { forfeited }) => self.of_lapse(*forfeited),
            Ok(Done::Closed(settlement)) => self.of_close(settlement),
            Ok(Done::Enrolled { .. } | Done::Disbursed { .. }) | Err(_) => 0,
        }
    }
}

/// Calls and their answers, in order.
#[derive(Drop)]
pub struct Performed<'a, M> {
    /// The calls.
    pub calls: &'a [Call<M>],
    /// The answers, each at the place of its call.
    pub answers: &'a [Result<Done, Refusal>],
}

impl<M> Performed<'_, M> {
    /// What the calls come to together.
    pub fn sum(&self, amount: Amount) -> u128
        ensures { result ≡ sum_of amount self.now.calls.now self.now.answers.now }
    {
        self.calls
            .iter()
            .zip(self.answers)
            .map(|(call, answer)| u128::from(amount.of(call, answer)))
            .sum()
    }
}

/// The units held by all accounts.
pub fn held<B: AccountBook>(book: &B) -> u128
    ensures { B.sound book.now → result ≡ held_in (B.contents book.now).records }
{
    let holders = (0..book.count()).filter_map(|place| book.get(place));
    holders.map(|holder| u128::from(holder.held)).sum()
}
