// What a case tells: a fact, or a refusal by its number and place.
use base::refusal::Numbered;
use ledger::answer::{Done, Posting, Settlement};
use std::fmt;

pub type Told = Result<Fact, Refused>;

#[derive(Clone, Copy, PartialEq)]
pub enum Fact {
    Accepted,
    // new accounts, the period, the bank, a forfeit, or what is looked up
    Amount(u64),
    Posted(Posting),
    Ended { posting: Posting, forfeited: u64 },
    Settled(Settlement),
}

#[derive(Clone, Copy, PartialEq)]
pub struct Refused {
    pub number: u8,
    pub place: usize,
}

impl From<()> for Fact {
    fn from(_: ()) -> Fact {
        Fact::Accepted
    }
}

impl From<u32> for Fact {
    fn from(amount: u32) -> Fact {
        Fact::Amount(u64::from(amount))
    }
}

impl From<u64> for Fact {
    fn from(amount: u64) -> Fact {
        Fact::Amount(amount)
    }
}

impl From<usize> for Fact {
    fn from(amount: usize) -> Fact {
        Fact::Amount(amount as u64)
    }
}

impl From<Done> for Fact {
    fn from(done: Done) -> Fact {
        match done {
            Done::Enrolled { new } => Fact::from(new),
            Done::Opened { period } => Fact::from(period),
            Done::Billed(posting) => Fact::Posted(posting),
            Done::FinallyBilled { posting, forfeited } => Fact::Ended { posting, forfeited },
            Done::Disbursed { bank } => Fact::Amount(bank),
            Done::Lapsed { forfeited } => Fact::Amount(forfeited),
            Done::Closed(settlement) => Fact::Settled(settlement),
        }
    }
}

impl<R: Numbered + Drop> From<R> for Refused {
    fn from(why: R) -> Refused {
        Refused {
            number: why.number(),
            place: why.place(),
        }
    }
}

// What an answer tells.
pub fn told<T: Into<Fact>, R: Numbered + Drop>(answer: Result<T, R>) -> Told {
    Ok(answer?.into())
}

pub const ACCEPTED: Told = Ok(Fact::Accepted);

pub fn amount(amount: u64) -> Told {
    Ok(Fact::Amount(amount))
}

pub fn posted(applied: u64, used: u64, net: u64, fee: u64) -> Told {
    Ok(Fact::Posted(Posting {
        applied,
        used,
        net,
        fee,
    }))
}

pub fn ended(applied: u64, used: u64, net: u64, fee: u64, forfeited: u64) -> Told {
    Ok(Fact::Ended {
        posting: Posting {
            applied,
            used,
            net,
            fee,
        },
        forfeited,
    })
}

pub fn settled(applied: u64, fees: u64, utility: u64, payment: u64) -> Told {
    Ok(Fact::Settled(Settlement {
        applied,
        fees,
        utility,
        payment,
    }))
}

pub fn declined(number: u8) -> Told {
    declined_at(number, 0)
}

pub fn declined_at(number: u8, place: usize) -> Told {
    Err(Refused { number, place })
}

// A posting as it is printed.
#[derive(Clone, Copy)]
struct Printed(Posting);

impl fmt::Display for Fact {
    fn fmt<W: fmt::Write>(&self, f: &mut fmt::Formatter<W>) -> fmt::Result {
        match self {
            Fact::Accepted => write!(f, "accepted"),
            Fact::Amount(amount) => write!(f, "{amount}"),
            Fact::Posted(posting) => write!(f, "{}", Printed(*posting)),
            Fact::Ended { posting, forfeited } => {
                write!(f, "{}, forfeited {forfeited}", Printed(*posting))
            }
            Fact::Settled(settlement) => {
                let Settlement {
                    applied,
                    fees,
                    utility,
                    payment,
                } = *settlement;
                write!(
                    f,
                    "applied {applied}, fees {fees}, utility fee {utility}, payment {payment}"
                )
            }
        }
    }
}

impl fmt::Display for Printed {
    fn fmt<W: fmt::Write>(&self, f: &mut fmt::Formatter<W>) -> fmt::Result {
        let Posting {
            applied,
            used,
            net,
            fee,
        } = self.0;
        write!(f, "applied {applied}, used {used}, net {net}, fee {fee}")
    }
}

impl fmt::Display for Refused {
    fn fmt<W: fmt::Write>(&self, f: &mut fmt::Formatter<W>) -> fmt::Result {
        write!(f, "refused {} at {}", self.number, self.place)
    }
}
