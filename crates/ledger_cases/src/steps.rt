// Steps of a case: calls of a ledger and looks at what they leave, each with what is expected.
use super::told::Told;
use accounts::record::{Line, Size};
use ledger::call::Call;

#[derive(Clone, Copy)]
pub enum Method {
    ValueStack,
    // one rate for every class
    Volumetric { rate: u32 },
}

#[derive(Clone, Copy)]
pub enum Billing {
    Monthly { account: u64, cents: u64 },
    Final { account: u64, cents: u64 },
}

impl Billing {
    // The call that posts the bill by a crediting method.
    pub fn by<M>(self, method: M) -> Call<M> {
        match self {
            Billing::Monthly { account, cents } => Call::Bill {
                method,
                account,
                cents,
            },
            Billing::Final { account, cents } => Call::FinalBill {
                method,
                account,
                cents,
            },
        }
    }
}

// An act is a value, and no closure, since one list of steps is performed on either kind of book.
#[derive(Clone, Copy)]
pub enum Act {
    // a request of at most three lines, within: a slice would borrow what the function that lists the steps made
    Enrol([Option<Line>; 3]),
    // so many lines of a thousandth of a percent each
    EnrolMany { count: u64 },
    Read(u64),
    Post(Method, Billing),
    Disburse { account: u64, units: u64 },
    Lapse,
    Close,
    // periods with a reading and no bill; tells the closed periods
    Months { count: u32, units: u64 },
    Records,
    Bank,
    Held { account: u64 },
    Percentage { account: u64 },
}

#[derive(Clone, Copy)]
pub struct Step {
    pub name: &'static str,
    pub act: Act,
    pub expected: Told,
}

pub fn expects(name: &'static str, act: Act, expected: Told) -> Step {
    Step {
        name,
        act,
        expected,
    }
}

pub fn line(account: u64, percentage: u32) -> Line {
    Line {
        account,
        percentage,
        savings: 1_000,
        class: 1,
        ..Line::default()
    }
}

pub fn large(account: u64, percentage: u32) -> Line {
    Line {
        size: Size::Large,
        ..line(account, percentage)
    }
}

// One for each number of lines: a function of any array would fill up by a loop, and would have to refuse four lines.
pub fn one(a: Line) -> Act {
    Act::Enrol([Some(a), None, None])
}

pub fn two(a: Line, b: Line) -> Act {
    Act::Enrol([Some(a), Some(b), None])
}

pub fn three(a: Line, b: Line, c: Line) -> Act {
    Act::Enrol([Some(a), Some(b), Some(c)])
}

pub fn monthly(account: u64, cents: u64) -> Billing {
    Billing::Monthly { account, cents }
}

pub fn last(account: u64, cents: u64) -> Billing {
    Billing::Final { account, cents }
}

pub fn bill(account: u64, cents: u64) -> Act {
    Act::Post(Method::ValueStack, monthly(account, cents))
}

pub fn last_bill(account: u64, cents: u64) -> Act {
    Act::Post(Method::ValueStack, last(account, cents))
}

pub fn rated(rate: u32, billing: Billing) -> Act {
    Act::Post(Method::Volumetric { rate }, billing)
}

pub fn disburse(account: u64, units: u64) -> Act {
    Act::Disburse { account, units }
}
