// An account record and an allocation line, with their ranges.
ghost use Rattle.std.specs.Prelude.{◌≡◌};
ghost use Rattle.accounts.specs.Ranges.{account_in_range, savings_in_range, class_in_range, in_range, line_in_range};

use base::limits::{
    CLASSES, LEAST_SAVINGS, MOST_ACCOUNT, MOST_PERIODS, MOST_SAVINGS, MOST_UNITS, WHOLE,
};

// The size of a satellite: `S`, or `L` for a demand of 25 kW or more.
#[derive(Clone, Copy, PartialEq, Eq, Debug, Default)]
pub enum Size {
    #[default]
    Small,
    Large,
}

// A member subscribes and pays a fee out of its credit; an excluded anchor keeps its whole credit.
#[derive(Clone, Copy, PartialEq, Eq, Debug, Default)]
pub enum Kind {
    #[default]
    Member,
    Anchor,
}

#[derive(Clone, Copy, PartialEq, Eq, Debug, Default)]
pub enum State {
    #[default]
    Open,
    Closed,
}

// A satellite account as a book keeps it. Its numbers may be out of range in a value.
#[derive(Clone, Copy, PartialEq, Eq, Debug, Default)]
pub struct Record {
    pub account: u64,
    // thousandths of a percent
    pub percentage: u32,
    // hundredths of a percent
    pub savings: u16,
    pub class: u8,
    pub size: Size,
    pub kind: Kind,
    pub state: State,
    // units held
    pub held: u64,
    // the last period billed; by the rules of records it is a number from 0, which stands for none, to 1,200
    pub last: u32,
}

// A line of an allocation request: what a host asks for one account.
#[derive(Clone, Copy, PartialEq, Eq, Debug, Default)]
pub struct Line {
    pub account: u64,
    pub percentage: u32,
    pub savings: u16,
    pub class: u8,
    pub size: Size,
    pub kind: Kind,
}

fn account_in_range(account: u64) -> bool
    ensures { result ≡ account_in_range account }
{
    account >= 1 && account <= MOST_ACCOUNT
}

fn savings_in_range(savings: u16) -> bool
    ensures { result ≡ savings_in_range savings }
{
    savings >= LEAST_SAVINGS && savings <= MOST_SAVINGS
}

fn class_in_range(class: u8) -> bool
    ensures { result ≡ class_in_range class }
{
    class >= 1 && class <= CLASSES
}

impl Record {
    // Whether each number is in its range.
    pub fn in_range(&self) -> bool
        ensures { result ≡ in_range self.now }
    {
        account_in_range(self.account)
            && self.percentage <= WHOLE
            && savings_in_range(self.savings)
            && class_in_range(self.class)
            && self.held <= MOST_UNITS
            && self.last <= MOST_PERIODS
    }
}

impl Line {
    // Whether each number is in its range: a line asks for more than 0 percent.
    pub fn in_range(&self) -> bool
        ensures { result ≡ line_in_range self.now }
    {
        account_in_range(self.account)
            && self.percentage >= 1
            && self.percentage <= WHOLE
            && savings_in_range(self.savings)
            && class_in_range(self.class)
    }
}
