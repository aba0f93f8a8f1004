//! What a performed call answers.

/// What a bill comes to. The applied credit is the net credit and the subscription fee together.
#[derive(Clone, Copy, PartialEq, Eq, Debug)]
pub struct Posting {
    /// cents taken off the bill
    pub applied: u64,
    /// units that this takes from the account
    pub used: u64,
    /// cents of the applied credit that the satellite keeps
    pub net: u64,
    /// cents of the applied credit that it pays to the host
    pub fee: u64,
}

/// What the host is paid at the close of a period, in cents: the fees less the utility fee.
#[derive(Clone, Copy, PartialEq, Eq, Debug)]
pub struct Settlement {
    /// the members' applied credits of the period
    pub applied: u64,
    /// their subscription fees
    pub fees: u64,
    /// what the utility keeps
    pub utility: u64,
    /// what the host is paid
    pub payment: u64,
}

/// The answer of each call that is performed.
#[derive(Clone, Copy, PartialEq, Eq, Debug)]
pub enum Done {
    /// how many accounts are new
    Enrolled { new: usize },
    /// the number of the period that the reading opened, from 1
    Opened { period: u32 },
    /// what the bill comes to
    Billed(Posting),
    /// what the final bill comes to, and the units that it forfeited
    FinallyBilled { posting: Posting, forfeited: u64 },
    /// the units that the host bank has left
    Disbursed { bank: u64 },
    /// the units that the host bank lost
    Lapsed { forfeited: u64 },
    /// what the host is paid
    Closed(Settlement),
}
