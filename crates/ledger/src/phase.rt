//! The phase of a ledger.

/// Between periods, or in a period with what its bills have come to so far, in cents.
#[derive(Clone, Copy, PartialEq, Eq, Debug)]
pub enum Phase {
    Between,
    InPeriod {
        /// members' applied credits
        applied: u64,
        /// members' subscription fees
        fees: u64,
    },
}
