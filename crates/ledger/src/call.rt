//! The calls of a ledger.
use accounts::record::Line;

/// What is asked of a ledger. A bill names the crediting method that it is credited by.
#[derive(Drop)]
pub enum Call<M> {
    /// enrols the lines of the host's allocation request
    Enrol(Vec<Line>),
    /// opens the next period with the month's metered units
    Reading(u64),
    /// credits a bill of an account, in cents
    Bill { method: M, account: u64, cents: u64 },
    /// credits the last bill of an account, which closes it
    FinalBill { method: M, account: u64, cents: u64 },
    /// moves units from the host bank to an account
    Disburse { account: u64, units: u64 },
    /// forfeits the host bank
    Lapse,
    /// closes the period and settles with the host
    Close,
}
