//! The limits and rates that the ledger alone keeps. `specs/Limits.antt` has the same numbers.

/// All percentages together, in thousandths of a percent.
pub(crate) const WHOLE: u64 = base::limits::WHOLE as u64;

/// The percentages of large satellites together, without the farm mark, in thousandths of a percent.
pub(crate) const MOST_LARGE: u64 = 40_000;

/// The readings of all periods together, in units.
pub(crate) const MOST_READ: u64 = 1_000_000_000_000;

/// A period's members' applied credits, in cents.
pub(crate) const MOST_APPLIED: u64 = 10_000_000_000_000;

/// The whole of an amount, in hundredths of a percent.
pub(crate) const BASIS: u64 = 10_000;

/// What the utility keeps of its members' applied credits, in hundredths of a percent.
pub(crate) const UTILITY_RATE: u64 = 150;
