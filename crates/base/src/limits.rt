//! The limits that several crates name. `specs/Limits.antt` has the same numbers for definitions and clauses.

/// The largest account number: eleven digits.
pub const MOST_ACCOUNT: u64 = 99_999_999_999;

/// Service classes are numbered from 1 to this.
pub const CLASSES: u8 = 16;

/// The lowest savings rate, in hundredths of a percent.
pub const LEAST_SAVINGS: u16 = 500;

/// The highest savings rate, in hundredths of a percent.
pub const MOST_SAVINGS: u16 = 9_800;

/// All of the generation, in thousandths of a percent.
pub const WHOLE: u32 = 100_000;

/// The most units that an account holds.
pub const MOST_UNITS: u64 = 1_000_000_000_000;

/// The largest bill, in cents.
pub const MOST_BILL: u64 = 1_000_000_000;

/// The largest reading of a month, in units.
pub const MOST_READING: u64 = 10_000_000_000;

/// The most periods that a ledger closes.
pub const MOST_PERIODS: u32 = 1_200;

/// The most records of a book.
pub const MOST_RECORDS: usize = 4_096;

/// The most lines of an allocation request.
pub const MOST_LINES: usize = 1_024;
