//! The form of a request file in numbers, each once. `specs/Limits.antt` has the same numbers for definitions and
//! clauses; the most lines of a file are [`base::limits::MOST_LINES`].

/// The most bytes of a file.
pub const MOST_FILE: usize = 65_535;

/// The bytes of the line count, with which a file begins; no file is shorter.
pub const COUNT_BYTES: usize = 2;

/// The bytes of a pair: four of offset, two of length.
pub const PAIR_BYTES: usize = 6;

/// The bytes of a line's fields, and of a whole line without a remark.
pub const FIELD_BYTES: usize = 30;

/// The most bytes of a remark.
pub const MOST_REMARK: usize = 79;

/// The most bytes of a line: a space stands before the remark.
pub const MOST_LINE: usize = FIELD_BYTES + 1 + MOST_REMARK;

/// The digits of an account number.
pub const ACCOUNT_DIGITS: usize = 11;

/// The digits of a percentage, in thousandths of a percent.
pub const PERCENTAGE_DIGITS: usize = 6;

/// The digits of a savings rate, in hundredths of a percent.
pub const SAVINGS_DIGITS: usize = 4;

/// The digits of a service class.
pub const CLASS_DIGITS: usize = 2;
