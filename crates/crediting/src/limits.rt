//! The limits of the crediting methods. `specs/Limits.antt` has the same numbers for definitions and clauses.

use base::limits::{CLASSES, MOST_UNITS};

/// How many rates a volumetric method has: one for each service class.
pub const RATES: usize = CLASSES as usize;

/// One cent, in the ten-thousandths of a cent that rates are given in.
pub const ONE_CENT: u64 = 10_000;

/// The largest rate, in ten-thousandths of a cent for a kilowatt-hour; the smallest is 1.
pub const MOST_RATE: u32 = 1_000_000;

/// The most that units of one class are worth, in cents: 10^14, that of the most units at the largest rate.
pub const MOST_WORTH: u64 = MOST_UNITS / ONE_CENT * MOST_RATE as u64;
