//! What a method credits against one bill, and for which classes, units and bills it answers.
ghost use Rattle.crediting.specs.Credits.{applied_credit, worth_of};
ghost use Rattle.crediting.specs.Ranges.{is_class, has_worth, in_ranges};
ghost use Rattle.std.specs.Prelude.{◌≡◌, ℕ};

use base::limits::{CLASSES, MOST_BILL, MOST_UNITS};

/// The credit against a bill: what it pays, and what it costs.
#[derive(Clone, Copy, PartialEq, Eq, Debug)]
pub struct Credit {
    /// The applied credit: cents taken off the bill.
    pub applied: u64,
    /// The units that this takes from the account.
    pub used: u64,
}

pub(crate) fn is_class(class: u8) -> bool
    ensures { result ≡ is_class class }
{
    1 <= class && class <= CLASSES
}

/// Whether a method has a worth for so many units of a class: the class is 1 to [`CLASSES`], and the units are at most
/// [`MOST_UNITS`].
pub fn has_worth(class: u8, units: u64) -> bool
    ensures { result ≡ has_worth class units }
{
    is_class(class) && units <= MOST_UNITS
}

/// Whether a method credits a bill of so many cents for an account of a class that holds so many units: the units have
/// a worth, and the bill is at most [`MOST_BILL`].
pub fn in_ranges(class: u8, units: u64, bill: u64) -> bool
    ensures { result ≡ in_ranges class units bill }
{
    has_worth(class, units) && bill <= MOST_BILL
}

// The applied credit of any method, from the worth in cents that it has for the units: the lesser of the bill and the
// worth; 0 outside the ranges.
#[tactic(auto, using(crate::proofs::Applying::applied))]
pub(crate) fn applied_credit(class: u8, units: u64, bill: u64, worth: u64) -> u64
    ensures { (W : ℕ → ℕ → ℕ) → worth ≡ worth_of W class units
        → result ≡ applied_credit W class units bill }
{
    if in_ranges(class, units, bill) {
        bill.min(worth)
    } else {
        0
    }
}
