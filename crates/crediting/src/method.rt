//! The interface of a crediting method.
ghost use Rattle.std.specs.Prelude.{◌≡◌, ◌≤◌, ℕ, true};
ghost use Rattle.crediting.specs.Credits.{Lawful, TheCredit, Within, applied_credit, units_used, worth_of};
ghost use Rattle.crediting.specs.Limits.{most_worth};
ghost use Rattle.crediting.specs.Ranges.{in_ranges, is_class};

use super::credit::Credit;

/// How units become credit: their worth in cents for each service class, and from it the credit against a bill. No
/// units are worth nothing, and more units are never worth less.
pub trait CreditMethod {
    /// The byte that stands for the method's unit: `C` for cents, `K` for kilowatt-hours.
    const MARK: u8;

    ghost MARK: { ℕ };

    // the worth in cents, of a class and so many units
    ghost worth: { Self → ℕ → ℕ → ℕ };

    /// The worth of units of a class in cents, at most [`MOST_WORTH`](crate::limits::MOST_WORTH); 0 where
    /// [`has_worth`](crate::credit::has_worth) does not hold.
    fn worth(&self, class: u8, units: u64) -> u64
        ensures value { result ≡ worth_of (worth self.now) class units }
        ensures most { result ≤ most_worth };

    /// The credit against a bill in cents, for an account of a class that holds so many units: the lesser of the bill
    /// and the units' worth, for the fewest units that are worth it. Both numbers are 0 where
    /// [`in_ranges`](crate::credit::in_ranges) does not hold.
    fn credit(&self, class: u8, units: u64, bill: u64) -> Credit
        ensures applied { result.applied ≡ applied_credit (worth self.now) class units bill }
        ensures used { result.used ≡ units_used (worth self.now) class units bill }
        ensures within { Within units bill result.applied result.used }
        ensures meaning { in_ranges class units bill ≡ true
            → TheCredit (worth self.now class) units bill result.applied result.used };

    // the worth of each class's units is lawful
    ghost lawful: { (s : Self) (k : ℕ) → is_class k ≡ true → Lawful (worth s k) };
}
