//! Whole numbers written with decimals: cents as dollars, thousandths of a percent as percent.

ghost use Rattle.base.specs.Amounts.{decimals};
ghost use Rattle.std.specs.Prelude.{◌≡◌, Some};

use std::fmt;

/// A number of the last decimal, written with a point and so many decimals.
#[derive(Clone, Copy, PartialEq, Eq, Debug)]
pub struct Decimal<const PLACES: u32>(pub u128);

/// Cents, written as dollars: `0.05` for 5 cents.
pub type Dollars = Decimal<2>;

/// Thousandths of a percent, written as percent: `6.125` for 6,125.
pub type Percent = Decimal<3>;

impl<const PLACES: u32> From<u128> for Decimal<PLACES> {
    ghost from_gives = { λ number d. d ≡ record { 0 = number } };

    fn from(number: u128) -> Self {
        Decimal(number)
    }
}

impl<const PLACES: u32> fmt::Display for Decimal<PLACES> {
    ghost output = { λ d. Some (decimals PLACES d.0) };

    #[tactic(auto, using(crate::proofs::Zeros::decimal_steps))]
    fn fmt<W: fmt::Write>(&self, f: &mut fmt::Formatter<W>) -> fmt::Result {
        let number = self.0;
        let width = PLACES as usize;
        let (whole, rest) = match 10u128.checked_pow(PLACES) {
            Some(one) => (number / one, number % one),
            None => (0, number),
        };
        write!(f, "{whole}.{rest:0width$}")
    }
}
