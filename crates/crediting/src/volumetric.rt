//! Volumetric crediting: a unit is a kilowatt-hour, and each service class has a rate.
ghost use Rattle.std.specs.Prelude.{◌≡◌, true, replicate, is_ok, if◌then◌else◌, Some, None};
ghost use Rattle.crediting.specs.Credits.{applied_credit, units_used};
ghost use Rattle.crediting.specs.Lawfulness.{by_rates_lawful};
ghost use Rattle.crediting.specs.Limits.{rate_count};
ghost use Rattle.crediting.specs.Ranges.{is_class};
ghost use Rattle.crediting.specs.Refusals.{Judges, judged};
ghost use Rattle.crediting.specs.Worths.{RatesInRange, by_rates, kilowatt_hours_mark, rate_of};

use super::credit::{Credit, applied_credit, has_worth, in_ranges, is_class};
use super::limits::{ONE_CENT, RATES};
use super::method::CreditMethod;
use super::rates::{RatesRefusal, judge};

/// The method whose units are kilowatt-hours. It has a rate for each service class, in ten-thousandths of a cent: 1 to
/// [`MOST_RATE`](super::limits::MOST_RATE).
#[derive(Clone, Copy, Debug)]
pub struct Volumetric {
    rates: [u32; RATES],
    ghost in_range: { RatesInRange rates },
}

impl Volumetric {
    /// Rate 1 for every class.
    pub fn new() -> Self
        ensures { result.rates ≡ replicate rate_count 1 }
    {
        Volumetric { rates: [1; RATES] }
    }

    /// Puts these rates, in ten-thousandths of a cent from class 1 on, in the place of all that there were, unless
    /// [`judge`] refuses them: then nothing is changed.
    pub fn set_rates(&mut self, rates: &[u32]) -> Result<(), RatesRefusal>
        ensures answer { result ≡ judged rates.now }
        ensures meaning { Judges rates.now result }
        ensures left { self.new.rates ≡ (if is_ok result then rates.now else self.old.rates) }
    {
        judge(rates)?;
        self.rates.copy_from_slice(rates);
        Ok(())
    }

    /// The rate of a class, in ten-thousandths of a cent; none for what is no class.
    pub fn rate(&self, class: u8) -> Option<u32>
        ensures { result ≡ (if is_class class then Some (rate_of self.now.rates class) else None) }
    {
        is_class(class).then(|| self.class_rate(class))
    }

    fn class_rate(&self, class: u8) -> u32
        requires { is_class class ≡ true }
        ensures { result ≡ rate_of self.now.rates class }
    {
        self.rates[class as usize - 1]
    }

    // An applied credit takes its cents over the rate, rounded up to whole units.
    #[tactic(auto, using(crate::proofs::Applying::used))]
    fn units_used(&self, class: u8, units: u64, bill: u64, applied: u64) -> u64
        requires { applied ≡ applied_credit (by_rates self.now.rates) class units bill }
        ensures { result ≡ units_used (by_rates self.now.rates) class units bill }
    {
        if !in_ranges(class, units, bill) {
            return 0;
        }
        (applied * ONE_CENT).div_ceil(u64::from(self.class_rate(class)))
    }
}

impl CreditMethod for Volumetric {
    const MARK: u8 = b'K';

    ghost MARK = { kilowatt_hours_mark };

    ghost worth = { λ s. by_rates s.rates };

    ghost lawful = { λ s k is. by_rates_lawful s.rates k s.in_range is };

    fn worth(&self, class: u8, units: u64) -> u64 {
        if !has_worth(class, units) {
            return 0;
        }
        units * u64::from(self.class_rate(class)) / ONE_CENT
    }

    fn credit(&self, class: u8, units: u64, bill: u64) -> Credit {
        let applied = applied_credit(class, units, bill, self.worth(class, units));
        let used = self.units_used(class, units, bill, applied);
        Credit { applied, used }
    }
}
