//! Value Stack crediting: a unit is a cent.
ghost use Rattle.crediting.specs.Lawfulness.{cents_lawful};
ghost use Rattle.crediting.specs.Worths.{cents, cents_mark};

use super::credit::{Credit, applied_credit, has_worth};
use super::method::CreditMethod;

/// The method whose units are cents, in every service class.
#[derive(Clone, Copy, PartialEq, Eq, Debug)]
pub struct ValueStack;

impl CreditMethod for ValueStack {
    const MARK: u8 = b'C';

    ghost MARK = { cents_mark };

    ghost worth = { λ _. cents };

    ghost lawful = { λ s k is. cents_lawful k };

    fn worth(&self, class: u8, units: u64) -> u64 {
        if has_worth(class, units) { units } else { 0 }
    }

    fn credit(&self, class: u8, units: u64, bill: u64) -> Credit {
        let applied = applied_credit(class, units, bill, self.worth(class, units));
        let used = applied; // a cent takes one unit
        Credit { applied, used }
    }
}
