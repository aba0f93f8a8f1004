//! A crediting method made from the rates in force.
ghost use Rattle.std.specs.Prelude.{◌≡◌, ℕ, List};
ghost use Rattle.crediting.specs.Worths.{cents, by_rates};

use crediting::method::CreditMethod;
use crediting::value_stack::ValueStack;
use crediting::volumetric::Volumetric;

/// A crediting method that rates make.
pub trait Rated: CreditMethod {
    // the worth of a class's units by sixteen rates
    ghost worths: { List ℕ → ℕ → ℕ → ℕ };

    /// The method at the rates in force.
    fn rated(rates: &Volumetric) -> Self
        ensures { Self.CreditMethod.worth result ≡ worths rates.now.rates };
}

// a cent is a cent at any rates
impl Rated for ValueStack {
    ghost worths = { λ _. cents };

    fn rated(_rates: &Volumetric) -> ValueStack {
        ValueStack
    }
}

impl Rated for Volumetric {
    ghost worths = { by_rates };

    fn rated(rates: &Volumetric) -> Volumetric {
        *rates
    }
}
