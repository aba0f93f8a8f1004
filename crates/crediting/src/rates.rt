//! The rates of a volumetric method, one for each service class, and why a list of rates is refused.
ghost use Rattle.crediting.specs.Refusals.{Judges, OnePlace, judged, names_place, number, place as place_of, reason};
ghost use Rattle.crediting.specs.Worths.{rate_in_range};
ghost use Rattle.std.specs.Prelude.{◌≡◌, not, position, Some};
ghost use Rattle.std.proofs.Common.{rules};

use super::limits::{MOST_RATE, RATES};
use base::refusal::Numbered;
use std::error::Error;
use std::fmt;

/// Why a list of rates is refused. Both cases have the number 8.
#[derive(Clone, Copy, PartialEq, Eq, Debug)]
pub enum RatesRefusal {
    /// There are not [`RATES`] rates.
    WrongCount,
    /// A rate is not 1 to [`MOST_RATE`].
    OutOfRange {
        /// Where the first such rate stands in the list, counted from 0.
        place: usize,
    },
}

impl fmt::Display for RatesRefusal {
    ghost output = { λ why. Some (reason why) };

    fn fmt<W: fmt::Write>(&self, f: &mut fmt::Formatter<W>) -> fmt::Result {
        f.write_str(match self {
            RatesRefusal::WrongCount => "there are not sixteen rates",
            RatesRefusal::OutOfRange { .. } => "the rate is not 1 to 1000000",
        })
    }
}

impl Error for RatesRefusal {}

impl Numbered for RatesRefusal {
    ghost number = { number };

    ghost place = { place_of };

    ghost names_place = { names_place };

    ghost reason = { reason };

    ghost spoken = { λ why. Prim.search rules };

    fn number(&self) -> u8 {
        match self {
            RatesRefusal::WrongCount => 8,
            RatesRefusal::OutOfRange { .. } => 8,
        }
    }

    fn place(&self) -> usize {
        match self {
            RatesRefusal::WrongCount => 0,
            RatesRefusal::OutOfRange { place } => *place,
        }
    }

    fn names_place(&self) -> bool {
        matches!(self, RatesRefusal::OutOfRange { .. })
    }
}

fn rate_in_range(rate: u32) -> bool
    ensures { result ≡ rate_in_range rate }
{
    1 <= rate && rate <= MOST_RATE
}

// The place of the first rate that is out of range.
fn first_out_of_range(rates: &[u32]) -> Option<usize>
    ensures { result ≡ position (λ r. not (rate_in_range r)) rates.now }
{
    rates.iter().position(|rate| !rate_in_range(*rate))
}

/// Whether these can be the rates of a method, in ten-thousandths of a cent for a kilowatt-hour from class 1 on: there
/// is one for each class, and each is 1 to [`MOST_RATE`]. A wrong number of rates is refused before any rate is looked
/// at, and else the first rate out of range.
pub fn judge(rates: &[u32]) -> Result<(), RatesRefusal>
    ensures answer { result ≡ judged rates.now }
    ensures meaning { Judges rates.now result }
    ensures one_place { OnePlace rates.now }
{
    if rates.len() != RATES {
        return Err(RatesRefusal::WrongCount);
    }
    match first_out_of_range(rates) {
        Some(place) => Err(RatesRefusal::OutOfRange { place }),
        None => Ok(()),
    }
}
