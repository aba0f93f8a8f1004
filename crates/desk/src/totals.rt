//! What the calls of a journal come to together.
ghost use Rattle.std.specs.Prelude.{◌≡◌, Some};
ghost use Rattle.ledger.specs.Phases.{fees_in};
ghost use Rattle.desk.specs.Amounts.{held_in};
ghost use Rattle.desk.specs.BookLines.{units_text, cents_text};
ghost use Rattle.desk.specs.Totals.{units_of, cents_of};

use crate::amounts::{Amount, Performed, held};
use accounts::book::AccountBook;
use ledger::ledger::Ledger;
use std::fmt;

/// Units: those read are used, forfeited, in the host's bank or held by accounts.
#[derive(Clone, Copy, PartialEq, Eq, Debug)]
pub struct UnitTotals {
    pub read: u128,
    pub used: u128,
    pub forfeited: u128,
    pub bank: u128,
    pub held: u128,
}

impl fmt::Display for UnitTotals {
    ghost output = { λ totals. Some (units_text totals) };

    fn fmt<W: fmt::Write>(&self, f: &mut fmt::Formatter<W>) -> fmt::Result {
        let UnitTotals {
            read,
            used,
            forfeited,
            bank,
            held,
        } = *self;
        write!(
            f,
            "units: read {read} used {used} forfeited {forfeited} bank {bank} held {held}"
        )
    }
}

/// Cents: the applied credits are net credits, what the host is paid, utility fees, or fees of the open period.
#[derive(Clone, Copy, PartialEq, Eq, Debug)]
pub struct CentTotals {
    pub applied: u128,
    pub net: u128,
    pub paid: u128,
    pub utility: u128,
    pub open: u128,
}

impl fmt::Display for CentTotals {
    ghost output = { λ totals. Some (cents_text totals) };

    fn fmt<W: fmt::Write>(&self, f: &mut fmt::Formatter<W>) -> fmt::Result {
        let CentTotals {
            applied,
            net,
            paid,
            utility,
            open,
        } = *self;
        write!(
            f,
            "cents: applied {applied} net {net} paid {paid} utility {utility} open {open}"
        )
    }
}

/// Units read, used and forfeited by the calls, and where the others are.
pub fn unit_totals<M, B: AccountBook>(
    ledger: &Ledger,
    book: &B,
    performed: &Performed<M>,
) -> UnitTotals
    ensures { B.sound book.now
        → result ≡ units_of ledger.now.bank (held_in (B.contents book.now).records)
        performed.now.calls.now performed.now.answers.now }
{
    UnitTotals {
        read: performed.sum(Amount::Read),
        used: performed.sum(Amount::Used),
        forfeited: performed.sum(Amount::Forfeited),
        bank: u128::from(ledger.bank()),
        held: held(book),
    }
}

/// Cents applied by the calls, and whose they are.
pub fn cent_totals<M>(ledger: &Ledger, performed: &Performed<M>) -> CentTotals
    ensures { result ≡ cents_of (fees_in ledger.now.phase) performed.now.calls.now performed.now.answers.now }
{
    CentTotals {
        applied: performed.sum(Amount::Applied),
        net: performed.sum(Amount::Net),
        paid: performed.sum(Amount::Paid),
        utility: performed.sum(Amount::Utility),
        open: u128::from(ledger.open_fees()),
    }
}
