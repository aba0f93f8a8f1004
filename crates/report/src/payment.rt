//! What the host is paid for a period, and why.
ghost use Rattle.std.specs.Prelude.{◌≡◌, IfOk, Some, string_bytes};
ghost use Rattle.report.specs.Payments.{cents_of, label_of, payment_text};

use crate::cells::push_right;
use base::amount::Dollars;
use ledger::answer::Settlement;
use std::alloc::{AllocError, Global};
use std::fmt;

/// A line of the payment, of which there are seven: from the credit that all satellites had down to what the host is
/// paid. It is printed as its label.
#[derive(Clone, Copy, PartialEq, Eq, Debug)]
pub enum Item {
    /// The credit applied to all satellites.
    Applied,
    /// The part of it that anchors had, which pay no fee.
    ToAnchors,
    /// The part of it that members had.
    ToMembers,
    /// The part of that which the members keep.
    NetCredit,
    /// The subscription fees, which are the rest of it.
    Fees,
    /// The part of the fees that the utility keeps.
    UtilityFee,
    /// The rest of the fees, which the host is paid.
    Payment,
}

/// The lines in their order.
pub const ITEMS: [Item; 7] = [
    Item::Applied,
    Item::ToAnchors,
    Item::ToMembers,
    Item::NetCredit,
    Item::Fees,
    Item::UtilityFee,
    Item::Payment,
];

/// How wide a line of the payment is, in columns.
const WIDTH: usize = 66;

impl fmt::Display for Item {
    ghost output = { λ item. Some (label_of item) };

    fn fmt<W: fmt::Write>(&self, f: &mut fmt::Formatter<W>) -> fmt::Result {
        f.write_str(match self {
            Item::Applied => "Credit applied to satellites",
            Item::ToAnchors => "  less that of excluded anchors, without fee",
            Item::ToMembers => "Credit applied to members",
            Item::NetCredit => "  less their net credit",
            Item::Fees => "Subscription fees",
            Item::UtilityFee => "  less utility fee, 1.5 percent of members' credit",
            Item::Payment => "Paid to the host",
        })
    }
}

impl Item {
    /// The item's cents, by the credit applied to all satellites, in cents, and the settlement of the period.
    pub fn cents(self, applied: u128, settlement: &Settlement) -> u128
        ensures { result ≡ cents_of self applied settlement.now }
    {
        let members = u128::from(settlement.applied);
        let fees = u128::from(settlement.fees);
        match self {
            Item::Applied => applied,
            Item::ToAnchors => applied.saturating_sub(members),
            Item::ToMembers => members,
            Item::NetCredit => members.saturating_sub(fees),
            Item::Fees => fees,
            Item::UtilityFee => u128::from(settlement.utility),
            Item::Payment => u128::from(settlement.payment),
        }
    }

    /// The item's line: its label at the left, its dollars at the right.
    pub fn line(
        self,
        applied: u128,
        settlement: &Settlement,
        heap: Global,
    ) -> Result<String, AllocError>
        ensures { IfOk result (λ s. string_bytes s ≡ payment_text self applied settlement.now) }
    {
        let mut line = self.to_string(heap)?;
        let width = WIDTH.saturating_sub(line.len());
        let amount = Dollars::from(self.cents(applied, settlement));
        push_right(&mut line, &amount, width, heap)?;
        Ok(line)
    }
}
