//! A month's metered units, and the shares of them.
ghost use Rattle.std.specs.Prelude.{◌≡◌, ◌≤◌, false, map, IfSome};
ghost use Rattle.base.specs.Limits.{most_reading};
ghost use Rattle.accounts.specs.Books.{Leaves};
ghost use Rattle.sharing.specs.Shares.{share, gaining, all_shares, foreign_to_reading};

use accounts::book::AccountBook;
use accounts::entries::{entry_at, replace_each};
use accounts::entry::Entry;
use accounts::record::Record;
use base::limits::{MOST_UNITS, WHOLE};

const ALL: u64 = WHOLE as u64;

/// A month's metered units, at most [`MOST_READING`](base::limits::MOST_READING).
#[derive(Clone, Copy)]
pub struct Reading {
    pub units: u64,
    ghost limited: { units ≤ most_reading },
}

impl Reading {
    // A satellite's share, rounded down to whole units.
    fn share(self, entry: Entry) -> u64
        ensures { result ≡ share self.units entry.holder.percentage }
    {
        self.units * u64::from(entry.holder.percentage) / ALL
    }

    /// All shares together, in units; none where the book cannot be this ledger's: its percentages pass 100 percent
    /// together, or a satellite would hold more than [`MOST_UNITS`].
    pub fn judge<B: AccountBook>(self, book: &B) -> Option<u64>
        ensures value { B.sound book.now → result ≡ all_shares self.units (B.contents book.now).records }
        ensures bound { IfSome result (λ shared. shared ≤ self.units) }
    {
        let mut percentages: u64 = 0;
        let mut shared: u64 = 0;
        for place in 0..book.count() {
            let entry = entry_at(book, place)?;
            percentages += u64::from(entry.holder.percentage);
            if percentages > ALL {
                return None;
            }
            let gain = self.share(entry);
            if entry.holder.held + gain > MOST_UNITS {
                return None;
            }
            shared += gain;
        }
        Some(shared)
    }

    /// Adds its share to each record of a book that [`judge`](Reading::judge) answers a number for.
    pub fn share_out<B: AccountBook>(self, book: &mut B)
        ensures { foreign_to_reading self.units (B.contents book.old).records ≡ false
            → Leaves B.sound B.contents B.same_rest book.old book.new (map (gaining self.units)) }
    {
        replace_each(
            book,
            |entry| Record {
                held: entry.holder.held + self.share(entry),
                ..entry.holder
            },
        );
    }
}
