//! The record of an account, and a change of every record: what any code over a book needs.
ghost use Rattle.std.specs.Prelude.{◌≡◌, ℕ, map, Some, MatchOption};
ghost use Rattle.std.specs.List.{slice_get};
ghost use Rattle.std.specs.Option.{option_map};
ghost use Rattle.accounts.specs.declared.record.Record.{Record};
ghost use Rattle.accounts.specs.Books.{Leaves, accounts, find};
ghost use Rattle.accounts.specs.Records.{Changes, Located, Sought};

use crate::book::AccountBook;
use crate::entry::Entry;
use crate::record::Record;

/// The record at a place, counted from 0; none past the last. A record out of range, which no proper book has, is not
/// told.
pub fn entry_at<B: AccountBook>(book: &B, place: usize) -> Option<Entry>
    ensures value { B.sound book.now
        → option_map (λ x. x.holder) result ≡ slice_get (B.contents book.now).records place }
    ensures located { (account : ℕ) → B.sound book.now
        → find account (accounts (B.contents book.now).records) ≡ Some place
        → MatchOption result ⊥ (λ x. Located (B.contents book.now).records account x.place x.holder) }
{
    match book.get(place) {
        Some(holder) if holder.in_range() => Some(Entry { place, holder }),
        _ => None,
    }
}

/// The record of an account and its place; none where the book lacks the account.
#[tactic(auto, using(crate::proofs::Locating::missing))]
pub fn find_entry<B: AccountBook>(book: &B, account: u64) -> Option<Entry>
    ensures { B.sound book.now → Sought (B.contents book.now).records account result }
{
    let place = book.search(account)?;
    entry_at(book, place)
}

/// Puts in the place of each record what a change makes of it; records that the change puts out of range, or gives
/// another account, stay as they are.
pub fn replace_each<B: AccountBook, F: Fn(Entry) -> Record>(book: &mut B, change: F)
    requires { F.IsAlwaysCallable change }
    ensures { (f : Record → Record) → Changes (F.post change) f (B.contents book.old).records
        → Leaves B.sound B.contents B.same_rest book.old book.new (map f) }
{
    for place in 0..book.count() {
        if let Some(entry) = entry_at(book, place) {
            let _ = book.replace(place, change(entry));
        }
    }
}
