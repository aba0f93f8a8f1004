//! The interface of an account book.
ghost use Rattle.std.specs.Prelude.{◌≡◌, length};
ghost use Rattle.std.specs.List.{slice_get};
ghost use Rattle.accounts.specs.Books.{Contents, Leaves, Proper, accepts, accounts, added, find, replaced, suits};

use crate::record::Record;

/// Account records one behind the other as they were added: each in range, no account twice, in a fixed room of at
/// most [`MOST_RECORDS`](base::limits::MOST_RECORDS). The rules are for a book that is proper in this sense, which each
/// kind of book says of itself; a book as made is proper, and every call keeps it so.
pub trait AccountBook {
    // what the book shows: its records, its room, a side list, and the memory that is lent to it
    ghost contents: { Self → Contents };

    // that it is a proper book
    ghost sound: { Self → Type 0 };

    // that what is lent to the book and holds no record is as it was
    ghost same_rest: { Self → Self → Type 0 };

    ghost proper: { (b : Self) → sound b → Proper (contents b).records (contents b).room };

    ghost rest_stays: { (b : Self) → same_rest b b };

    ghost rest_follows: { (a b c : Self) → same_rest a b → same_rest b c → same_rest a c };

    /// How many records there are.
    fn count(&self) -> usize
        ensures { sound self.now → result ≡ length (contents self.now).records };

    /// How many records there is room for.
    fn capacity(&self) -> usize
        ensures { sound self.now → result ≡ (contents self.now).room };

    /// The record at a place, counted from 0; none past the last.
    fn get(&self, place: usize) -> Option<Record>
        ensures { sound self.now → result ≡ slice_get (contents self.now).records place };

    /// The place of an account; none where the book lacks it.
    fn search(&self, account: u64) -> Option<usize>
        ensures { sound self.now → result ≡ find account (accounts (contents self.now).records) };

    /// Whether `add` would take a record: there is room, it is in range, and its account is new.
    #[tactic(auto, using(crate::proofs::Finding::found_present))]
    fn takes(&self, new: &Record) -> bool
        ensures { sound self.now → result ≡ accepts (contents self.now) new.now }
    {
        if self.count() >= self.capacity() {
            return false;
        }
        if !new.in_range() {
            return false;
        }
        self.search(new.account).is_none()
    }

    /// Whether `replace` would put a record at a place: it is in range, and the place has its account already.
    fn suits(&self, place: usize, new: &Record) -> bool
        ensures { sound self.now → result ≡ suits (contents self.now).records place new.now }
    {
        new.in_range()
            && self
                .get(place)
                .is_some_and(|old| old.account == new.account)
    }

    /// Puts a record behind the last. False, and nothing is changed, where there is no room, the record is out of range
    /// or the book has its account.
    fn add(&mut self, new: Record) -> bool
        ensures answer { sound self.old → result ≡ accepts (contents self.old) new }
        ensures after { Leaves sound contents same_rest self.old self.new (λ rs. added result rs new) };

    /// Puts a record at a place in the stead of another of its account. False, and nothing is changed, where the place
    /// is past the last, the record is out of range, or the place has another account.
    fn replace(&mut self, place: usize, new: Record) -> bool
        ensures answer { sound self.old → result ≡ suits (contents self.old).records place new }
        ensures after { Leaves sound contents same_rest self.old self.new
            (λ rs. replaced result rs place new) };
}
