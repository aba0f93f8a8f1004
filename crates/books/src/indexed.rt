//! An account book over any account book, which finds an account by hints of the place where it stands.
ghost use Rattle.std.specs.Prelude.{◌≡◌, ℕ, length, Some, None, IfSome, MatchOption, slice_index_or};
ghost use Rattle.std.specs.List.{slice_get};
ghost use Rattle.std.specs.Option.{option_or};
ghost use Rattle.accounts.specs.Books.{Leaves, accepts, added};
ghost use Rattle.books.specs.Hints.{Slot, book_of, contents_with, hints_of, is_at, loan_of, place_in};

use accounts::book::AccountBook;
use accounts::record::Record;

// How many slots of the hints are looked at for one account.
const MOST_LOOKS: u64 = 64;

// The slot that is looked at for an account after so many others; none where there are no slots.
fn slot(slots: usize, account: u64, looks: u64) -> Option<usize>
    ensures { MatchOption result (slots ≡ 0) (λ s. Slot slots account looks s) }
{
    account
        .wrapping_add(looks)
        .checked_rem(slots as u64)
        .map(|slot| slot as usize)
}

// That slot, where it is free.
fn free_slot(hints: &[Option<usize>], account: u64, looks: u64) -> Option<usize>
    ensures { IfSome result (λ s. slice_get hints.now s ≡ Some None) }
{
    slot(hints.len(), account, looks).filter(|slot| hints[*slot].is_none())
}

// Notes the place of an account in the first free slot that a search for it looks at; in none, where none is free.
fn note(hints: &mut [Option<usize>], account: u64, place: usize)
    ensures { (i p : ℕ) → slice_get hints.old i ≡ Some (Some p) → slice_get hints.new i ≡ Some (Some p) }
{
    if hints.is_empty() {
        return;
    }
    if let Some(slot) = (0..MOST_LOOKS).find_map(|looks| free_slot(hints, account, looks)) {
        hints[slot] = Some(place);
    }
}

/// A book with hints of the places of its records. A hint is held against the record at its place before it is
/// believed, so that no hint, however wrong, makes a wrong answer.
#[derive(Drop)]
pub struct IndexedBook<'a, 'h, B> {
    book: &'a mut B,
    // none in a free slot
    hints: &'h mut [Option<usize>],
}

impl<'a, 'h, B: AccountBook> IndexedBook<'a, 'h, B> {
    /// The same book with hints of the places of its records; what the slots held before is lost.
    pub fn new(book: &'a mut B, hints: &'h mut [Option<usize>]) -> IndexedBook<'a, 'h, B>
        ensures book { book_of result ≡ book.old }
        ensures loan { loan_of result ≡ book.entry.ghost_name }
    {
        hints.fill(None);
        for place in 0..book.count() {
            if let Some(record) = book.get(place) {
                note(hints, record.account, place);
            }
        }
        IndexedBook { book, hints }
    }

    // The place in the slot that is looked at for an account after so many others; none where the slot is free.
    fn hint(&self, account: u64, looks: u64) -> Option<usize>
        ensures { (s : ℕ) → Slot (length (hints_of self.now)) account looks s
            → result ≡ slice_index_or (hints_of self.now) s None }
    {
        let slot = slot(self.hints.len(), account, looks)?;
        self.hints[slot]
    }

    // Whether an account stands at a place.
    fn stands_at(&self, account: u64, place: usize) -> bool
        ensures { B.sound (book_of self.now)
            → result ≡ is_at (place_in (B.contents (book_of self.now)) account) place }
    {
        self.get(place)
            .is_some_and(|record| record.account == account)
    }

    // The place of an account by the hints; none where they do not tell it.
    fn hinted(&self, account: u64) -> Option<usize>
        ensures { B.sound (book_of self.now)
            → option_or result (place_in (B.contents (book_of self.now)) account)
            ≡ place_in (B.contents (book_of self.now)) account }
    {
        (0..MOST_LOOKS)
            .map_while(|looks| self.hint(account, looks))
            .find(|place| self.stands_at(account, *place))
    }
}

impl<'a, 'h, B: AccountBook> AccountBook for IndexedBook<'a, 'h, B> {
    ghost contents = { λ b. contents_with (loan_of b) (B.contents (book_of b)) };

    ghost sound = { λ b. B.sound (book_of b) };

    ghost same_rest = { λ a b. B.same_rest (book_of a) (book_of b) };

    ghost proper = { λ b s. B.proper (book_of b) s };

    ghost rest_stays = { λ b. B.rest_stays (book_of b) };

    ghost rest_follows = { λ a b c h k. B.rest_follows (book_of a) (book_of b) (book_of c) h k };

    fn count(&self) -> usize {
        self.book.count()
    }

    fn capacity(&self) -> usize {
        self.book.capacity()
    }

    fn get(&self, place: usize) -> Option<Record> {
        self.book.get(place)
    }

    fn search(&self, account: u64) -> Option<usize> {
        self.hinted(account).or_else(|| self.book.search(account))
    }

    fn add(&mut self, new: Record) -> bool {
        let place = self.count();
        if !self.book.add(new) {
            return false;
        }
        note(self.hints, new.account, place);
        true
    }

    fn replace(&mut self, place: usize, new: Record) -> bool {
        self.book.replace(place, new)
    }
}

/// Adds a record to a book through its hints, and lets the hints go: the book answers and is left as if it had been
/// asked itself.
pub fn add_indexed<B: AccountBook>(book: &mut B, hints: &mut [Option<usize>], new: Record) -> bool
    ensures answer { B.sound book.old → result ≡ accepts (B.contents book.old) new }
    ensures after { Leaves B.sound B.contents B.same_rest book.old book.new (λ rs. added result rs new) }
{
    let mut indexed = IndexedBook::new(book, hints);
    indexed.add(new)
}
