//! An account book in a table of records that the caller lends.
ghost use Rattle.std.specs.Prelude.{◌≡◌, ◌≤◌, min, true, [], ◌∷◌, ◌++◌, is_some, length, take, if◌then◌else◌, slice_set};
ghost use Rattle.std.specs.List.{slice_get};
ghost use Rattle.base.specs.Limits.{most_records};
ghost use Rattle.accounts.specs.Books.{Proper, accepts, accounts, added, find, present, replaced, suits, takes};

use accounts::book::AccountBook;
use accounts::record::Record;
use base::limits::MOST_RECORDS;

/// A book whose records are the first places of a table; the places after them keep what they held. Of a longer table
/// the first [`MOST_RECORDS`](base::limits::MOST_RECORDS) places are used.
#[derive(Drop)]
pub struct TableBook<'a> {
    table: &'a mut [Record],
    count: usize,
    ghost within: { count ≤ length table.now },
    ghost proper: { Proper (take count table.now) (min most_records (length table.now)) },
}

impl<'a> TableBook<'a> {
    ghost use Rattle.books.specs.Tables.{table_of, count_of, loan_of, records_of, room_of, contents_of, Sound, SameRest, LeftWith, Pinned, StaysWhole, Added, Replaced};

    /// An empty book in a table, which stays as it is.
    pub fn new(table: &'a mut [Record]) -> TableBook<'a>
        ensures empty { count_of result ≡ 0 }
        ensures table { table_of result ≡ table.old }
        ensures loan { loan_of result ≡ table.entry.ghost_name }
        ensures lent { (contents_of result).loans ≡ table.entry.ghost_name ∷ [] }
        ensures sound { Sound result }
        ensures pinned { (old new : TableBook) → Pinned old new }
        ensures whole { (b : TableBook) → Sound b → StaysWhole b }
    {
        TableBook { table, count: 0 }
    }

    // The places that hold records.
    fn records(&self) -> &[Record]
        ensures { result.now ≡ records_of self.now }
    {
        &self.table[..self.count]
    }

    // Puts a record behind the last.
    fn push(&mut self, new: Record)
        requires { accepts (contents_of self.old) new ≡ true }
        ensures table { Added true self.old self.new new }
        ensures after { LeftWith self.old self.new (records_of self.old ++ new ∷ []) }
    {
        self.table[self.count] = new;
        self.count += 1;
    }

    // Puts a record at a place.
    fn put(&mut self, place: usize, new: Record)
        requires { suits (records_of self.old) place new ≡ true }
        ensures table { Replaced true self.old self.new place new }
        ensures after { LeftWith self.old self.new (slice_set (records_of self.old) place new) }
    {
        self.table[place] = new;
    }
}

impl<'a> AccountBook for TableBook<'a> {
    ghost use Rattle.books.specs.Tables.{table_of, count_of, loan_of, records_of, room_of, contents_of, Sound, SameRest, LeftWith, Added, Replaced};
    ghost use Rattle.books.specs.TableLaws.{stays, follows};

    ghost contents = { contents_of };

    ghost sound = { Sound };

    ghost same_rest = { SameRest };

    ghost proper = { λ b s. s.proper };

    ghost rest_stays = { stays };

    ghost rest_follows = { follows };

    fn count(&self) -> usize {
        self.count
    }

    fn capacity(&self) -> usize
        ensures { result ≡ room_of self.now }
    {
        self.table.len().min(MOST_RECORDS)
    }

    fn get(&self, place: usize) -> Option<Record>
        ensures { result ≡ slice_get (records_of self.now) place }
    {
        self.records().get(place).copied()
    }

    fn search(&self, account: u64) -> Option<usize>
        ensures found { result ≡ find account (accounts (records_of self.now)) }
        ensures test { is_some result ≡ present account (accounts (records_of self.now)) }
    {
        self.records()
            .iter()
            .position(|record| record.account == account)
    }

    fn add(&mut self, new: Record) -> bool
        ensures answer { result ≡ accepts (contents_of self.old) new }
        ensures after { LeftWith self.old self.new (added result (records_of self.old) new) }
        ensures table { Added result self.old self.new new }
    {
        let accepted = self.takes(&new);
        if accepted {
            self.push(new);
        }
        accepted
    }

    fn replace(&mut self, place: usize, new: Record) -> bool
        ensures answer { result ≡ suits (records_of self.old) place new }
        ensures after { LeftWith self.old self.new (replaced result (records_of self.old) place new) }
        ensures table { Replaced result self.old self.new place new }
    {
        let accepted = self.suits(place, &new);
        if accepted {
            self.put(place, new);
        }
        accepted
    }
}

/// Starts a book in a table with a first record, and lets the book go: the record is left in the first place, or, where
/// it is out of range or the table has no place, the table is as it was.
pub fn enter_first(table: &mut [Record], first: Record) -> bool
    ensures answer { result ≡ takes [] (min most_records (length table.old)) first }
    ensures table { table.new ≡ (if result then slice_set table.old 0 first else table.old) }
{
    let mut book = TableBook::new(table);
    book.add(first)
}
