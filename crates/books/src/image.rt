//! An account book in an image of bytes that the caller lends.
ghost use Rattle.std.specs.Prelude.{◌≡◌, true, [], ◌∷◌, ◌++◌, is_some, slice_set};
ghost use Rattle.std.specs.List.{slice_get};
ghost use Rattle.accounts.specs.Books.{accepts, accounts, added, find, present, replaced, suits};
ghost use Rattle.books.specs.Reading.{opened_count, opened_room, started, started_room, Reads};

use crate::extent::Extent;
use crate::layout;
use accounts::book::AccountBook;
use accounts::record::Record;

/// A book whose records stand one behind the other in an image, after their count. Opened again, the image gives the
/// book back.
#[derive(Drop)]
pub struct ImageBook<'a> {
    image: &'a mut [u8],
    // count and room are those of the image; both are 0 where it was unfit
    count: usize,
    room: usize,
    ghost reads: { Reads image.now count room },
}

impl<'a> ImageBook<'a> {
    ghost use Rattle.books.specs.Holding.{image_of, count_of, loan_of, records_of, room_of, contents_of, Sound, SameRest, LeftWith, Pinned, StaysWhole, ComesBack, Added, Replaced};

    /// An empty book in an image, of which the count's bytes are written and no other. An image that
    /// [`check_start`](crate::checks::check_start) refuses stays as it is, and makes a book of no room.
    pub fn start(image: &'a mut [u8]) -> ImageBook<'a>
        ensures image { image_of result ≡ started image.old }
        ensures count { count_of result ≡ 0 }
        ensures room { room_of result ≡ started_room image.old }
        ensures loan { loan_of result ≡ image.entry.ghost_name }
        ensures lent { (contents_of result).loans ≡ image.entry.ghost_name ∷ [] }
        ensures sound { Sound result }
        ensures pinned { (old new : ImageBook) → Pinned old new }
        ensures whole { (b : ImageBook) → Sound b → StaysWhole b }
    {
        let Extent { count, room } = Extent::start(image);
        ImageBook { image, count, room }
    }

    /// The book that an image holds. An image that [`check_open`](crate::checks::check_open) refuses stays as it is,
    /// and makes a book of no room.
    pub fn open(image: &'a mut [u8]) -> ImageBook<'a>
        ensures image { image_of result ≡ image.old }
        ensures count { count_of result ≡ opened_count image.old }
        ensures room { room_of result ≡ opened_room image.old }
        ensures loan { loan_of result ≡ image.entry.ghost_name }
        ensures lent { (contents_of result).loans ≡ image.entry.ghost_name ∷ [] }
        ensures sound { Sound result }
        ensures again { ComesBack image.old (count_of result) (room_of result) }
        ensures pinned { (old new : ImageBook) → Pinned old new }
        ensures whole { (b : ImageBook) → Sound b → StaysWhole b }
    {
        let Extent { count, room } = Extent::open(image);
        ImageBook { image, count, room }
    }

    // Puts a record behind the last.
    fn push(&mut self, new: Record)
        requires { accepts (contents_of self.old) new ≡ true }
        ensures image { Added true self.old self.new new }
        ensures after { LeftWith self.old self.new (records_of self.old ++ new ∷ []) }
    {
        layout::append(self.image, self.count, &new);
        self.count += 1;
    }

    // Puts a record at a place.
    fn put(&mut self, place: usize, new: Record)
        requires { suits (records_of self.old) place new ≡ true }
        ensures image { Replaced true self.old self.new place new }
        ensures after { LeftWith self.old self.new (slice_set (records_of self.old) place new) }
    {
        layout::put(self.image, place, &new);
    }
}

impl<'a> AccountBook for ImageBook<'a> {
    ghost use Rattle.books.specs.Holding.{image_of, loan_of, records_of, room_of, contents_of, Sound, SameRest, LeftWith, Added, Replaced};
    ghost use Rattle.books.specs.ImageLaws.{stays, follows};

    ghost contents = { contents_of };

    ghost sound = { Sound };

    ghost same_rest = { SameRest };

    ghost proper = { λ b s. s.proper };

    ghost rest_stays = { stays };

    ghost rest_follows = { follows };

    fn count(&self) -> usize {
        self.count
    }

    fn capacity(&self) -> usize {
        self.room
    }

    fn get(&self, place: usize) -> Option<Record>
        ensures { result ≡ slice_get (records_of self.now) place }
    {
        if place >= self.count {
            return None;
        }
        layout::record_at(self.image, place)
    }

    fn search(&self, account: u64) -> Option<usize>
        ensures found { result ≡ find account (accounts (records_of self.now)) }
        ensures test { is_some result ≡ present account (accounts (records_of self.now)) }
    {
        layout::place_of(self.image, self.count, account)
    }

    fn add(&mut self, new: Record) -> bool
        ensures answer { result ≡ accepts (contents_of self.old) new }
        ensures after { LeftWith self.old self.new (added result (records_of self.old) new) }
        ensures image { Added result self.old self.new new }
    {
        let accepted = self.takes(&new);
        if accepted {
            self.push(new);
        }
        accepted
    }

    fn replace(&mut self, place: usize, new: Record) -> bool
        ensures answer { result ≡ suits (records_of self.old) place new }
        ensures after { LeftWith self.old self.new (replaced result (records_of self.old) place new) }
        ensures image { Replaced result self.old self.new place new }
    {
        let accepted = self.suits(place, &new);
        if accepted {
            self.put(place, new);
        }
        accepted
    }
}
