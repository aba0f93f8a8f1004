//! A record as it is read from a book.
ghost use Rattle.std.specs.Prelude.{◌≡◌, true};
ghost use Rattle.accounts.specs.Ranges.{in_range};

use crate::record::Record;

/// A record in range and its place in a book, counted from 0.
#[derive(Clone, Copy)]
pub struct Entry {
    pub place: usize,
    pub holder: Record,
    ghost ranged: { in_range holder ≡ true },
}
