//! The checks of an image that come before a book is made of it.
ghost use Rattle.std.specs.Prelude.{◌≡◌, ◌<◌, ◌≤◌, Some, IfOk};
ghost use Rattle.std.specs.Result.{result_err};
ghost use Rattle.std.proofs.Common.{rules};
ghost use Rattle.books.specs.Images.{count_in, capacity_of};
ghost use Rattle.books.specs.ImageRefusals.{first_unfit, names_place, number_of, open_refusal, place_of, reason_text, start_refusal, unfit};
ghost use Rattle.books.specs.Reading.{Legible};

use crate::layout;
use base::refusal::Numbered;
use std::error::Error;
use std::fmt;

/// Why an image is refused.
#[derive(Clone, Copy, PartialEq, Eq, Debug)]
pub enum ImageRefusal {
    /// Fewer bytes than a count has, or a count past the capacity.
    NoRoom,
    /// At this place, counted from 0, a record out of range, of an account that an earlier record has, or with a filler
    /// byte that is not 0.
    UnfitRecord(usize),
}

impl fmt::Display for ImageRefusal {
    ghost output = { λ e. Some (reason_text e) };

    fn fmt<W: fmt::Write>(&self, f: &mut fmt::Formatter<W>) -> fmt::Result {
        f.write_str(match self {
            ImageRefusal::NoRoom =>
                "the image has under 4 bytes, or its count is above its capacity",
            ImageRefusal::UnfitRecord(_) =>
                "the record is out of range, its account stands in an earlier place, or a filler byte is not 0",
        })
    }
}

impl Error for ImageRefusal {}

impl Numbered for ImageRefusal {
    ghost number = { number_of };

    ghost place = { place_of };

    ghost names_place = { names_place };

    ghost reason = { reason_text };

    ghost spoken = { λ e. Prim.search rules };

    fn number(&self) -> u8 {
        match self {
            ImageRefusal::NoRoom => 6,
            ImageRefusal::UnfitRecord(_) => 7,
        }
    }

    fn place(&self) -> usize {
        match self {
            ImageRefusal::NoRoom => 0,
            ImageRefusal::UnfitRecord(place) => *place,
        }
    }

    fn names_place(&self) -> bool {
        matches!(self, ImageRefusal::UnfitRecord(_))
    }
}

// The count of an image that is not above its capacity.
fn fitting_count(image: &[u8]) -> Result<usize, ImageRefusal>
    ensures refused { result_err result ≡ start_refusal image.now }
    ensures count { IfOk result (λ n. n ≡ count_in image.now) }
{
    layout::count(image)
        .filter(|count| *count <= layout::capacity(image))
        .ok_or(ImageRefusal::NoRoom)
}

/// Whether a book may be started in an image. [`ImageRefusal::NoRoom`] where the image has fewer bytes than a count
/// has, or its count is above its capacity.
pub fn check_start(image: &[u8]) -> Result<(), ImageRefusal>
    ensures { result_err result ≡ start_refusal image.now }
{
    fitting_count(image)?;
    Ok(())
}

// Whether the record at a place is illegible or its account is in an earlier place.
fn unfit(image: &[u8], place: usize) -> bool
    ensures { place < capacity_of image.now → Legible place image.now → result ≡ unfit place image.now }
{
    layout::record_at(image, place).is_none_or(|record| {
        layout::place_of(image, place, record.account).is_some()
    })
}

// The first of so many records that is unfit.
fn first_unfit(image: &[u8], count: usize) -> Option<usize>
    ensures { count ≤ capacity_of image.now → result ≡ first_unfit count 0 image.now }
{
    (0..count).find(|place| unfit(image, *place))
}

// The count of an image that may be opened as a book.
pub(crate) fn opened_count(image: &[u8]) -> Result<usize, ImageRefusal>
    ensures refused { result_err result ≡ open_refusal image.now }
    ensures count { IfOk result (λ n. n ≡ count_in image.now) }
{
    let count = fitting_count(image)?;
    match first_unfit(image, count) {
        None => Ok(count),
        Some(place) => Err(ImageRefusal::UnfitRecord(place)),
    }
}

/// Whether an image may be opened as a book. Refused as [`check_start`] refuses, and then with
/// [`ImageRefusal::UnfitRecord`] for the first unfit record.
pub fn check_open(image: &[u8]) -> Result<(), ImageRefusal>
    ensures { result_err result ≡ open_refusal image.now }
{
    opened_count(image)?;
    Ok(())
}
