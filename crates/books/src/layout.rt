//! Where the count and the records stand in an image.
ghost use Rattle.std.specs.Prelude.{◌≡◌, ◌<◌, ◌≤◌, ◌==◌, length, take, position};
ghost use Rattle.std.specs.Int.{w32, to_le_bytes};
ghost use Rattle.books.specs.Bytes.{written};
ghost use Rattle.books.specs.Images.{account_in, capacity_of, count_at, count_bytes, record_at, slots_in, with_added, with_record};

use crate::codec::{RECORD_BYTES, decode, encode};
use crate::numbers::number;
use accounts::record::Record;
use base::limits::MOST_RECORDS;

const COUNT_BYTES: usize = 4;

const ACCOUNT_BYTES: usize = 8;

/// The count; none where the image has fewer bytes than a count has.
pub(crate) fn count(image: &[u8]) -> Option<usize>
    ensures { result ≡ count_at image.now }
{
    let bytes = image.first_chunk::<COUNT_BYTES>()?;
    Some(u32::from_le_bytes(*bytes) as usize)
}

// The places for records: whole slots after the count, at most as many as a book may have.
#[tactic(auto, using(crate::proofs::Slots::slots_read))]
fn slots(image: &[u8]) -> &[[u8; RECORD_BYTES]]
    ensures { result.now ≡ slots_in image.now }
{
    let after = &image[COUNT_BYTES.min(image.len())..];
    let (slots, _) = after.as_chunks::<RECORD_BYTES>();
    &slots[..slots.len().min(MOST_RECORDS)]
}

/// How many places for records there are.
#[tactic(auto, using(crate::proofs::Slots::length_slots))]
pub(crate) fn capacity(image: &[u8]) -> usize
    ensures { result ≡ capacity_of image.now }
{
    slots(image).len()
}

/// The record at a place; none where the image has no such place or its bytes are those of no record in range.
#[tactic(auto, using(crate::proofs::Slots::slot_told))]
pub(crate) fn record_at(image: &[u8], place: usize) -> Option<Record>
    ensures { result ≡ record_at image.now place }
{
    let slot = slots(image).get(place)?;
    decode(slot)
}

// The first places; all where there are fewer.
#[tactic(auto, using(std::proofs::lemmas::List::take_min))]
fn first_slots(image: &[u8], end: usize) -> &[[u8; RECORD_BYTES]]
    ensures { result.now ≡ take end (slots_in image.now) }
{
    let slots = slots(image);
    &slots[..end.min(slots.len())]
}

/// The place of an account among the first places; none where they lack it.
pub(crate) fn place_of(image: &[u8], end: usize, account: u64) -> Option<usize>
    ensures { result ≡ position (λ s. account_in s == account) (take end (slots_in image.now)) }
{
    first_slots(image, end)
        .iter()
        .position(|slot| account_in(slot) == account)
}

// The account number that leads a slot.
#[tactic(auto, unfolding(crate::specs::Images::account_in))]
fn account_in(slot: &[u8; RECORD_BYTES]) -> u64
    ensures { result ≡ account_in slot.now }
{
    number(&slot[..ACCOUNT_BYTES])
}

/// Puts a record in a place.
pub(crate) fn put(image: &mut [u8], place: usize, new: &Record)
    requires { place < capacity_of image.old }
    ensures { image.new ≡ with_record place new.now image.old }
{
    let at = COUNT_BYTES + RECORD_BYTES * place;
    image[at..at + RECORD_BYTES].copy_from_slice(&encode(new));
}

/// Puts a count in the bytes that hold it.
pub(crate) fn put_count(image: &mut [u8], count: u32)
    requires { count_bytes ≤ length image.old }
    ensures { image.new ≡ written 0 (to_le_bytes w32 count) image.old }
{
    image[..COUNT_BYTES].copy_from_slice(&count.to_le_bytes());
}

/// Puts a record in the place after so many, and counts it.
pub(crate) fn append(image: &mut [u8], count: usize, new: &Record)
    requires { count < capacity_of image.old }
    ensures { image.new ≡ with_added count new.now image.old }
{
    put(image, count, new);
    put_count(image, count as u32 + 1);
}
