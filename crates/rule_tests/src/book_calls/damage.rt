//! Images that are refused.
use super::samples::{largest, small};
use accounts::book::AccountBook;
use books::checks::{ImageRefusal, check_open, check_start};
use books::image::ImageBook;

// An image of three places, all in use, and two bytes past them.
fn whole() -> [u8; 114] {
    let mut image = [0u8; 114];
    let mut book = ImageBook::start(&mut image);
    let _ = book.add(small(1));
    let _ = book.add(small(2));
    let _ = book.add(largest());
    image
}

// A byte of a record and a value that makes the record unfit, at whatever place it stands.
fn damages() -> [(usize, u8); 16] {
    [
        (7, 1),
        (11, 1),
        (13, 0),
        (13, 255),
        (14, 0),
        (14, 17),
        (15, b'M'),
        (15, b's'),
        (16, b'S'),
        (16, b'm'),
        (17, 0),
        (17, 3),
        (25, 1),
        (29, 1),
        (30, 1),
        (35, 1),
    ]
}

#[test]
fn unfit_first_and_last(rt: HostRuntime) {
    for (at, value) in damages() {
        for place in 0..3usize {
            let mut image = whole();
            assert!(rt; at < 36);
            image[4 + 36 * place + at] = value;
            assert_eq!(rt; check_open(&image), Err(ImageRefusal::UnfitRecord(place)));
            assert_eq!(rt; check_start(&image), Ok(()));
        }
    }
}

#[test]
fn repeated_account(rt: HostRuntime) {
    let image: &mut [u8] = &mut whole();
    image[40..48].copy_from_slice(&1u64.to_le_bytes());
    assert_eq!(rt; check_open(image), Err(ImageRefusal::UnfitRecord(1)));
    let image: &mut [u8] = &mut whole();
    image[76..84].copy_from_slice(&2u64.to_le_bytes());
    assert_eq!(rt; check_open(image), Err(ImageRefusal::UnfitRecord(2)));
}

// The first of two unfit records is told.
#[test]
fn first_of_two(rt: HostRuntime) {
    let mut image = whole();
    image[40 + 30] = 9;
    image[4 + 35] = 9;
    assert_eq!(rt; check_open(&image), Err(ImageRefusal::UnfitRecord(0)));
}

#[test]
fn no_room(rt: HostRuntime) {
    assert_eq!(rt; check_start(&[]), Err(ImageRefusal::NoRoom));
    assert_eq!(rt; check_open(&[0, 0, 0]), Err(ImageRefusal::NoRoom));
    assert_eq!(rt; check_open(&[0, 0, 0, 0]), Ok(()));
    assert_eq!(rt; check_open(&[1, 0, 0, 0]), Err(ImageRefusal::NoRoom));
    let mut image = whole();
    assert_eq!(rt; check_open(&image), Ok(()));
    image[0] = 4;
    assert_eq!(rt; check_open(&image), Err(ImageRefusal::NoRoom));
    assert_eq!(rt; check_start(&image), Err(ImageRefusal::NoRoom));
}

// A refused image makes a book of no room, and stays as it is.
#[test]
fn refused_stays(rt: HostRuntime) {
    let mut image = whole();
    image[3] = 1;
    let mut book = ImageBook::start(&mut image);
    assert_eq!(rt; book.capacity(), 0);
    assert_eq!(rt; book.count(), 0);
    assert!(rt; !book.add(small(9)));
    let mut expected = whole();
    expected[3] = 1;
    assert!(rt; image == expected);
    image[3] = 0;
    image[4 + 17] = 0;
    let mut book = ImageBook::open(&mut image);
    assert_eq!(rt; book.capacity(), 0);
    assert!(rt; !book.add(small(9)));
    expected[3] = 0;
    expected[4 + 17] = 0;
    assert!(rt; image == expected);
}

// Starting writes the count's four bytes and no other.
#[test]
fn started_anew(rt: HostRuntime) {
    let mut image = whole();
    let book = ImageBook::start(&mut image);
    assert_eq!(rt; book.count(), 0);
    assert_eq!(rt; book.capacity(), 3);
    let mut expected = whole();
    expected[0] = 0;
    assert!(rt; image == expected);
}
