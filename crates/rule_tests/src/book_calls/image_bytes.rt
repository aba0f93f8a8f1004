//! The bytes of a small image, typed from the format.
use accounts::book::AccountBook;
use accounts::record::{Kind, Record, Size, State};
use books::checks::check_open;
use books::image::ImageBook;
use books::table::TableBook;
use std::process::Abort;

fn shop() -> Record {
    Record {
        account: 20_010_000_001,
        percentage: 10_000,
        savings: 1_000,
        class: 2,
        size: Size::Small,
        kind: Kind::Member,
        state: State::Open,
        held: 0,
        last: 0,
    }
}

fn closed_shop() -> Record {
    Record {
        state: State::Closed,
        held: 258,
        last: 3,
        ..shop()
    }
}

fn mill() -> Record {
    Record {
        account: 99_999_999_999,
        percentage: 40_000,
        savings: 9_800,
        class: 16,
        size: Size::Large,
        kind: Kind::Anchor,
        state: State::Open,
        held: 1_000_000_000_000,
        last: 1_200,
    }
}

// Two accounts are added, one of them twice over; then the first is billed and closed.
fn fill<B: AccountBook>(rt: &impl Abort, book: &mut B) {
    assert!(rt; book.add(shop()));
    assert!(rt; book.add(mill()));
    assert!(rt; !book.add(shop()));
    assert!(rt; book.replace(0, closed_shop()));
    assert_eq!(rt; book.count(), 2);
    assert_eq!(rt; book.capacity(), 3);
    assert_eq!(rt; book.get(0), Some(closed_shop()));
    assert_eq!(rt; book.get(1), Some(mill()));
}

// The count, the two records, and the bytes behind them as they were.
fn expected() -> [u8; 114] {
    let mut bytes = [0xee; 114];
    bytes[..4].copy_from_slice(&[2, 0, 0, 0]);
    bytes[4..40].copy_from_slice(&[
        0x81, 0x5e, 0xb0, 0xa8, 0x04, 0, 0, 0, // account
        0x10, 0x27, 0, 0, // percentage
        0xe8, 0x03, // savings rate
        2, b'S', b'M', 2, // class, size, kind, closed
        0x02, 0x01, 0, 0, 0, 0, 0, 0, // units held
        3, 0, 0, 0, // last period billed
        0, 0, 0, 0, 0, 0,
    ]);
    bytes[40..76].copy_from_slice(&[
        0xff, 0xe7, 0x76, 0x48, 0x17, 0, 0, 0, // account
        0x40, 0x9c, 0, 0, // percentage
        0x48, 0x26, // savings rate
        16, b'L', b'X', 1, // class, size, kind, open
        0x00, 0x10, 0xa5, 0xd4, 0xe8, 0, 0, 0, // units held
        0xb0, 0x04, 0, 0, // last period billed
        0, 0, 0, 0, 0, 0,
    ]);
    bytes
}

#[test]
fn kept_in_a_table(rt: HostRuntime) {
    let mut table = [Record::default(); 3];
    let mut book = TableBook::new(&mut table);
    fill(&rt, &mut book);
    assert_eq!(rt; table[0], closed_shop());
    assert_eq!(rt; table[1], mill());
    assert_eq!(rt; table[2], Record::default());
}

#[test]
fn kept_in_an_image(rt: HostRuntime) {
    let mut image = [0xeeu8; 114];
    image[..4].fill(0);
    let mut book = ImageBook::start(&mut image);
    fill(&rt, &mut book);
    assert!(rt; image == expected());
}

// Bytes that nothing here wrote are read as the records.
#[test]
fn read_from_an_image(rt: HostRuntime) {
    let mut image = expected();
    assert_eq!(rt; check_open(&image), Ok(()));
    let book = ImageBook::open(&mut image);
    assert_eq!(rt; book.count(), 2);
    assert_eq!(rt; book.get(0), Some(closed_shop()));
    assert_eq!(rt; book.get(1), Some(mill()));
}
